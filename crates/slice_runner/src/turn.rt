// One step of a slice's play, with its events given to the tool.
ghost use Rattle.std.specs.Prelude.{◌≡◌, ◌≤◌, ◌<◌, ◌^◌, IfOk, IsOk, length, false, option_copied};
ghost use Rattle.guest_model.specs.Effect.{Effect, effect_of};
ghost use Rattle.guest_model.specs.Play.{entry_for, play_step, played_item, spot, written_at};
ghost use Rattle.guest_model.specs.Runs.{Running};
ghost use Rattle.guest_mem.specs.Frames.{HasAllFrames};
ghost use Rattle.boundary_verify.specs.Job.{FitsAt, script_of_job};
ghost use Rattle.tool_step.specs.Steps.{TakesEvents, trace_events};
ghost use Rattle.slice_runner.specs.Turn.{IsTurn, events_left};

use boundary_verify::Job;
use call_playback::play;
use call_record::Record;
use insert_points::Plan;
use rv_machine::{Guest, Stepped};
use std::alloc::AllocError;
use tool_law::Tool;
use tool_step::{after_call, operands_at, tool_step_in};

/// The record for the call at this record position, if one is left of these, of which the first is for `first`.
pub(crate) fn record_for(records: &[Record], first: u64, calls: u64) -> Option<&Record>
    requires { first ≤ calls }
    ensures { option_copied result ≡ entry_for (record { first = first; entries = records.now }) calls }
{
    records.get((calls - first) as usize)
}

// The same of the records of a job.
fn entry_at(job: &Job, calls: u64) -> Option<&Record>
    requires { job.now.position ≤ calls }
    ensures { option_copied result ≡ entry_for (script_of_job job.now) calls }
{
    record_for(&job.records, job.position, calls)
}

// The call at which the guest stands, played: the events before it were given. False where no record is left for it. Out
// of line, so that the turn stays short.
#[inline(never)]
fn play_call<T: Tool>(
    plan: &Plan,
    tool: &T,
    job: &Job,
    guest: &mut Guest,
    calls: &mut u64,
    local: &mut T::Local,
) -> Result<bool, AllocError>
    requires call { effect_of guest.old.machine ≡ Effect.Call }
    requires after { job.now.position ≤ calls.old }
    requires bound { calls.old < 2 ^ 63 }
    requires fits { FitsAt (script_of_job job.now) (Running (spot guest.old.machine calls.old)) }
    requires frames { HasAllFrames guest.old.frames
        (written_at (script_of_job job.now) (spot guest.old.machine calls.old)) }
    ensures turn { IfOk result
        (λ on. IsTurn (script_of_job job.now) guest.old calls.old on guest.new calls.new) }
    ensures events { IfOk result (λ on. TakesEvents (T.is_local tool.now)
        (events_left plan.now guest.old.machine on guest.new.machine) local.old local.new) }
    ensures steady { T.GROWS ≡ false → IsOk result }
{
    let operands = operands_at(guest);
    match entry_at(job, *calls) {
        None => Ok(false),
        Some(entry) => {
            play(guest, entry);
            *calls += 1;
            match after_call(plan, tool, operands, guest, local) {
                Ok(()) => Ok(true),
                Err(e) => Err(e),
            }
        }
    }
}

/// Makes one step of the play, and gives its events to the tool. False where it ended the play.
#[inline(always)]
pub(crate) fn play_turn<T: Tool>(
    plan: &Plan,
    tool: &T,
    job: &Job,
    guest: &mut Guest,
    calls: &mut u64,
    local: &mut T::Local,
) -> Result<bool, AllocError>
    requires after { job.now.position ≤ calls.old }
    requires bound { calls.old < 2 ^ 63 }
    requires fits { FitsAt (script_of_job job.now) (Running (spot guest.old.machine calls.old)) }
    requires frames { HasAllFrames guest.old.frames
        (written_at (script_of_job job.now) (spot guest.old.machine calls.old)) }
    ensures turn { IfOk result
        (λ on. IsTurn (script_of_job job.now) guest.old calls.old on guest.new calls.new) }
    ensures events { IfOk result (λ on. TakesEvents (T.is_local tool.now)
        (trace_events plan.now
        (played_item (script_of_job job.now) (spot guest.old.machine calls.old)))
        local.old local.new) }
    ensures few { length (trace_events plan.now
        (played_item (script_of_job job.now) (spot guest.old.machine calls.old))) ≤ 24 }
    ensures steady { T.GROWS ≡ false → IsOk result }
{
    match tool_step_in::<T, Record>(plan, tool, guest, local) {
        Ok(Stepped::Next) => Ok(true),
        Ok(Stepped::Call) => play_call(plan, tool, job, guest, calls, local),
        Ok(Stepped::Fault(_)) => Ok(false),
        Err(e) => Err(e),
    }
}
