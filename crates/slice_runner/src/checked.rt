// Jobs made from their parts: the play is tried, without a tool, up to the end of the job.
ghost use Rattle.std.specs.Prelude.{◌≡◌, ◌≤◌, ◌<◌, ◌+◌, ◌^◌, IsTrue, ◌↔◌, true, option_copied};
ghost use Rattle.guest_model.specs.Effect.{Effect, effect_of};
ghost use Rattle.guest_model.specs.Play.{entry_for, spot};
ghost use Rattle.guest_mem.specs.Memory.{all_bytes};
ghost use Rattle.boundary_verify.specs.Job.{IsNear, TakesAll, path_of, script_of_job};
ghost use Rattle.boundary_verify.specs.Path.{Meets};
ghost use Rattle.slice_runner.specs.Checked.{EndsJob, HasRoomForStep, JobGives, PlayGives, TryGives, fields_of};
ghost use Rattle.slice_runner.specs.declared.checked.JobFault.TheVariants.{NoMemory};

use crate::slice::know_frames;
use crate::turn::record_for;
use boundary_verify::{Boundary, Job};
use call_playback::{fits, play};
use call_record::Record;
use guest_model::platform::MOST_PAGES;
use rv_machine::{Guest, Snapshot, Stepped};
use std::alloc::{AllocError, Global};
use thiserror::Error;

/// Why parts make no job.
#[derive(Clone, Copy, Debug, PartialEq, Eq, Error)]
pub enum JobFault {
    /// The record with this place in the list, from 0, does not fit its call.
    #[error("record {index} does not fit its call")]
    BadRecord { index: u64 },
    /// So many pages are written, which are more than the peak.
    #[error("{pages} pages are written")]
    Peak { pages: u32 },
    /// After so many steps the play ended before the job's end, or no more were to be made.
    #[error("the end is not reached within {steps} steps")]
    NotReached { steps: u64 },
    #[error("no memory")]
    NoMemory,
}

// What a job is made of, before its play was tried.
#[derive(Drop)]
struct Draft {
    index: u64,
    start: Snapshot,
    position: u64,
    records: Vec<Record>,
    end: Boundary,
    peak: u32,
}

// The call at which the guest stands, played by its record, if that fits. False where none is left.
fn try_call(draft: &Draft, guest: &mut Guest, calls: &mut u64) -> Result<bool, JobFault>
    requires call { effect_of guest.old.machine ≡ Effect.Call }
    requires after { draft.now.position ≤ calls.old }
    requires bound { calls.old < 2 ^ 63 }
    requires frames { HasRoomForStep guest.old.frames }
    ensures { TryGives (script_of_job (fields_of draft.now)) guest.old calls.old guest.new calls.new result }
{
    match record_for(&draft.records, draft.position, *calls) {
        None => Ok(false),
        Some(entry) => {
            if !fits(guest, entry) {
                return Err(JobFault::BadRecord {
                    index: *calls - draft.position,
                });
            }
            play(guest, entry);
            *calls += 1;
            Ok(true)
        }
    }
}

// One step of the play. False where it ended the play.
fn try_turn(draft: &Draft, guest: &mut Guest, calls: &mut u64) -> Result<bool, JobFault>
    requires after { draft.now.position ≤ calls.old }
    requires bound { calls.old < 2 ^ 63 }
    requires frames { HasRoomForStep guest.old.frames }
    ensures { TryGives (script_of_job (fields_of draft.now)) guest.old calls.old guest.new calls.new result }
{
    match guest.step() {
        Stepped::Next => Ok(true),
        Stepped::Call => try_call(draft, guest, calls),
        Stepped::Fault(_) => Ok(false),
    }
}

// Whether the play is at the end of the job, where it goes on, or where it ended.
fn is_end(draft: &Draft, guest: &Guest, calls: u64, on: bool) -> bool
    requires made { guest.now.origin ≡ all_bytes draft.now.start.machine.space }
    requires near { IsNear draft.now.start draft.now.end }
    requires after { draft.now.position ≤ calls }
    ensures { IsTrue result ↔ EndsJob (fields_of draft.now) (spot guest.now.machine calls) on }
{
    if on {
        draft.end.is_at(&draft.start, guest, calls)
    } else {
        match draft.end {
            Boundary::At { .. } => false,
            Boundary::End => calls - draft.position == draft.records.len() as u64,
        }
    }
}

// Tries the play of a job for so many steps.
fn try_play(alloc: Global, draft: &Draft, within: u64) -> Result<(), JobFault>
    requires position { draft.now.position ≤ 2 ^ 40 }
    requires within { within ≤ 2 ^ 40 }
    requires near { IsNear draft.now.start draft.now.end }
    ensures { PlayGives (path_of (fields_of draft.now)) draft.now.peak within result }
{
    // one step writes 31 more pages at most
    let frames = draft.peak.min(MOST_PAGES) + 31;
    let Ok(mut guest) = Guest::from_snapshot(alloc, &draft.start, frames) else {
        return Err(JobFault::NoMemory);
    };
    let mut calls = draft.position;
    for steps in 0..within {
        know_frames(&guest);
        let on = match try_turn(draft, &mut guest, &mut calls) {
            Ok(on) => on,
            Err(fault) => return Err(fault),
        };
        let pages = guest.space().written();
        if pages > draft.peak {
            return Err(JobFault::Peak { pages });
        }
        if is_end(draft, &guest, calls, on) {
            return Ok(());
        }
        if !on {
            return Err(JobFault::NotReached { steps: steps + 1 });
        }
    }
    Err(JobFault::NotReached { steps: within })
}

/// Makes a job from its parts: its play is tried up to the end of the job, at most so many steps. With `End` the last step
/// is one that ends the play when it has taken each record.
///
/// # Errors
/// The first of these that the play meets. `BadRecord` where a record does not fit its call, with its place in the list.
/// `Peak` where more than `peak` pages are written after a step, with their number, also where that step reached the end.
/// `NotReached` where the play ended and not at the end of the job, or made so many steps. `NoMemory` where there is no
/// memory for the guest.
pub fn checked_job(
    alloc: Global,
    index: u64,
    start: Snapshot,
    position: u64,
    records: Vec<Record>,
    end: Boundary,
    peak: u32,
    within: u64,
) -> Result<Job, JobFault>
    requires position { position ≤ 2 ^ 40 }
    requires within { within ≤ 2 ^ 40 }
    requires near { IsNear start end }
    ensures { JobGives (record {
      index = index;
      start = start;
      position = position;
      records = records.items;
      end = end;
      peak = peak;
    }) within result }
{
    let draft = Draft {
        index,
        start,
        position,
        records,
        end,
        peak,
    };
    try_play(alloc, &draft, within)?;
    let Draft {
        index,
        start,
        position,
        records,
        end,
        peak,
    } = draft;
    Ok(Job {
        index,
        start,
        position,
        records,
        end,
        peak,
    })
}
