// A slice: a job, the guest that repeats it, and the local of a tool that hears it.
ghost use Rattle.std.specs.Prelude.{◌≡◌, ◌≤◌, ◌<◌, ◌+◌, ◌^◌, [], false, if◌then◌else◌, is_some, IfOk, IsOk};
ghost use Rattle.guest_model.specs.Machine.{instruction_at};
ghost use Rattle.rv_machine.specs.Snapshot.{guest_from};
ghost use Rattle.slice_runner.specs.Piece.{IsPieceOf, IsPieceWith};
ghost use Rattle.slice_runner.specs.Turn.{KnowsFrames};

use crate::hits::{is_at_end, signature_of_end};
use crate::turn::play_turn;
use boundary_verify::Job;
use insert_points::Plan;
use rv_machine::Guest;
use std::alloc::{AllocError, Global};
use tool_law::{Hits, Piece, Tool};

/// The most steps of a job.
pub const MOST_STEPS: u64 = 1_099_511_627_776;

/// A slice that is ready to run: a job, a guest at its start, and a local that took no event.
#[derive(Drop)]
pub struct Slice<T: Tool> {
    pub job: Job,
    pub guest: Guest,
    pub local: T::Local,
}

/// Makes a slice of a job. It takes all the memory that a tool which does not grow will need.
pub fn open_slice<T: Tool>(
    alloc: Global,
    _plan: &Plan,
    job: Job,
    tool: &T,
) -> Result<Slice<T>, AllocError>
    ensures job { IfOk result (λ slice. slice.job ≡ job) }
    ensures guest { IfOk result (λ slice. slice.guest ≡ guest_from job.start job.peak) }
    ensures local { IfOk result (λ slice. T.is_local tool.now [] slice.local) }
{
    let guest = Guest::from_snapshot(alloc, &job.start, job.peak)?;
    let local = tool.begin(alloc)?;
    Ok(Slice { job, guest, local })
}

/// What is so of the frames and the areas of every guest.
#[inline(always)]
pub(crate) fn know_frames(guest: &Guest)
    ensures { KnowsFrames guest.now }
{
    let _written = guest.space().written();
    let _areas = guest.space().areas();
}

// How many instructions were tried, with the one at which the guest stands, if one stands there.
fn tried(guest: &Guest, before: u64) -> u64
    requires { before < 2 ^ 40 }
    ensures { result ≡ before + (if is_some (instruction_at guest.now.machine) then 1 else 0) }
{
    if guest.peek().is_some() {
        before + 1
    } else {
        before
    }
}

// What the slice gives: so many instructions were tried, and the record position is this.
fn piece_of<T: Tool>(
    tool: &T,
    job: &Job,
    mut local: T::Local,
    steps: u64,
    calls: u64,
    hits: Hits,
) -> Piece<T>
    requires { job.now.position ≤ calls }
    ensures { IsPieceWith (T.is_local tool.now) job.now local steps calls hits result }
{
    tool.end(&mut local);
    Piece {
        index: job.index,
        local,
        steps,
        calls: calls - job.position,
        hits,
    }
}

// Runs a guest that stands at the start of the job, up to the job's match.
fn run_job<T: Tool>(
    plan: &Plan,
    tool: &T,
    job: &Job,
    mut guest: Guest,
    mut local: T::Local,
) -> Result<Piece<T>, AllocError>
    requires guest { guest ≡ guest_from job.now.start job.now.peak }
    requires local { T.is_local tool.now [] local }
    ensures piece { IfOk result (IsPieceOf (T.is_local tool.now) plan.now job.now) }
    ensures steady { T.GROWS ≡ false → IsOk result }
{
    let signature = signature_of_end(job);
    let mut calls = job.position;
    let mut hits = Hits {
        quick: 0,
        registers: 0,
        stack: 0,
        whole: 0,
    };
    for turn in 0..MOST_STEPS {
        know_frames(&guest);
        if !play_turn(plan, tool, job, &mut guest, &mut calls, &mut local)? {
            let steps = tried(&guest, turn);
            return Ok(piece_of(tool, job, local, steps, calls, hits));
        }
        if is_at_end(job, &signature, &guest, calls, &mut hits) {
            return Ok(piece_of(tool, job, local, turn + 1, calls, hits));
        }
    }
    unreachable!()
}

/// Runs a slice up to its match: the first position, behind its first step, at which the whole state and the record position
/// are those of the boundary, or the step that ends the run. `Err` only where a tool that grows lacks memory.
pub fn run_slice<T: Tool>(plan: &Plan, tool: &T, slice: Slice<T>) -> Result<Piece<T>, AllocError>
    requires guest { slice.guest ≡ guest_from slice.job.start slice.job.peak }
    requires local { T.is_local tool.now [] slice.local }
    ensures piece { IfOk result (IsPieceOf (T.is_local tool.now) plan.now slice.job) }
    ensures steady { T.GROWS ≡ false → IsOk result }
{
    let Slice { job, guest, local } = slice;
    run_job(plan, tool, &job, guest, local)
}
