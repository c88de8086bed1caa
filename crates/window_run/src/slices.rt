// The slices of a window, run side by side, and their pieces.
ghost use Rattle.std.specs.Prelude.{◌≡◌, ◌≤◌, ◌<◌, ◌^◌, ℕ, List, false, IfOk, OnOk, get_or, length, vec_len};
ghost use Rattle.std.specs.List.{AllZip};
ghost use Rattle.boundary_verify.specs.Job.{JobFields};
ghost use Rattle.ordered_merge.specs.Merged.{AreNumberedFrom};
ghost use Rattle.slice_runner.specs.Piece.{IsPieceOf};
ghost use Rattle.window_run.specs.Jobs.{AreJobs, IsResultOf, MergesJobs};

use boundary_verify::Job;
use insert_points::Plan;
use ordered_merge::Merger;
use sliced_run::run_job;
use std::alloc::{AllocError, Global};
use std::mem;
use std::sync::atomic::{AtomicBool, Ordering};
use std::thread::{Threads, map_vec};
use tool_law::{Piece, Tool};

/// What the slices of a run share.
#[derive(Drop)]
pub(crate) struct Work<'a, T: Tool> {
    pub(crate) alloc: Global,
    pub(crate) plan: &'a Plan,
    pub(crate) tool: &'a T,
}

// The pieces of jobs, place by place.
fn run_each<T: Tool, R: Threads + Sync>(
    rt: &R,
    work: &Work<'_, T>,
    jobs: Vec<Job>,
) -> Result<Vec<Result<Piece<T>, AllocError>>, AllocError>
    ensures len { IfOk result (λ results. length results.items ≡ length jobs.items) }
    ensures each { IfOk result (λ results. (i : ℕ) (job : _) (r : _) → i < length jobs.items
        → IfOk (get_or results.items i r)
        (IsPieceOf (T.is_local work.now.tool.now) work.now.plan.now (get_or jobs.items i job))) }
{
    map_vec(
        rt,
        jobs,
        &|job: Job| -> Result<Piece<T>, AllocError>
            ensures { IfOk result
                (IsPieceOf (T.is_local work.entry.now.tool.now) work.entry.now.plan.now job) }
        { run_job(work.alloc, work.plan, work.tool, job) },
    )
}

/// The pieces of jobs, each run in a thread of its own where one can be made.
pub(crate) fn run_jobs<T: Tool, R: Threads + Sync>(
    rt: &R,
    work: &Work<'_, T>,
    jobs: Vec<Job>,
) -> Result<Vec<Result<Piece<T>, AllocError>>, AllocError>
    ensures { IfOk result
        (λ results. AllZip (IsResultOf (T.is_local work.now.tool.now) work.now.plan.now)
        jobs.items results.items) }
{
    run_each(rt, work, jobs)
}

/// Takes these jobs and runs them, and then sets `stop`.
pub(crate) fn run_taken<T: Tool, R: Threads + Sync>(
    rt: &R,
    work: &Work<'_, T>,
    jobs: &mut Vec<Job>,
    stop: &AtomicBool,
) -> Result<Vec<Result<Piece<T>, AllocError>>, AllocError>
    ensures { IfOk result
        (λ results. AllZip (IsResultOf (T.is_local work.now.tool.now) work.now.plan.now)
        jobs.old.items results.items) }
{
    let taken = mem::replace(jobs, Vec::new(work.alloc));
    let results = run_jobs(rt, work, taken);
    stop.store(true, Ordering::Relaxed);
    results
}

/// Puts the pieces of jobs behind those that were put, up to the first that is lacking.
pub(crate) fn put_pieces<T: Tool>(
    plan: &Plan,
    tool: &T,
    merger: &mut Merger<T>,
    results: Vec<Result<Piece<T>, AllocError>>,
) -> Result<(), AllocError>
    requires sound { merger.old.refused ≡ false }
    requires next { AreNumberedFrom (length merger.old.lines.items) results.items }
    ensures merges { OnOk result ((jobs : List JobFields) (f : ℕ) → f ≤ 2 ^ 40
        → AllZip (IsResultOf (T.is_local tool.now) plan.now) jobs results.items
        → MergesJobs (T.is_local tool.now) (T.is_value tool.now) plan.now jobs f
        merger.old.shared merger.old.lines.items merger.new.shared merger.new.lines.items) }
    ensures sound { OnOk result (merger.new.refused ≡ false) }
{
    for result in results {
        let piece = result?;
        merger.put(tool, piece)?;
    }
    Ok(())
}
