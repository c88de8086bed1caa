// The master's work beside the slices of the window before.
ghost use Rattle.std.specs.Prelude.{◌≡◌, ◌≤◌, ◌^◌, ℕ, false, IfErr, IfOk, OnOk, length};
ghost use Rattle.std.specs.List.{AllZip};
ghost use Rattle.sp_host.specs.Faults.{CausedIn};
ghost use Rattle.syscall_layer.specs.Step.{IsOfGuest, run_source_of};
ghost use Rattle.master_run.specs.Master.{Ready};
ghost use Rattle.sliced_run.specs.Sliced.{shows};
ghost use Rattle.window_run.specs.Jobs.{AreJobs, FillTells, HandsJobs, IsResultOf, MergesJobs};

use crate::slices::{Work, put_pieces, run_taken};
use crate::window::{Window, fill};
use boundary_verify::Job;
use master_run::Master;
use ordered_merge::Merger;
use sp_host::{Host, Pacer};
use std::alloc::AllocError;
use std::sync::atomic::AtomicBool;
use std::thread::{Threads, join_mut};
use syscall_layer::RunFault;
use tool_law::{Piece, Tool};

// Runs jobs while the master makes those of the next window.
fn fill_beside<T: Tool, H: Host + Send, P: Pacer + Send, R: Threads + Sync>(
    rt: &R,
    work: &Work<'_, T>,
    most: u32,
    master: &mut Master,
    host: &mut H,
    pacer: &mut P,
    mut jobs: Vec<Job>,
) -> (
    Result<Window, RunFault>,
    Result<Vec<Result<Piece<T>, AllocError>>, AllocError>,
)
    requires ready { master.old.standing ≡ Ready }
    requires some { 1 ≤ most }
    requires within { master.old.position ≤ master.old.limits.budget }
    ensures results { IfOk result.1
        (λ results. AllZip (IsResultOf (T.is_local work.now.tool.now) work.now.plan.now)
        jobs.items results.items) }
    ensures hands { IfOk result.0
        (λ window. HandsJobs master.old window.jobs.items window.end master.new) }
    ensures some { IfOk result.0 (λ window. 1 ≤ length window.jobs.items) }
    ensures few { IfOk result.0 (λ window. length window.jobs.items ≤ most) }
    ensures faults { CausedIn run_source_of (H.faults host.old) (H.faults host.new) result.0 }
    ensures port { IfErr result.0 IsOfGuest }
    ensures period { P.period_shown pacer.new ≡ P.period_shown pacer.old }
    ensures told { FillTells master.old (H.told host.old)
        (shows (P.period_shown pacer.old) (P.tally pacer.old) (P.answers pacer.old))
        result.0 master.new (H.told host.new)
        (shows (P.period_shown pacer.new) (P.tally pacer.new) (P.answers pacer.new)) }
{
    let stop = AtomicBool::new(false);
    join_mut(
        rt,
        &mut || fill(work.alloc, most, &stop, master, host, pacer),
        &mut || -> Result<Vec<Result<Piece<T>, AllocError>>, AllocError>
            ensures { IfOk result (λ results.
                AllZip (IsResultOf (T.is_local work.entry.now.tool.now) work.entry.now.plan.now)
                jobs.entry.items results.items) }
        { run_taken(rt, work, &mut jobs, &stop) },
    )
}

/// Runs the jobs of a window, and merges their pieces behind the others, while the master makes the jobs of the next window.
pub(crate) fn next_window<T: Tool, H: Host + Send, P: Pacer + Send, R: Threads + Sync>(
    rt: &R,
    work: &Work<'_, T>,
    most: u32,
    master: &mut Master,
    merger: &mut Merger<T>,
    host: &mut H,
    pacer: &mut P,
    jobs: Vec<Job>,
) -> Result<Window, RunFault>
    requires ready { master.old.standing ≡ Ready }
    requires some { 1 ≤ most }
    requires within { master.old.position ≤ master.old.limits.budget }
    requires few { master.old.limits.budget ≤ 2 ^ 40 }
    requires jobs { (e : ℕ) × AreJobs (length merger.old.lines.items) e jobs.items master.old.position }
    requires sound { merger.old.refused ≡ false }
    ensures merges { OnOk result (MergesJobs (T.is_local work.now.tool.now)
        (T.is_value work.now.tool.now) work.now.plan.now jobs.items master.old.position merger.old.shared merger.old.lines.items
        merger.new.shared merger.new.lines.items) }
    ensures sound { OnOk result (merger.new.refused ≡ false) }
    ensures hands { IfOk result
        (λ window. HandsJobs master.old window.jobs.items window.end master.new) }
    ensures some { IfOk result (λ window. 1 ≤ length window.jobs.items) }
    ensures few { IfOk result (λ window. length window.jobs.items ≤ most) }
    ensures faults { CausedIn run_source_of (H.faults host.old) (H.faults host.new) result }
    ensures port { IfErr result IsOfGuest }
    ensures period { P.period_shown pacer.new ≡ P.period_shown pacer.old }
    ensures told { FillTells master.old (H.told host.old)
        (shows (P.period_shown pacer.old) (P.tally pacer.old) (P.answers pacer.old))
        result master.new (H.told host.new)
        (shows (P.period_shown pacer.new) (P.tally pacer.new) (P.answers pacer.new)) }
{
    let (filled, results) = fill_beside(rt, work, most, master, host, pacer, jobs);
    let window = match filled {
        Ok(window) => window,
        Err(fault) => return Err(fault),
    };
    let Ok(results) = results else {
        return Err(RunFault::NoMemory);
    };
    let Ok(()) = put_pieces(work.plan, work.tool, merger, results) else {
        return Err(RunFault::NoMemory);
    };
    Ok(window)
}
