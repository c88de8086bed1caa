// A guest's run over a host, with a tool, by windows.
ghost use Rattle.std.specs.Prelude.{◌≡◌, ◌≤◌, ◌<◌, ◌^◌, ℕ, List, [], Some, false, IfErr, IfOk, OnOk, length};
ghost use Rattle.sp_host.specs.Faults.{CausedIn};
ghost use Rattle.sp_host.specs.Told.{Told};
ghost use Rattle.guest_model.specs.Call.{World};
ghost use Rattle.guest_mem.specs.Frames.{free_frames};
ghost use Rattle.insert_points.specs.Plan.{called_at};
ghost use Rattle.syscall_layer.specs.Serve.{told_after};
ghost use Rattle.syscall_layer.specs.Step.{IsOfGuest, run_source_of};
ghost use Rattle.tool_law.specs.Events.{trace_events};
ghost use Rattle.tool_law.specs.Planning.{called_of};
ghost use Rattle.serial_run.specs.Start.{start_of};
ghost use Rattle.window_run.specs.Jobs.{AreJobs, MergesJobs, and_one};
ghost use Rattle.sliced_run.specs.Sliced.{SlicedGives, shows};

use crate::beside::next_window;
use crate::slices::{Work, put_pieces, run_jobs};
use crate::window::{Window, fill};
use boundary_verify::Job;
use ins_views::Views;
use insert_points::Plan;
use master_run::{Limits, Master};
use ordered_merge::{Finished, Merger};
use rv_machine::{End, Guest};
use sp_host::{Host, Pacer};
use std::alloc::{AllocError, Global};
use std::sync::atomic::AtomicBool;
use std::thread::Threads;
use syscall_layer::RunFault;
use tool_law::Tool;

/// The most jobs of the first window, which nothing runs beside.
const FIRST_WINDOW: u32 = 4;

// Runs the jobs of the last window, merges their pieces behind the others, and says what the run gives.
fn last_window<T: Tool, R: Threads + Sync>(
    rt: &R,
    work: &Work<'_, T>,
    merger: Merger<T>,
    cuts: &[u64],
    jobs: Vec<Job>,
    end: End,
) -> Result<Finished<T>, AllocError>
    requires jobs { (e : ℕ) × (f : ℕ) × AreJobs (length merger.lines.items) e jobs.items f }
    requires sound { merger.refused ≡ false }
    ensures end { IfOk result (λ finished. finished.end ≡ end) }
    ensures cuts { IfOk result (λ finished. finished.cuts.items ≡ cuts.now) }
    ensures merges { IfOk result (λ finished. (f : ℕ) → f ≤ 2 ^ 40
        → MergesJobs (T.is_local work.now.tool.now) (T.is_value work.now.tool.now) work.now.plan.now
        jobs.items f merger.shared merger.lines.items finished.shared finished.lines.items) }
{
    let mut merger = merger;
    let cuts = Vec::from_slice(work.alloc, cuts)?;
    let results = run_jobs(rt, work, jobs)?;
    put_pieces(work.plan, work.tool, &mut merger, results)?;
    let (shared, lines) = merger.finish();
    Ok(Finished {
        shared,
        end,
        cuts,
        lines,
    })
}

// The range of a guest's pc.
fn know_pc(guest: &Guest)
    ensures { guest.now.machine.pc < 2 ^ 32 }
{
    let _pc = guest.pc();
}

/// Runs the guest for at most `limits.budget` steps, with the tool whose plan this is. A master runs without the tool, and its
/// run is cut into jobs; each job is run again with the tool, as a slice, side by side with the others of its window and with
/// the master, which makes the jobs of the next window. A window is of 1 to `limits.limit` jobs.
///
/// # Errors
/// `Unsupported` where the run comes to a call without a row, `BudgetSpent` where it goes on after `limits.budget` steps;
/// `InputFault` and `OutputFault` exactly where a call of the host of that kind failed; `NoMemory` where memory is lacking.
pub fn run_windows<T: Tool, H: Host + Send, P: Pacer + Send, R: Threads + Sync>(
    rt: &R,
    alloc: Global,
    plan: &Plan,
    views: &Views,
    guest: Guest,
    limits: &Limits,
    tool: &T,
    host: &mut H,
    pacer: &mut P,
) -> Result<Finished<T>, RunFault>
    requires plan { (a : ℕ) → a < 2 ^ 32
        → called_at plan.now a ≡ called_of (T.calls_of tool.now) views.now a }
    requires frames { guest.frames ≡ free_frames limits.now.frames }

    // Where the host tells: the value, the end, the bytes sent and what was taken, the cuts and the lines; the cause of each fault.
    ensures told { (t : Told) (w : World) → H.told host.old ≡ told_after t w [] →
        SlicedGives (λ items s. T.is_value tool.now
        (trace_events (T.calls_of tool.now) views.now items) s) t limits.now
        (record { start = start_of guest.machine w; budget = limits.now.budget })
        (shows (P.period_shown pacer.old) (P.tally pacer.old) (P.answers pacer.old))
        result (H.told host.new)
        (shows (P.period_shown pacer.new) (P.tally pacer.new) (P.answers pacer.new)) }

    // Whatever the host is.
    ensures faults { CausedIn run_source_of (H.faults host.old) (H.faults host.new) result }
    ensures port { IfErr result IsOfGuest }
    ensures period { P.period_shown pacer.new ≡ P.period_shown pacer.old }
{
    know_pc(&guest);
    let Ok(mut merger) = Merger::create(alloc, tool, views) else {
        return Err(RunFault::NoMemory);
    };
    let Ok(mut master) = Master::launch(alloc, guest, limits) else {
        return Err(RunFault::NoMemory);
    };
    let work = Work { alloc, plan, tool };
    let stop = AtomicBool::new(false);
    let few = limits.limit.min(FIRST_WINDOW);
    let mut window = match fill(alloc, few, &stop, &mut master, host, pacer) {
        Ok(window) => window,
        Err(fault) => return Err(fault),
    };
    loop {
        let Window { jobs, end } = window;
        let Some(end) = end else {
            window = match next_window(
                rt,
                &work,
                limits.limit,
                &mut master,
                &mut merger,
                host,
                pacer,
                jobs,
            ) {
                Ok(window) => window,
                Err(fault) => return Err(fault),
            };
            continue;
        };
        let cuts = master.cuts();
        let Ok(finished) = last_window(rt, &work, merger, cuts, jobs, end) else {
            return Err(RunFault::NoMemory);
        };
        return Ok(finished);
    }
}
