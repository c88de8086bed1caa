// The engine of a live run.
ghost use Rattle.std.specs.Prelude.{◌≡◌, ◌<◌, ◌≤◌, ◌^◌, ℕ, IfErr};
ghost use Rattle.sp_host.specs.Faults.{CausedIn};
ghost use Rattle.guest_mem.specs.Frames.{free_frames};
ghost use Rattle.insert_points.specs.Plan.{called_at};
ghost use Rattle.syscall_layer.specs.Step.{IsOfGuest, run_source_of};
ghost use Rattle.tool_law.specs.Events.{trace_events};
ghost use Rattle.tool_law.specs.Planning.{called_of};
ghost use Rattle.sliced_run.specs.Sliced.{shows};
ghost use Rattle.superpin_top.specs.Engine.{EngineTells, frames_by};

use ins_views::Views;
use insert_points::Plan;
use live_run::{LiveRing, LiveRun, run_live};
use ordered_merge::Finished;
use rv_machine::Guest;
use sp_host::{Gate, Host, Pacer};
use sp_words::By;
use std::alloc::Global;
use std::sync::Wait;
use std::thread::Threads;
use superpin_top::How;
use syscall_layer::RunFault;
use tool_law::Tool;

/// The run of a guest with this tool, whose slices are run by so many workers, 1 to 16, beside the thread that runs the guest.
pub(crate) fn run_guest<
    T: Tool,
    H: Host + Send,
    P: Pacer + Send,
    G: Gate + Sync,
    R: Threads + Wait + Sync,
>(
    rt: &R,
    alloc: Global,
    plan: &Plan,
    views: &Views,
    guest: Guest,
    how: How,
    workers: u32,
    tool: &T,
    host: &mut H,
    pacer: &mut P,
    gate: &G,
) -> Result<Finished<T>, RunFault>
    requires plan { (a : ℕ) → a < 2 ^ 32
        → called_at plan.now a ≡ called_of (T.calls_of tool.now) views.now a }
    requires frames { guest.frames ≡ free_frames (frames_by how.by how.limits.frames) }
    requires by { how.by ≡ By.Windows }
    requires workers { (1 ≤ workers) × (workers ≤ 16) }
    ensures told { EngineTells
        (λ items s. T.is_value tool.now (trace_events (T.calls_of tool.now) views.now items) s)
        T.GROWS guest.machine how (H.told host.old)
        (shows (P.period_shown pacer.old) (P.tally pacer.old) (P.answers pacer.old)) result (H.told host.new)
        (shows (P.period_shown pacer.new) (P.tally pacer.new) (P.answers pacer.new)) }
    ensures faults { CausedIn run_source_of (H.faults host.old) (H.faults host.new) result }
    ensures port { IfErr result IsOfGuest }
{
    pacer.period(how.msec);
    let topic = LiveRun::of(tool, plan, &guest, host);
    match LiveRing::create(alloc, how.limits.limit, workers + 1, &topic) {
        Ok((ring, lead, seats)) => {
            let mut lead = lead;
            run_live(
                rt,
                alloc,
                plan,
                views,
                guest,
                &how.limits,
                &ring,
                &mut lead,
                seats,
                tool,
                host,
                pacer,
                gate,
            )
        }
        Err(_) => Err(RunFault::NoMemory),
    }
}
