// The engines: one instrumented run, or windows of slices beside a run without the tool.
ghost use Rattle.std.specs.Prelude.{◌≡◌, ◌<◌, ◌^◌, ℕ, [], IfErr, IfOk};
ghost use Rattle.sp_host.specs.Faults.{CausedIn};
ghost use Rattle.guest_mem.specs.Frames.{free_frames};
ghost use Rattle.insert_points.specs.Plan.{called_at};
ghost use Rattle.syscall_layer.specs.Step.{IsOfGuest, run_source_of};
ghost use Rattle.tool_law.specs.Events.{trace_events};
ghost use Rattle.tool_law.specs.Planning.{called_of};
ghost use Rattle.sliced_run.specs.Sliced.{shows};
ghost use Rattle.superpin_top.specs.Engine.{EngineTells, frames_by};

use guest_model::platform::MOST_PAGES;
use ins_views::Views;
use insert_points::Plan;
use master_run::Limits;
use ordered_merge::Finished;
use rv_machine::Guest;
use serial_run::run_serial;
use sp_host::{Host, Pacer};
use sp_report::{Cuts, Lines};
use sp_words::By;
use std::alloc::Global;
use std::thread::Threads;
use syscall_layer::RunFault;
use tool_law::Tool;
use window_run::run_windows;

/// How a run is made, and what is reported of it.
#[derive(Clone, Copy)]
pub struct How {
    pub by: By,
    pub limits: Limits,
    /// The period of the pacer, in milliseconds.
    pub msec: u32,
    /// Whether the lines of the slices are reported.
    pub slices: bool,
}

/// A command that was done: its status, and the cuts and the lines of its run.
#[derive(Drop)]
pub struct Done {
    pub status: u8,
    pub cuts: Cuts,
    pub lines: Lines,
}

/// How many frames the guest of a run gets.
pub(crate) fn frames_of(how: &How) -> u32
    ensures { result ≡ frames_by how.now.by how.now.limits.frames }
{
    match how.by {
        By::Serial => MOST_PAGES,
        By::Windows => how.limits.frames,
    }
}

/// The run of a guest with this tool.
pub(crate) fn run_guest<T: Tool, H: Host + Send, P: Pacer + Send, R: Threads + Sync>(
    rt: &R,
    alloc: Global,
    plan: &Plan,
    views: &Views,
    guest: Guest,
    how: How,
    tool: &T,
    host: &mut H,
    pacer: &mut P,
) -> Result<Finished<T>, RunFault>
    requires plan { (a : ℕ) → a < 2 ^ 32
        → called_at plan.now a ≡ called_of (T.calls_of tool.now) views.now a }
    requires frames { guest.frames ≡ free_frames (frames_by how.by how.limits.frames) }
    ensures told { EngineTells
        (λ items s. T.is_value tool.now (trace_events (T.calls_of tool.now) views.now items) s)
        T.GROWS guest.machine how (H.told host.old)
        (shows (P.period_shown pacer.old) (P.tally pacer.old) (P.answers pacer.old)) result (H.told host.new)
        (shows (P.period_shown pacer.new) (P.tally pacer.new) (P.answers pacer.new)) }
    ensures serial { how.by ≡ By.Serial → pacer.new ≡ pacer.old }
    ensures uncut { how.by ≡ By.Serial → IfOk result (λ finished. finished.cuts.items ≡ []) }
    ensures faults { CausedIn run_source_of (H.faults host.old) (H.faults host.new) result }
    ensures port { IfErr result IsOfGuest }
{
    match how.by {
        By::Serial => run_serial(alloc, plan, views, guest, how.limits.budget, tool, host),
        By::Windows => {
            pacer.period(how.msec);
            run_windows(
                rt,
                alloc,
                plan,
                views,
                guest,
                &how.limits,
                tool,
                host,
                pacer,
            )
        }
    }
}
