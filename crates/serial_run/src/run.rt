// A guest's serial run over a host, with a tool.
ghost use Rattle.std.specs.Prelude.{◌≡◌, ◌≤◌, ◌<◌, ◌^◌, [], ℕ, IfErr, IfOk};
ghost use Rattle.sp_host.specs.Faults.{CausedIn};
ghost use Rattle.sp_host.specs.Told.{Told};
ghost use Rattle.guest_model.specs.Call.{World};
ghost use Rattle.insert_points.specs.Plan.{called_at};
ghost use Rattle.syscall_layer.specs.Serve.{told_after};
ghost use Rattle.syscall_layer.specs.Step.{IsOfGuest, run_source_of};
ghost use Rattle.tool_law.specs.Events.{trace_events};
ghost use Rattle.ordered_merge.specs.Merged.{line_of};
ghost use Rattle.tool_law.specs.Planning.{called_of};
ghost use Rattle.serial_run.specs.Run.{RunGives, StepsGive};
ghost use Rattle.serial_run.specs.Start.{start_of};

use crate::step::{Turn, step};
use guest_model::platform::MOST_PAGES;
use ins_views::Views;
use insert_points::Plan;
use ordered_merge::{Finished, Merger};
use rv_machine::{End, Guest};
use sp_host::Host;
use std::alloc::Global;
use syscall_layer::RunFault;
use tool_law::{Hits, Piece, Tool};

/// The most steps of a run.
pub const MOST_BUDGET: u64 = 1_099_511_627_776;

/// How a run ended, how many instructions it tried, and how many of its calls went on.
#[derive(Clone, Copy)]
pub(crate) struct Finish {
    pub(crate) end: End,
    pub(crate) steps: u64,
    pub(crate) calls: u64,
}

// Runs the guest for at most `budget` steps, and gives the events of each step to the tool.
fn run_steps<T: Tool, H: Host>(
    alloc: Global,
    plan: &Plan,
    guest: &mut Guest,
    budget: u64,
    tool: &T,
    local: &mut T::Local,
    host: &mut H,
) -> Result<Finish, RunFault>
    requires frames { MOST_PAGES ≤ guest.old.frames.count }
    requires budget { budget ≤ MOST_BUDGET }
    ensures told { (t : Told) (w : World) → H.told host.old ≡ told_after t w []
        → T.is_local tool.now [] local.old → StepsGive plan.now (T.is_local tool.now) T.GROWS t
        (record { start = start_of guest.old.machine w; budget = budget })
        result local.new (H.told host.new) }
    ensures faults { CausedIn run_source_of (H.faults host.old) (H.faults host.new) result }
    ensures port { IfErr result IsOfGuest }
{
    let mut calls = 0;
    for steps in 0..budget {
        match step(alloc, plan, tool, guest, local, host)? {
            Turn::Next => {}
            Turn::Went => calls += 1,
            Turn::Over(end) => {
                let tried = if guest.peek().is_some() {
                    steps + 1
                } else {
                    steps
                };
                return Ok(Finish {
                    end,
                    steps: tried,
                    calls,
                });
            }
        }
    }
    Err(RunFault::BudgetSpent { n: budget })
}

// The one piece of a run that was not cut.
fn whole_piece<T: Tool>(finish: &Finish, local: T::Local) -> Piece<T>
    ensures index { result.index ≡ 0 }
    ensures local { result.local ≡ local }
    ensures line { line_of result ≡ record {
      steps = finish.now.steps;
      calls = finish.now.calls;
      hits = record { quick = 0; registers = 0; stack = 0; whole = 0 };
    } }
{
    Piece {
        index: 0,
        local,
        steps: finish.steps,
        calls: finish.calls,
        hits: Hits {
            quick: 0,
            registers: 0,
            stack: 0,
            whole: 0,
        },
    }
}

/// Runs the guest for at most `budget` steps, with the tool whose plan this is.
///
/// # Errors
/// `Unsupported` where the run comes to a call without a row, `BudgetSpent` where it goes on after `budget` steps; `InputFault`
/// and `OutputFault` exactly where a call of the host of that kind failed; `NoMemory` where there is no memory for a call, or
/// for the tool.
pub fn run_serial<T: Tool, H: Host>(
    alloc: Global,
    plan: &Plan,
    views: &Views,
    guest: Guest,
    budget: u64,
    tool: &T,
    host: &mut H,
) -> Result<Finished<T>, RunFault>
    requires plan { (a : ℕ) → a < 2 ^ 32
        → called_at plan.now a ≡ called_of (T.calls_of tool.now) views.now a }
    requires frames { MOST_PAGES ≤ guest.frames.count }
    requires budget { budget ≤ MOST_BUDGET }

    // Where the host tells: the value, the end, the bytes sent and what was taken, the one line; the cause of each fault.
    ensures told { (t : Told) (w : World) → H.told host.old ≡ told_after t w [] →
        RunGives (λ items s. T.is_value tool.now
        (trace_events (T.calls_of tool.now) views.now items) s) T.GROWS t
        (record { start = start_of guest.machine w; budget = budget }) result (H.told host.new) }

    // Whatever the host is.
    ensures uncut { IfOk result (λ finished. finished.cuts.items ≡ []) }
    ensures faults { CausedIn run_source_of (H.faults host.old) (H.faults host.new) result }
    ensures port { IfErr result IsOfGuest }
{
    let Ok(mut merger) = Merger::create(alloc, tool, views) else {
        return Err(RunFault::NoMemory);
    };
    let Ok(mut local) = tool.begin(alloc) else {
        return Err(RunFault::NoMemory);
    };
    let mut guest = guest;
    let finish = match run_steps(alloc, plan, &mut guest, budget, tool, &mut local, host) {
        Ok(finish) => finish,
        Err(fault) => return Err(fault),
    };
    tool.end(&mut local);
    let Ok(()) = merger.put(tool, whole_piece(&finish, local)) else {
        return Err(RunFault::NoMemory);
    };
    let (shared, lines) = merger.finish();
    Ok(Finished {
        shared,
        end: finish.end,
        cuts: Vec::new(alloc),
        lines,
    })
}
