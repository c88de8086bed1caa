// One step of a run with a tool.
ghost use Rattle.std.specs.Prelude.{◌≡◌, ◌≤◌, ◌<◌, ◌^◌, IfErr, IfOk, List, OnOk, Option, length};
ghost use Rattle.sp_host.specs.Faults.{CausedIn};
ghost use Rattle.sp_host.specs.Told.{Told};
ghost use Rattle.guest_model.specs.Call.{Sent};
ghost use Rattle.guest_model.specs.Effect.{Effect, effect_of};
ghost use Rattle.guest_model.specs.Machine.{Machine};
ghost use Rattle.guest_model.specs.Serial.{Position};
ghost use Rattle.syscall_layer.specs.Serve.{told_after};
ghost use Rattle.syscall_layer.specs.Step.{IsOfGuest, run_source_of};
ghost use Rattle.tool_step.specs.Steps.{TakesEvents, step_events};
ghost use Rattle.serial_run.specs.Steps.{StepGives, completion_by, events_left};

use guest_model::platform::MOST_PAGES;
use insert_points::Plan;
use rv_machine::{End, Guest, Stepped};
use sp_host::Host;
use std::alloc::Global;
use syscall_layer::{RunFault, Served, serve_step};
use tool_law::Tool;
use tool_step::{after_call, operands_at, tool_step_in};

/// How a step went.
#[derive(Clone, Copy)]
pub(crate) enum Turn {
    /// The run goes on.
    Next,
    /// It goes on behind a call.
    Went,
    /// It is over.
    Over(End),
}

// The call at which the guest stands, served: the events before it were given. Out of line, so that the step stays short.
#[inline(never)]
fn call<T: Tool, H: Host>(
    alloc: Global,
    plan: &Plan,
    tool: &T,
    guest: &mut Guest,
    local: &mut T::Local,
    host: &mut H,
) -> Result<Turn, RunFault>
    requires call { effect_of guest.old.machine ≡ Effect.Call }
    requires frames { MOST_PAGES ≤ guest.old.frames.count }
    ensures told { (t : Told) (p : Position) (before : List Sent) → p.machine ≡ guest.old.machine →
        H.told host.old ≡ told_after t p.world before →
        StepGives T.GROWS t p before result guest.new.machine (H.told host.new) }
    ensures events { IfOk result (λ turn. TakesEvents (T.is_local tool.now)
        (events_left plan.now guest.old.machine turn guest.new.machine) local.old local.new) }
    ensures faults { CausedIn run_source_of (H.faults host.old) (H.faults host.new) result }
    ensures port { IfErr result IsOfGuest }
    ensures count { OnOk result (guest.new.frames.count ≡ guest.old.frames.count) }
{
    let operands = operands_at(guest);
    match serve_step(alloc, guest, host) {
        Ok(Served::Went(_)) => match after_call(plan, tool, operands, guest, local) {
            Ok(()) => Ok(Turn::Went),
            Err(_) => Err(RunFault::NoMemory),
        },
        Ok(Served::Exit(status)) => Ok(Turn::Over(End::Exit(status))),
        Err(fault) => Err(fault),
    }
}

/// Tries the instruction at pc, gives the step's events to the tool, and serves a call.
#[inline(always)]
pub(crate) fn step<T: Tool, H: Host>(
    alloc: Global,
    plan: &Plan,
    tool: &T,
    guest: &mut Guest,
    local: &mut T::Local,
    host: &mut H,
) -> Result<Turn, RunFault>
    requires frames { MOST_PAGES ≤ guest.old.frames.count }
    ensures told { (t : Told) (p : Position) (before : List Sent) → p.machine ≡ guest.old.machine →
        H.told host.old ≡ told_after t p.world before →
        StepGives T.GROWS t p before result guest.new.machine (H.told host.new) }
    ensures events { IfOk result (λ turn. TakesEvents (T.is_local tool.now)
        (step_events plan.now guest.old.machine (completion_by turn guest.new.machine))
        local.old local.new) }
    ensures few { (completion : Option Machine)
        → length (step_events plan.now guest.old.machine completion) ≤ 24 }
    ensures pc { guest.old.machine.pc < 2 ^ 32 }
    ensures faults { CausedIn run_source_of (H.faults host.old) (H.faults host.new) result }
    ensures port { IfErr result IsOfGuest }
    ensures count { OnOk result (guest.new.frames.count ≡ guest.old.frames.count) }
{
    let pc = guest.pc();
    match tool_step_in::<T, H>(plan, tool, guest, local) {
        Ok(Stepped::Next) => Ok(Turn::Next),
        Ok(Stepped::Call) => call(alloc, plan, tool, guest, local, host),
        Ok(Stepped::Fault(kind)) => Ok(Turn::Over(End::Signal { kind, pc })),
        Err(_) => Err(RunFault::NoMemory),
    }
}
