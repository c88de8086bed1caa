// A guest's step with a tool.
ghost use Rattle.std.specs.Prelude.{◌≡◌, ◌≤◌, ◌++◌, Option, None, IfOk, IsOk, OnOk, false, length};
ghost use Rattle.guest_model.specs.Effect.{effect_of, stored_by};
ghost use Rattle.guest_model.specs.Machine.{Machine};
ghost use Rattle.guest_mem.specs.Frames.{HasAllFrames};
ghost use Rattle.insert_points.specs.Plan.{called_at};
ghost use Rattle.rv_machine.specs.Step.{Gives};
ghost use Rattle.tool_step.specs.Steps.{AreCalls, TakesEvents, completion_of, events_behind, operands_of_machine, step_events};

use crate::give::{give_early, give_late, gives_plain, is_nothing};
use insert_points::{CallsAt, Operands, Plan};
use rv_machine::{Guest, Stepped};
use std::alloc::AllocError;
use tool_law::Tool;

/// What the arguments of the next step's events are read from. None where no instruction stands at pc.
#[inline(always)]
pub fn operands_at(guest: &Guest) -> Option<Operands>
    ensures { result ≡ operands_of_machine guest.now.machine }
{
    let instr = guest.peek()?;
    Some(Operands {
        pc: guest.pc(),
        instr,
        a: guest.reg(instr.rs1),
        b: guest.reg(instr.rs2),
    })
}

/// Tries the instruction at pc, and gives the step's events to the tool: those before the instruction before it is tried, and
/// those behind it once it completed. Behind a call, once it is done, they are given by `after_call`.
#[inline(never)]
pub fn tool_step<T: Tool>(
    plan: &Plan,
    tool: &T,
    guest: &mut Guest,
    local: &mut T::Local,
) -> Result<Stepped, AllocError>
    requires { HasAllFrames guest.old.frames (stored_by (effect_of guest.old.machine)) }
    ensures step { IfOk result
        (λ stepped. Gives (effect_of guest.old.machine) stepped guest.old guest.new) }
    ensures events { IfOk result (λ stepped. TakesEvents (T.is_local tool.now)
        (step_events plan.now guest.old.machine (completion_of stepped guest.new.machine))
        local.old local.new) }
    ensures few { (completion : Option Machine)
        → length (step_events plan.now guest.old.machine completion) ≤ 24 }
    ensures steady { T.GROWS ≡ false → IsOk result }
{
    let called = plan.at(guest.pc());
    if is_nothing(&called) {
        return Ok(guest.step());
    }
    match operands_at(guest) {
        None => Ok(guest.step()),
        Some(operands) => called_step(plan, tool, &called, &operands, guest, local),
    }
}

/// The same as `tool_step`, put into the place that calls it, which should be the only one with this `W` (`Guest::step_by`): where
/// the memory keeps the instruction decoded and nothing is called behind it, all is done there.
#[inline(always)]
pub fn tool_step_in<T: Tool, W>(
    plan: &Plan,
    tool: &T,
    guest: &mut Guest,
    local: &mut T::Local,
) -> Result<Stepped, AllocError>
    requires { HasAllFrames guest.old.frames (stored_by (effect_of guest.old.machine)) }
    ensures step { IfOk result
        (λ stepped. Gives (effect_of guest.old.machine) stepped guest.old guest.new) }
    ensures events { IfOk result (λ stepped. TakesEvents (T.is_local tool.now)
        (step_events plan.now guest.old.machine (completion_of stepped guest.new.machine))
        local.old local.new) }
    ensures few { (completion : Option Machine)
        → length (step_events plan.now guest.old.machine completion) ≤ 24 }
    ensures steady { T.GROWS ≡ false → IsOk result }
{
    match guest.kept() {
        None => tool_step(plan, tool, guest, local),
        Some(i) => {
            if !gives_plain::<T, W>(plan, tool, &i, guest, local)? {
                return tool_step(plan, tool, guest, local);
            }
            Ok(guest.step_by::<(T, W)>(&i))
        }
    }
}

// A step at which these calls of the plan are made.
#[inline(always)]
fn called_step<T: Tool>(
    _plan: &Plan,
    tool: &T,
    called: &CallsAt<'_>,
    operands: &Operands,
    guest: &mut Guest,
    local: &mut T::Local,
) -> Result<Stepped, AllocError>
    requires frames { HasAllFrames guest.old.frames (stored_by (effect_of guest.old.machine)) }
    requires operands { operands_of_machine guest.old.machine ≡ Some operands.now }
    requires calls { AreCalls called.now (called_at _plan.now operands.now.pc) }
    ensures step { IfOk result
        (λ stepped. Gives (effect_of guest.old.machine) stepped guest.old guest.new) }
    ensures events { IfOk result (λ stepped. TakesEvents (T.is_local tool.now)
        (step_events _plan.now guest.old.machine (completion_of stepped guest.new.machine))
        local.old local.new) }
    ensures steady { T.GROWS ≡ false → IsOk result }
{
    give_early(tool, called, operands, guest, local)?;
    match guest.step() {
        Stepped::Next => {
            give_late(tool, called, operands, guest, local)?;
            Ok(Stepped::Next)
        }
        Stepped::Call => Ok(Stepped::Call),
        Stepped::Fault(kind) => Ok(Stepped::Fault(kind)),
    }
}

/// Gives the events behind a call that went on: `operands` are what `operands_at` gave before it.
pub fn after_call<T: Tool>(
    plan: &Plan,
    tool: &T,
    operands: Option<Operands>,
    guest: &Guest,
    local: &mut T::Local,
) -> Result<(), AllocError>
    ensures events { OnOk result (TakesEvents (T.is_local tool.now)
        (events_behind plan.now operands guest.now.machine) local.old local.new) }
    ensures steady { T.GROWS ≡ false → IsOk result }
{
    match operands {
        None => Ok(()),
        Some(operands) => give_late(tool, &plan.at(operands.pc), &operands, guest, local),
    }
}
