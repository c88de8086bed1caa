// Gives events to a tool.
ghost use Rattle.std.specs.Prelude.{◌≡◌, ◌==◌, ◌++◌, ◌≤◌, Bool, false, IfOk, IsOk, OnOk, List, [], Option, Some, if◌then◌else◌, length};
ghost use Rattle.std.specs.Bool.{OnFalse, OnTrue};
ghost use Rattle.guest_model.specs.Machine.{Machine, instruction_at};
ghost use Rattle.insert_points.specs.Arguments.{jumps};
ghost use Rattle.insert_points.specs.Plan.{IsSite, found_calls};
ghost use Rattle.insert_points.specs.declared.operands.Operands.{Operands};
ghost use Rattle.tool_step.specs.Steps.{TakesEvents, count_given, events_by, operands_of_machine, step_events};

use insert_points::{CallsAt, Found, Operands, Plan, PlannedCall};
use rv_isa::Instr;
use rv_machine::Guest;
use std::alloc::AllocError;
use tool_law::Tool;

/// Whether nothing is called.
#[inline(always)]
pub(crate) fn is_nothing(called: &CallsAt<'_>) -> bool
    ensures { result ≡ (count_given called.now == 0) }
{
    let heads = called.routine.len() + called.block.len();
    let instruction = called.before.len() + called.after.len() + called.taken.len();
    heads + instruction == 0
}

// Gives the events of these calls, with the registers at their point. `W` names an instance, as that of `Guest::step_by`: what is
// put into one place is named by that place.
#[inline(always)]
fn give<T: Tool, W>(
    tool: &T,
    calls: &[PlannedCall],
    operands: &Operands,
    registers: &[u32; 32],
    local: &mut T::Local,
) -> Result<(), AllocError>
    ensures law { OnOk result (TakesEvents (T.is_local tool.now)
        (events_by operands.now registers.now calls.now) local.old local.new) }
    ensures steady { T.GROWS ≡ false → IsOk result }
{
    if calls.len() == 1 {
        tool.on(local, &calls[0].asked_event(operands, registers))?;
        return Ok(());
    }
    if calls.is_empty() {
        return Ok(());
    }
    give_each(tool, calls, *operands, registers, local)
}

// The same, call by call. Most often there is one at most.
#[inline(never)]
fn give_each<T: Tool>(
    tool: &T,
    calls: &[PlannedCall],
    operands: Operands,
    registers: &[u32; 32],
    local: &mut T::Local,
) -> Result<(), AllocError>
    ensures law { OnOk result (TakesEvents (T.is_local tool.now)
        (events_by operands registers.now calls.now) local.old local.new) }
    ensures steady { T.GROWS ≡ false → IsOk result }
{
    for call in calls {
        tool.on(local, &call.asked_event(&operands, registers))?;
    }
    Ok(())
}

// Gives the events of a block's calls, where the block begins here.
#[inline(always)]
fn give_block<T: Tool>(
    tool: &T,
    calls: &[PlannedCall],
    operands: &Operands,
    guest: &Guest,
    local: &mut T::Local,
) -> Result<(), AllocError>
    ensures law { OnOk result (TakesEvents (T.is_local tool.now)
        (if guest.now.machine.fresh
        then events_by operands.now guest.now.machine.registers calls.now
        else []) local.old local.new) }
    ensures steady { T.GROWS ≡ false → IsOk result }
{
    if guest.fresh() {
        give::<T, ()>(tool, calls, operands, guest.registers(), local)
    } else {
        Ok(())
    }
}

/// Gives the events that come before the instruction.
#[inline(always)]
pub(crate) fn give_early<T: Tool>(
    tool: &T,
    called: &CallsAt<'_>,
    operands: &Operands,
    guest: &Guest,
    local: &mut T::Local,
) -> Result<(), AllocError>
    ensures law { OnOk result (TakesEvents (T.is_local tool.now)
        (events_by operands.now guest.now.machine.registers called.now.routine.now
        ++ ((if guest.now.machine.fresh
        then events_by operands.now guest.now.machine.registers called.now.block.now
        else [])
        ++ events_by operands.now guest.now.machine.registers called.now.before.now))
        local.old local.new) }
    ensures steady { T.GROWS ≡ false → IsOk result }
{
    give::<T, ()>(tool, called.routine, operands, guest.registers(), local)?;
    give_block(tool, called.block, operands, guest, local)?;
    give::<T, ()>(tool, called.before, operands, guest.registers(), local)
}

/// Gives the events behind the instruction, which completed.
#[inline(always)]
pub(crate) fn give_late<T: Tool>(
    tool: &T,
    called: &CallsAt<'_>,
    operands: &Operands,
    guest: &Guest,
    local: &mut T::Local,
) -> Result<(), AllocError>
    ensures law { OnOk result (TakesEvents (T.is_local tool.now)
        (events_by operands.now guest.now.machine.registers
        (if jumps operands.now then called.now.taken.now else called.now.after.now))
        local.old local.new) }
    ensures steady { T.GROWS ≡ false → IsOk result }
{
    if operands.jumps() {
        give::<T, ()>(tool, called.taken, operands, guest.registers(), local)
    } else {
        give::<T, ()>(tool, called.after, operands, guest.registers(), local)
    }
}

// What the arguments of events are read from, at this instruction.
#[inline(always)]
fn operands_by(guest: &Guest, i: &Instr) -> Operands
    requires { instruction_at guest.now.machine ≡ Some i.now }
    ensures { operands_of_machine guest.now.machine ≡ Some result }
{
    Operands {
        pc: guest.pc(),
        instr: *i,
        a: guest.reg(i.rs1),
        b: guest.reg(i.rs2),
    }
}

// Gives the events of these calls before the instruction. What their arguments are read from is looked up where there are any.
#[inline(always)]
fn give_by<T: Tool, W>(
    tool: &T,
    calls: &[PlannedCall],
    i: &Instr,
    guest: &Guest,
    local: &mut T::Local,
) -> Result<(), AllocError>
    requires { instruction_at guest.now.machine ≡ Some i.now }
    ensures law { OnOk result ((o : Operands) → operands_of_machine guest.now.machine ≡ Some o
        → TakesEvents (T.is_local tool.now)
        (events_by o guest.now.machine.registers calls.now) local.old local.new) }
    ensures steady { T.GROWS ≡ false → IsOk result }
{
    if calls.is_empty() {
        return Ok(());
    }
    let operands = operands_by(guest, i);
    give::<T, W>(tool, calls, &operands, guest.registers(), local)?;
    Ok(())
}

// The same of a block's calls, where the block begins here.
#[inline(always)]
fn give_block_by<T: Tool, W>(
    tool: &T,
    calls: &[PlannedCall],
    i: &Instr,
    guest: &Guest,
    local: &mut T::Local,
) -> Result<(), AllocError>
    requires { instruction_at guest.now.machine ≡ Some i.now }
    ensures law { OnOk result ((o : Operands) → operands_of_machine guest.now.machine ≡ Some o
        → TakesEvents (T.is_local tool.now)
        (if guest.now.machine.fresh
        then events_by o guest.now.machine.registers calls.now
        else []) local.old local.new) }
    ensures steady { T.GROWS ≡ false → IsOk result }
{
    if !guest.fresh() {
        return Ok(());
    }
    give_by::<T, W>(tool, calls, i, guest, local)?;
    Ok(())
}

// Gives the events that come before the instruction, of calls that were found.
#[inline(always)]
fn give_found_early<T: Tool, W>(
    tool: &T,
    found: &Found<'_>,
    i: &Instr,
    guest: &Guest,
    local: &mut T::Local,
) -> Result<(), AllocError>
    requires site { IsSite (length found.now.calls.now) found.now.site.now }
    requires at { instruction_at guest.now.machine ≡ Some i.now }
    ensures law { OnOk result ((o : Operands) → operands_of_machine guest.now.machine ≡ Some o
        → TakesEvents (T.is_local tool.now)
        (events_by o guest.now.machine.registers (found_calls found.now).routine
        ++ ((if guest.now.machine.fresh
        then events_by o guest.now.machine.registers (found_calls found.now).block
        else [])
        ++ events_by o guest.now.machine.registers (found_calls found.now).before))
        local.old local.new) }
    ensures steady { T.GROWS ≡ false → IsOk result }
{
    give_by::<T, W>(tool, found.routine(), i, guest, local)?;
    give_block_by::<T, W>(tool, found.block(), i, guest, local)?;
    give_by::<T, W>(tool, found.before(), i, guest, local)?;
    Ok(())
}

/// Gives the events of the step by this instruction, if nothing is called behind it. False where something is: then none are given.
#[inline(always)]
pub(crate) fn gives_plain<T: Tool, W>(
    plan: &Plan,
    tool: &T,
    i: &Instr,
    guest: &Guest,
    local: &mut T::Local,
) -> Result<bool, AllocError>
    requires { instruction_at guest.now.machine ≡ Some i.now }
    ensures law { IfOk result (λ given. OnTrue given ((completion : Option Machine)
        → TakesEvents (T.is_local tool.now)
        (step_events plan.now guest.now.machine completion) local.old local.new)) }
    ensures none { IfOk result (λ given. OnFalse given (local.new ≡ local.old)) }
    ensures few { (completion : Option Machine)
        → length (step_events plan.now guest.now.machine completion) ≤ 24 }
    ensures steady { T.GROWS ≡ false → IsOk result }
{
    match plan.find(guest.pc()) {
        None => Ok(true),
        Some(found) => {
            if found.count_late() != 0 {
                return Ok(false);
            }
            give_found_early::<T, W>(tool, &found, i, guest, local)?;
            Ok(true)
        }
    }
}
