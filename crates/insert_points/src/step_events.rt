// The events of a step.
ghost use Rattle.std.specs.Prelude.{◌≡◌, ◌≤◌, ◌+◌, ◌++◌, length, map};
ghost use Rattle.arrayvec.specs.ArrayVec.{array_vec_len};
ghost use Rattle.insert_points.specs.Events.{event_of, events_of, item_of, operands_of};
ghost use Rattle.insert_points.specs.Plan.{called_at};

use crate::call::Event;
use crate::operands::{Operands, register};
use crate::plan::Plan;
use crate::planned::PlannedCall;
use arrayvec::ArrayVec;
use rv_isa::StepView;

// What the arguments of a step's calls are read from.
fn operands_of(step: &StepView) -> Operands
    ensures { result ≡ operands_of (item_of step.now) }
{
    Operands {
        pc: step.pc,
        instr: step.instr,
        a: register(&step.before, step.instr.rs1),
        b: register(&step.before, step.instr.rs2),
    }
}

// Adds the events of these calls.
fn push_events(
    events: &mut ArrayVec<Event, 24>,
    calls: &[PlannedCall],
    operands: &Operands,
    registers: &[u32; 32],
)
    requires { array_vec_len events.old + length calls.now ≤ 24 }
    ensures { events.new.items ≡ events.old.items ++ map (event_of operands.now registers.now) calls.now }
{
    for call in calls {
        events.push(call.asked_event(operands, registers));
    }
}

/// The events of a step, in their order: of the calls of a routine that starts there, of a block that begins there, and of
/// the instruction, before it and after it. It takes no memory.
#[tactic(auto, unfolding(crate::specs::Events::events_of))]
pub fn fire(plan: &Plan, step: &StepView) -> ArrayVec<Event, 24>
    ensures { result.items ≡ events_of (called_at plan.now step.now.pc) (item_of step.now) }
{
    let called = plan.at(step.pc);
    let operands = operands_of(step);
    let mut events = ArrayVec::new();
    push_events(&mut events, called.routine, &operands, &step.before);
    if step.fresh {
        push_events(&mut events, called.block, &operands, &step.before);
    }
    push_events(&mut events, called.before, &operands, &step.before);
    if step.next.is_some() {
        let late = if operands.jumps() {
            called.taken
        } else {
            called.after
        };
        push_events(&mut events, late, &operands, &step.after);
    }
    events
}
