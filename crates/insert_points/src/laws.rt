//! Laws of events. None of these functions does anything: each carries a law.
ghost use Rattle.std.specs.Prelude.{◌≡◌, ◌++◌, ℕ, List, None, Some, map};
ghost use Rattle.rv_isa.specs.declared.view.StepView.{StepView};
ghost use Rattle.guest_model.specs.Serial.{TraceItem};
ghost use Rattle.insert_points.specs.Events.{Called, Shows, before_events, block_events, event_of, events_of, item_of, late_events, operands_of, routine_events};
ghost use Rattle.insert_points.specs.Planned.{plan_calls, ready_event};
ghost use Rattle.insert_points.specs.declared.call.Call.{Call};
ghost use Rattle.insert_points.specs.declared.call.Point.{Point};
ghost use Rattle.insert_points.specs.declared.operands.Operands.{Operands};

/// A step's events rest on what a view of the step shows.
pub fn events_of_view()
    ensures { (called : Called) (view : StepView) (item : TraceItem) → Shows view item
        → events_of called item ≡ events_of called (item_of view) }
{}

/// A step's events are those of its routine, its block and the calls before the instruction, which rest on the machine
/// before, and then those of the calls after it, which rest on its operands before and on the registers after.
pub fn events_in_parts()
    ensures { (called : Called) (item : TraceItem) → events_of called item
        ≡ routine_events called item ++ (block_events called item ++ (before_events called item
        ++ late_events called (operands_of item) item.completion)) }
{}

/// Calls made ready for an instruction's name give their events on an instruction of that name.
pub fn ready_for_name()
    ensures { (o : Operands) (registers : List ℕ) (point : Point) (calls : List Call)
        → map (ready_event o registers) (plan_calls (Some o.instr.op) point calls)
        ≡ map (event_of o registers) (plan_calls (Some o.instr.op) point calls) }
{}

/// Calls made ready for any instruction give their events on every one.
pub fn ready_for_any()
    ensures { (o : Operands) (registers : List ℕ) (point : Point) (calls : List Call)
        → map (ready_event o registers) (plan_calls None point calls)
        ≡ map (event_of o registers) (plan_calls None point calls) }
{}
