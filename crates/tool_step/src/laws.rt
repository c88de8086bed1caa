//! Laws of the events of a step. None of these functions does anything: each carries a law.
ghost use Rattle.std.specs.Prelude.{◌≡◌, ◌++◌, None, Some};
ghost use Rattle.guest_model.specs.Machine.{Machine};
ghost use Rattle.insert_points.specs.Plan.{PlanFields};
ghost use Rattle.tool_step.specs.Steps.{events_behind, operands_of_machine, step_events};

/// The events of a step that completed are those that it has whether or not it completes, and then those behind it.
pub fn events_of_completed_step()
    ensures { (plan : PlanFields) (before after : Machine) → step_events plan before (Some after)
        ≡ step_events plan before None ++ events_behind plan (operands_of_machine before) after }
{}
