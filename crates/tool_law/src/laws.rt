//! Laws of a tool's events. None of these functions does anything: each carries a law.
ghost use Rattle.std.specs.Prelude.{◌≡◌, ◌++◌, ◌∷◌, [], ◌<◌, ◌^◌, ℕ, List};
ghost use Rattle.guest_model.specs.Serial.{TraceItem};
ghost use Rattle.ins_views.specs.Views.{ViewFields};
ghost use Rattle.insert_points.specs.Events.{events_of};
ghost use Rattle.insert_points.specs.Plan.{PlanFields, called_at};
ghost use Rattle.insert_points.specs.declared.call.Call.{Call};
ghost use Rattle.insert_points.specs.declared.call.Thing.{Thing};
ghost use Rattle.tool_law.specs.Events.{step_events, trace_events};
ghost use Rattle.tool_law.specs.Planning.{called_of};

/// The events that a tool's plan gives at a step are those of the tool's calls.
pub fn events_of_plan()
    ensures { (calls : Thing → List Call) (views : ViewFields) (plan : PlanFields) (item : TraceItem)
        → item.before.pc < 2 ^ 32
        → ((a : ℕ) → a < 2 ^ 32 → called_at plan a ≡ called_of calls views a)
        → events_of (called_at plan item.before.pc) item ≡ step_events calls views item }
{}

/// One more step adds its events behind those of the steps before.
pub fn events_step_by_step()
    ensures { (calls : Thing → List Call) (views : ViewFields) (items : List TraceItem) (item : TraceItem)
        → trace_events calls views (items ++ item ∷ [])
        ≡ trace_events calls views items ++ step_events calls views item }
{}
