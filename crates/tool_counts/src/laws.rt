//! Laws of the tools' values. None of these functions does anything: each carries a law.
ghost use Rattle.std.specs.Prelude.{◌≡◌, ℕ, Some, true};
ghost use Rattle.std.specs.List.{All};
ghost use Rattle.guest_model.specs.Runs.{Ended};
ghost use Rattle.guest_model.specs.Serial.{Exit, Position, run_of, trace_of};
ghost use Rattle.ins_views.specs.Views.{IsViews, ViewFields, ins_at};
ghost use Rattle.tool_law.specs.Events.{trace_events};
ghost use Rattle.tool_counts.specs.Calls.{block_count_calls, instruction_calls};
ghost use Rattle.tool_counts.specs.Counts.{block_sums, own_events};

/// Where a run that begins with a block ends by exit, and each instruction that it tried is one of the views, the blocks that
/// `bcount` counts have together as many instructions as `icount` counts.
pub fn blocks_add_up()
    ensures { (views : ViewFields) (start last : Position) (n status : ℕ) → IsViews views
        → start.machine.fresh ≡ true → run_of n start ≡ Ended last (Exit status)
        → All (λ item. ins_at views item.before.pc ≡ Some item.instruction) (trace_of n start)
        → (block_sums (trace_events block_count_calls views (trace_of n start))).instructions
        ≡ own_events (trace_events instruction_calls views (trace_of n start)) }
{}
