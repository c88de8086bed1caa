//! A law of live runs. The function does nothing: it carries the law.
ghost use Rattle.std.specs.Prelude.{◌≡◌, ◌+◌, ◌<◌, ◌^◌, ℕ, List, [], length, true};
ghost use mathlib.Core.Option.{some};
ghost use lib.ListN.{get_elem?};
ghost use Rattle.guest_model.specs.Serial.{End, EndsAt, Position, TraceItem, trace_of};
ghost use Rattle.ins_views.specs.Views.{ViewFields};
ghost use Rattle.boundary_verify.specs.Cuts.{AreBetween};
ghost use Rattle.boundary_verify.specs.Pieces.{ArePieces};
ghost use Rattle.tool_law.specs.Events.{trace_events};
ghost use Rattle.weave_core.specs.declared.moves.Move.{Move};
ghost use Rattle.weave_core.specs.Moves.{AllAllowed, empty, published, state_after};
ghost use Rattle.weave_core.specs.Events.{events_of, merged_slices};
ghost use Rattle.live_run.specs.Order.{MergesInOrder};

use boundary_verify::laws::pieces_join;
use tool_law::Tool;
use weave_core::laws::{closed_is_over, merged_in_order};

/// Of a run that ends, which is cut anywhere: over every list of allowed moves that publishes all its jobs and closes, the
/// locals of the jobs' events, merged in the order in which the moves merge their slices, give the tool's state of all events
/// of the run.
pub fn every_interleaving<T: Tool>()
    ensures { (tool : T) (views : ViewFields) (p : Position) (t : ℕ) (end : End) (cuts : List ℕ)
        (pieces : List (List TraceItem)) (limit : ℕ) (moves : List Move)
        (locals : ℕ → T.Local) (first last : T.Shared)
        → EndsAt p t end → AreBetween t 0 cuts → ArePieces p t 0 cuts pieces
        → length (trace_events (T.calls_of tool) views (trace_of (t + 1) p)) < 2 ^ 50
        → AllAllowed (empty limit) moves → (state_after (empty limit) moves).closed ≡ true
        → published (state_after (empty limit) moves) ≡ length pieces
        → ((n : ℕ) (items : List TraceItem) → get_elem? pieces n ≡ some items
        → T.is_local tool (trace_events (T.calls_of tool) views items) (locals n))
        → T.is_value tool [] first
        → MergesInOrder (T.is_local tool) (T.is_value tool) locals
        (merged_slices (events_of (empty limit) moves)) first last
        → T.is_value tool (trace_events (T.calls_of tool) views (trace_of (t + 1) p)) last }
{
    pieces_join();
    merged_in_order();
    closed_is_over();
}
