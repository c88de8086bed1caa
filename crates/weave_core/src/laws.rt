//! Laws of the moves. None of these functions does anything: each carries a law.
ghost use Rattle.std.specs.Prelude.{◌≡◌, ℕ, List, false, true, take};
ghost use Rattle.std.specs.List.{range_with_len};
ghost use Rattle.weave_core.specs.declared.moves.Move.{Move};
ghost use Rattle.weave_core.specs.Moves.{WeaveState, empty, published, is_allowed, state_after, AllAllowed};
ghost use Rattle.weave_core.specs.Events.{course, events_of, of_slice, merged_slices, StandsAt};

/// Over every list of allowed moves, each slice is published, claimed, finished by who claimed it, and merged, each
/// at most once and in this order; and its phase says how far it is.
pub fn each_slice_in_order()
    ensures order { (limit : ℕ) (moves : List Move) (n : ℕ) → AllAllowed (empty limit) moves
        → (who : ℕ) × (k : ℕ) × (of_slice n (events_of (empty limit) moves) ≡ take k (course who)) }
    ensures phase { (limit : ℕ) (moves : List Move) (n : ℕ) → AllAllowed (empty limit) moves
        → StandsAt (state_after (empty limit) moves) n (of_slice n (events_of (empty limit) moves)) }
{}

/// Over every list of allowed moves, the merged slices are those from 0 on, in this order.
pub fn merged_in_order()
    ensures { (limit : ℕ) (moves : List Move) → AllAllowed (empty limit) moves
        → merged_slices (events_of (empty limit) moves) ≡ range_with_len 0 (state_after (empty limit) moves).merged }
{}

/// After Close all published slices are merged, and no move is allowed.
pub fn closed_is_over()
    ensures merged { (limit : ℕ) (moves : List Move) → AllAllowed (empty limit) moves
        → (state_after (empty limit) moves).closed ≡ true
        → (state_after (empty limit) moves).merged ≡ published (state_after (empty limit) moves) }
    ensures ended { (s : WeaveState) (m : Move) → s.closed ≡ true → is_allowed s m ≡ false }
{}
