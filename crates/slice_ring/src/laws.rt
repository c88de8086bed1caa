//! Laws of the ring. None of these functions does anything: each carries a law.
ghost use Rattle.std.specs.Prelude.{◌≡◌, ℕ, ◌+◌, ◌*◌, ◌%◌, ◌<◌, ◌≤◌, length, Option, Some, None, slice_index, false};
ghost use mathlib.Core.Option.{some};
ghost use lib.ListN.{get_elem?};
ghost use Rattle.atomic_table.specs.Table.{State};
ghost use Rattle.weave_core.specs.declared.moves.Move.TheVariants.{Publish, Claim, Finish, Merge, Close};
ghost use Rattle.weave_core.specs.Moves.{phase_of, published};
ghost use Rattle.slice_ring.specs.declared.views.Content.{Content};
ghost use Rattle.slice_ring.specs.declared.views.View.{View};
ghost use Rattle.slice_ring.specs.declared.views.Role.TheVariants.{Leads, Works};
ghost use Rattle.slice_ring.specs.Ticket.{Tag};
ghost use Rattle.slice_ring.specs.Rule.{Holds, RingHolds};
ghost use Rattle.slice_ring.specs.Steps.{publishes, takes_job, finishes, merges, closes};
ghost use Rattle.slice_ring.specs.Core.{core_of, lead_of, IsSound, IsSlice, HasStepped, MakesMove};

use crate::ring::Ring;
use crate::seats::WorkSeat;
use crate::views::Numbered;

/// Between any two steps of any seats, the words, the slots and the views of a ring are one state of the core: each
/// outstanding slice is ready, with its job in its slot and held by none; or taken, by the one seat that holds it;
/// or done, with its piece in its slot.
pub fn reads_as_core<J: Numbered, R: Numbered<Topic = J::Topic>>()
    ensures sound { (slots : ℕ) (topic : J.Topic)
        (s : State (Option (Content J R)) (View J.Topic))
        → RingHolds J.ticket R.ticket slots topic s
        → IsSound (core_of slots s)
        × (published (core_of slots s) ≡ length (lead_of s.views).tags) }
    ensures slices { (slots : ℕ) (topic : J.Topic)
        (s : State (Option (Content J R)) (View J.Topic))
        → RingHolds J.ticket R.ticket slots topic s
        → (n : ℕ) → (core_of slots s).merged ≤ n → n < published (core_of slots s)
        → IsSlice J.ticket R.ticket slots topic s n (phase_of (core_of slots s) n) }
{}

/// Each step of a seat that is a move of the core is that move, and it is allowed: the store of Ready, the won
/// exchange, the store of Done, the load that finds the next slot done, and the store to the closing word. Each is
/// a step between two states that meet the rule.
pub fn steps_are_moves<J: Numbered, R: Numbered<Topic = J::Topic>>()
    ensures publish { (slots : ℕ) (topic : J.Topic)
        (s s' : State (Option (Content J R)) (View J.Topic))
        → RingHolds J.ticket R.ticket slots topic s → RingHolds J.ticket R.ticket slots topic s'
        → (place : ℕ) (v : View J.Topic) (tag : Tag) → get_elem? s.views place ≡ some v
        → v.role ≡ Leads
        → HasStepped (3 * (length v.lead.tags % slots) + 1) (4 * length v.lead.tags + 1) place (publishes tag v) s s'
        → MakesMove slots s Publish s' }
    ensures claim { (slots : ℕ) (topic : J.Topic)
        (s s' : State (Option (Content J R)) (View J.Topic))
        → RingHolds J.ticket R.ticket slots topic s → RingHolds J.ticket R.ticket slots topic s'
        → (place n i : ℕ) (v : View J.Topic) (tag : Tag) → get_elem? s.views place ≡ some v
        → v.role ≡ Works → v.work.held ≡ None → i < slots
        → slice_index s.words (3 * i + 1) ≡ 4 * n + 1
        → HasStepped (3 * i + 1) (4 * n + 2) place (takes_job n tag v) s s'
        → MakesMove slots s (Claim n place) s' }
    ensures finish { (slots : ℕ) (topic : J.Topic)
        (s s' : State (Option (Content J R)) (View J.Topic))
        → RingHolds J.ticket R.ticket slots topic s → RingHolds J.ticket R.ticket slots topic s'
        → (place n : ℕ) (v : View J.Topic) (tag : Tag) → get_elem? s.views place ≡ some v
        → Holds n tag v
        → HasStepped (3 * (n % slots) + 1) (4 * n + 3) place (finishes v) s s'
        → MakesMove slots s (Finish n place) s' }
    ensures merge { (slots : ℕ) (topic : J.Topic)
        (s s' : State (Option (Content J R)) (View J.Topic))
        → RingHolds J.ticket R.ticket slots topic s → RingHolds J.ticket R.ticket slots topic s'
        → (place : ℕ) (v : View J.Topic) → get_elem? s.views place ≡ some v → v.role ≡ Leads
        → slice_index s.words (3 * (v.lead.merged % slots) + 1) ≡ 4 * v.lead.merged + 3
        → HasStepped (3 * (v.lead.merged % slots) + 1) (4 * v.lead.merged + 3) place (merges (3 * (v.lead.merged % slots) + 1) v) s s'
        → MakesMove slots s Merge s' }
    ensures close { (slots : ℕ) (topic : J.Topic)
        (s s' : State (Option (Content J R)) (View J.Topic))
        → RingHolds J.ticket R.ticket slots topic s → RingHolds J.ticket R.ticket slots topic s'
        → (place : ℕ) (v : View J.Topic) → get_elem? s.views place ≡ some v → v.role ≡ Leads
        → v.lead.closed ≡ false
        → HasStepped 0 1 place (closes v) s s' → MakesMove slots s Close s' }
{}

fn is_shared<T: Sync>(_value: &T) {}

fn is_moved<T: Send>(value: T) -> T
    ensures { result ≡ value }
{
    value
}

/// A ring can be shared between threads, and a worker's seat moved to one.
pub fn crosses_threads<J: Numbered + Send + Drop, R: Numbered<Topic = J::Topic> + Send + Drop>(
    ring: &Ring<J, R>,
    seat: WorkSeat<J, R>,
) -> WorkSeat<J, R>
    ensures { result ≡ seat }
{
    is_shared(ring);
    is_moved(seat)
}
