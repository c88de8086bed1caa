//! Laws of the definitions. None of these functions does anything: each carries a law.
ghost use Rattle.std.specs.Prelude.{◌≡◌, ℕ, ◌+◌, ◌≤◌, ◌++◌, List, Some, length};
ghost use Rattle.call_record.specs.Record.{CallRecord};
ghost use Rattle.guest_model.specs.Call.{World, Sent, Went, call_of, machine_after};
ghost use Rattle.guest_model.specs.Calls.{Deed, deed_of, used_ranges};
ghost use Rattle.guest_model.specs.Machine.{Machine};
ghost use Rattle.guest_model.specs.Play.{Script, Spot, play_of, played, spot_of};
ghost use Rattle.guest_model.specs.Range.{Range, total_size};
ghost use Rattle.guest_model.specs.Runs.{Running, Ended, after};
ghost use Rattle.guest_model.specs.Serial.{Position, End, entries_of, run_of, step_of};
ghost use Rattle.guest_model.specs.Tests.{AreHits, HitCounts};

use crate::platform::{MOST_READ, MOST_USED};

/// A run that ended stays as it ended.
pub fn ended_stays()
    ensures { (p last : Position) (end : End) (n k : ℕ) → run_of n p ≡ Ended last end
        → run_of (n + k) p ≡ Ended last end }
{}

/// The machine behind a call is the one that its record and its deed give, whatever the world was.
pub fn record_gives_next()
    ensures { (m next : Machine) (w later : World) (deed : Deed) (entry : CallRecord) (sent : List Sent)
        → deed_of m ≡ Some deed → call_of m w ≡ Went next later entry sent
        → next ≡ machine_after m deed entry }
{}

/// A play takes a machine behind its call to where the run goes, by the record that the run leaves.
pub fn record_is_played()
    ensures { (m next : Machine) (w later : World) (entry : CallRecord) (sent : List Sent)
        → call_of m w ≡ Went next later entry sent → next ≡ played m entry }
{}

/// A play with the records that a run leaves goes where the run goes.
pub fn play_follows()
    ensures { (script : Script) (p q : Position) (n : ℕ) (rest : List CallRecord)
        → script.first ≡ p.calls → script.entries ≡ entries_of n p ++ rest → run_of n p ≡ Running q
        → play_of script n (spot_of p) ≡ Running (spot_of q) }
{}

/// Of a boundary and a list of positions there is one count for each test.
pub fn counts_are_exact()
    ensures { (target : Spot) (spots : List Spot) (counts others : HitCounts) → AreHits target spots counts
        → AreHits target spots others → counts ≡ others }
{}

/// readv uses at most 8 ranges, with at most 65,536 bytes in all.
pub fn used_ranges_are_few()
    ensures count { (ranges : List Range) → length (used_ranges ranges) ≤ MOST_USED }
    ensures size { (ranges : List Range) → total_size (used_ranges ranges) ≤ MOST_READ }
{}
