//! Laws of records that fit. None of these functions does anything: each carries a law.
ghost use Rattle.std.specs.Prelude.{◌≡◌, ◌≤◌, ℕ, Bool, List, map, true};
ghost use Rattle.call_record.specs.Record.{CallRecord};
ghost use Rattle.guest_model.specs.Fits.{fits};
ghost use Rattle.guest_model.specs.Machine.{Machine};
ghost use Rattle.guest_mem.specs.Frames.{Frames, HasAllFrames, frames_for_all};
ghost use Rattle.call_playback.specs.Stores.{range_of};

/// The bytes of a record that fits lie in at most 31 pages, so 31 free frames suffice for every record.
pub fn frames_of_records()
    ensures pages { (framed : List Bool) (m : Machine) (entry : CallRecord) → fits m entry ≡ true
        → frames_for_all framed (map range_of entry.stored) ≤ 31 }
    ensures enough { (f : Frames) (m : Machine) (entry : CallRecord) → fits m entry ≡ true
        → 31 ≤ f.free → HasAllFrames f (map range_of entry.stored) }
{}
