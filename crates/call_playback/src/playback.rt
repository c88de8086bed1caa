// A call that is played again.
ghost use Rattle.std.specs.Prelude.{◌≡◌, true, map};
ghost use Rattle.guest_model.specs.Calls.{deed_of};
ghost use Rattle.guest_model.specs.Fits.{fits};
ghost use Rattle.guest_model.specs.Play.{played};
ghost use Rattle.guest_mem.specs.Frames.{HasAllFrames};
ghost use Rattle.call_playback.specs.Stores.{FramesAfterCall, MarksStored, range_of};

use crate::areas::change_areas;
use crate::storing::finish_storing;
use call_record::Record;
use guest_model::SystemCall;
use rv_machine::Guest;

/// Takes the guest behind the call at which it stands, by the record that the call left: the areas, the break and the next
/// map address change as the call's row says, the writes are stored in order, and x10 gets the result. It asks nothing of
/// the outside, never refuses, and takes no memory. 31 free frames always suffice.
pub fn play(guest: &mut Guest, entry: &Record)
    requires fits { fits guest.old.machine entry.now ≡ true }
    requires frames { HasAllFrames guest.old.frames (map range_of entry.now.stored) }
    ensures machine { guest.new.machine ≡ played guest.old.machine entry.now }
    ensures frames { FramesAfterCall (deed_of guest.old.machine) entry.now.stored
        guest.old.frames guest.new.frames }
    ensures marks { MarksStored entry.now.stored guest.old.frames guest.new.frames }
    ensures origin { guest.new.origin ≡ guest.old.origin }
{
    change_areas(guest, SystemCall::numbered(entry.number));
    finish_storing(guest, entry.result, &entry.writes);
}
