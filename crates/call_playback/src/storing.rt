// What a call stores in memory.
ghost use Rattle.std.specs.Prelude.{◌≡◌, true, length, map};
ghost use Rattle.std.specs.List.{list_all};
ghost use Rattle.guest_model.specs.Areas.{is_range_permitted};
ghost use Rattle.guest_model.specs.Call.{finished, store_all, with_space};
ghost use Rattle.guest_model.specs.Space.{with_bytes};
ghost use Rattle.guest_model.specs.declared.Access.{Access};
ghost use Rattle.guest_mem.specs.Frames.{HasAllFrames, TakesFrames};
ghost use Rattle.call_playback.specs.Stores.{range_of};

use call_record::Write;
use guest_mem::Space;
use rv_machine::Guest;

// Puts bytes in memory, one write after the other.
fn put_all(space: &mut Space, writes: &[Write])
    requires writable { list_all (λ s. is_range_permitted Access.Write space.old.space.areas s.at
        (length s.bytes)) writes.now ≡ true }
    requires frames { HasAllFrames space.old.frames (map range_of writes.now) }
    ensures space { space.new.space
        ≡ with_bytes space.old.space (store_all space.old.space.bytes writes.now) }
    ensures frames { TakesFrames space.old.frames space.new.frames (map range_of writes.now) }
    ensures origin { space.new.origin ≡ space.old.origin }
{
    for write in writes {
        space.put(write.at, &write.bytes);
    }
}

/// Goes on behind the call at pc, which stores bytes, with its result in x10. It takes no memory.
pub fn finish_storing(guest: &mut Guest, answer: u32, writes: &[Write])
    requires writable { list_all
        (λ s. is_range_permitted Access.Write guest.old.machine.space.areas s.at
        (length s.bytes)) writes.now ≡ true }
    requires frames { HasAllFrames guest.old.frames (map range_of writes.now) }
    ensures machine { guest.new.machine ≡ finished (with_space guest.old.machine
        (with_bytes guest.old.machine.space (store_all guest.old.machine.space.bytes writes.now))) answer }
    ensures frames { TakesFrames guest.old.frames guest.new.frames (map range_of writes.now) }
    ensures origin { guest.new.origin ≡ guest.old.origin }
{
    guest.finish_call(answer);
    put_all(guest.space_mut(), writes);
}
