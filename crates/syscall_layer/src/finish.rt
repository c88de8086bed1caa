// How a guest goes on behind a call.
ghost use Rattle.std.specs.Prelude.{◌≡◌, true, [], length, map};
ghost use Rattle.std.specs.List.{list_all};
ghost use Rattle.guest_model.specs.Areas.{is_range_permitted};
ghost use Rattle.guest_model.specs.Call.{finished, record_of, store_all, with_space};
ghost use Rattle.guest_model.specs.Space.{with_bytes};
ghost use Rattle.guest_model.specs.declared.Access.{Access};
ghost use Rattle.guest_mem.specs.Frames.{HasAllFrames, TakesFrames};
ghost use Rattle.syscall_layer.specs.Serve.{range_of};
ghost use Rattle.syscall_layer.specs.declared.server.Served.TheVariants as served;

use crate::server::Served;
use call_record::{Record, Write};
use rv_machine::Guest;
use std::alloc::Global;

/// Goes on behind a call that stored nothing, with its result.
pub(crate) fn finish(alloc: Global, guest: &mut Guest, answer: u32) -> Served
    ensures served { result ≡ served.Went (record_of guest.old.machine answer []) }
    ensures machine { guest.new.machine ≡ finished guest.old.machine answer }
    ensures frames { guest.new.frames ≡ guest.old.frames }
    ensures origin { guest.new.origin ≡ guest.old.origin }
{
    let number = guest.reg(17);
    guest.finish_call(answer);
    Served::Went(Record {
        number,
        result: answer,
        writes: Vec::new(alloc),
    })
}

/// Goes on behind a call that stores bytes, with its result.
pub(crate) fn finish_storing(guest: &mut Guest, answer: u32, writes: Vec<Write>) -> Served
    requires writable { list_all
        (λ s. is_range_permitted Access.Write guest.old.machine.space.areas s.at
        (length s.bytes)) writes.items ≡ true }
    requires frames { HasAllFrames guest.old.frames (map range_of writes.items) }
    ensures served { result ≡ served.Went (record_of guest.old.machine answer writes.items) }
    ensures machine { guest.new.machine ≡ finished (with_space guest.old.machine
        (with_bytes guest.old.machine.space (store_all guest.old.machine.space.bytes writes.items))) answer }
    ensures frames { TakesFrames guest.old.frames guest.new.frames (map range_of writes.items) }
    ensures origin { guest.new.origin ≡ guest.old.origin }
{
    let number = guest.reg(17);
    call_playback::finish_storing(guest, answer, &writes);
    Served::Went(Record {
        number,
        result: answer,
        writes,
    })
}
