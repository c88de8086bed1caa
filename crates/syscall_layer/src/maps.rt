// The calls that change the areas.
ghost use Rattle.guest_model.specs.Calls.{argument};
ghost use Rattle.guest_model.specs.Maps.{grow_of, map_of, unmap_of};
ghost use Rattle.syscall_layer.specs.Maps.{ChangesAreas};

use crate::finish::finish;
use crate::server::Served;
use call_playback::{add_map, grow_heap, remove_map};
use rv_machine::Guest;
use std::alloc::Global;

/// brk: the heap ends at another address.
pub(crate) fn brk_call(alloc: Global, guest: &mut Guest) -> Served
    ensures { ChangesAreas (grow_of guest.old.machine.space (argument guest.old.machine 0))
        guest.old guest.new result }
{
    let answer = grow_heap(guest);
    finish(alloc, guest, answer)
}

/// mmap2: a map of zeros is added.
pub(crate) fn mmap2_call(alloc: Global, guest: &mut Guest) -> Served
    ensures { ChangesAreas (map_of guest.old.machine.space (argument guest.old.machine 1)
        (argument guest.old.machine 2) (argument guest.old.machine 3)) guest.old guest.new result }
{
    let answer = add_map(guest);
    finish(alloc, guest, answer)
}

/// munmap: a map, or a part of one, is taken away.
pub(crate) fn munmap_call(alloc: Global, guest: &mut Guest) -> Served
    ensures { ChangesAreas (unmap_of guest.old.machine.space (argument guest.old.machine 0)
        (argument guest.old.machine 1)) guest.old guest.new result }
{
    let answer = remove_map(guest);
    finish(alloc, guest, answer)
}
