// The calls that change the areas, by the arguments in the guest's registers. Each leaves the guest at its call.
ghost use Rattle.guest_model.specs.Calls.{argument};
ghost use Rattle.guest_model.specs.Maps.{grow_of, map_of, unmap_of};
ghost use Rattle.call_playback.specs.Areas.{HasAreas, HasChanged};

use guest_model::SystemCall;
use rv_machine::Guest;

/// The heap ends where brk asks. Answers the result of the call.
pub fn grow_heap(guest: &mut Guest) -> u32
    ensures { HasChanged (grow_of guest.old.machine.space (argument guest.old.machine 0))
        guest.old guest.new result }
{
    let to = guest.reg(10);
    guest.space_mut().grow_break(to)
}

/// A map of zeros is added, as mmap2 asks. Answers the result of the call.
pub fn add_map(guest: &mut Guest) -> u32
    ensures { HasChanged (map_of guest.old.machine.space (argument guest.old.machine 1)
        (argument guest.old.machine 2) (argument guest.old.machine 3)) guest.old guest.new result }
{
    let len = guest.reg(11);
    let prot = guest.reg(12);
    let flags = guest.reg(13);
    guest.space_mut().map(len, prot, flags)
}

/// A map, or a part of one, is taken away, as munmap asks. Answers the result of the call.
pub fn remove_map(guest: &mut Guest) -> u32
    ensures { HasChanged (unmap_of guest.old.machine.space (argument guest.old.machine 0)
        (argument guest.old.machine 1)) guest.old guest.new result }
{
    let at = guest.reg(10);
    let len = guest.reg(11);
    guest.space_mut().unmap(at, len)
}

/// Changes the areas as the call asks, if it is one that does.
pub(crate) fn change_areas(guest: &mut Guest, call: Option<SystemCall>)
    ensures { HasAreas call guest.old guest.new }
{
    match call {
        Some(SystemCall::Brk) => {
            grow_heap(guest);
        }
        Some(SystemCall::Munmap) => {
            remove_map(guest);
        }
        Some(SystemCall::Mmap2) => {
            add_map(guest);
        }
        _ => {}
    }
}
