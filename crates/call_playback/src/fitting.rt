// Which records fit a call.
ghost use Rattle.std.specs.Prelude.{◌≡◌, ◌≤◌, ◌==◌, ◌&&◌, length, nat_le, not};
ghost use Rattle.std.specs.List.{list_all, sum_by};
ghost use Rattle.guest_model.specs.Areas.{is_range_permitted};
ghost use Rattle.guest_model.specs.Fits.{changes_areas, fits, may_go_on};
ghost use Rattle.guest_model.specs.declared.Access.{Access};

use call_record::{Record, Write};
use guest_mem::Space;
use guest_model::SystemCall;
use guest_model::platform::{MOST_READ, MOST_USED};
use rv_machine::Guest;

// Whether the call has a row and may go on.
fn may_go_on(call: Option<SystemCall>) -> bool
    ensures { result ≡ may_go_on call }
{
    match call {
        None | Some(SystemCall::Exit | SystemCall::ExitGroup) => false,
        Some(_) => true,
    }
}

// Whether the call changes the areas, so that it stores nothing.
fn changes_areas(call: Option<SystemCall>) -> bool
    ensures { result ≡ changes_areas call }
{
    matches!(
        call,
        Some(SystemCall::Brk | SystemCall::Munmap | SystemCall::Mmap2)
    )
}

// Whether these writes have at most so many bytes in all.
fn are_within(writes: &[Write], most: usize) -> bool
    ensures { result ≡ nat_le (sum_by (λ s. length s.bytes) writes.now) most }
{
    let mut room = most;
    for write in writes {
        if write.bytes.len() > room {
            return false;
        }
        room -= write.bytes.len();
    }
    true
}

// Whether each of these writes has bytes, and all its bytes may be written.
fn can_store(space: &Space, writes: &[Write]) -> bool
    requires { sum_by (λ s. length s.bytes) writes.now ≤ MOST_READ }
    ensures { result ≡ list_all (λ s. not (length s.bytes == 0)
        && is_range_permitted Access.Write space.now.space.areas s.at (length s.bytes)) writes.now }
{
    for write in writes {
        if write.bytes.is_empty() || !space.writable(write.at, write.bytes.len() as u32) {
            return false;
        }
    }
    true
}

/// Whether the record can be that of the call at which the guest stands, whatever the outside was: it has the number of the
/// call, of a row that may go on; at most 8 writes, none of them empty, with at most 65,536 bytes in all; each may be
/// written; and there is none where the call changes the areas. It takes no memory.
#[tactic(auto, unfolding(guest_model::specs::Fits::fits))]
pub fn fits(guest: &Guest, entry: &Record) -> bool
    ensures { result ≡ fits guest.now.machine entry.now }
{
    let call = SystemCall::numbered(entry.number);
    entry.number == guest.reg(17)
        && may_go_on(call)
        && entry.writes.len() <= MOST_USED
        && are_within(&entry.writes, MOST_READ as usize)
        && can_store(guest.space(), &entry.writes)
        && (!changes_areas(call) || entry.writes.is_empty())
}
