// The arrays of the calls readv and writev.
ghost use Rattle.std.specs.Prelude.{◌≡◌, ◌+◌, ◌*◌, ◌<◌, ◌≤◌, ◌^◌, true};
ghost use Rattle.std.specs.List.{list_all};
ghost use Rattle.guest_model.specs.Areas.{is_range_permitted};
ghost use Rattle.guest_model.specs.Bytes.{bytes_at, number_of};
ghost use Rattle.guest_model.specs.Calls.{argument, array_of, can_read, can_read_array, range_at};
ghost use Rattle.guest_model.specs.Calls.{used_ranges};
ghost use Rattle.guest_model.specs.Range.{total_size};
ghost use Rattle.guest_model.specs.declared.Access.{Access};

use crate::output::copy;
use arrayvec::ArrayVec;
use guest_mem::Space;
use guest_model::platform::{MOST_READ, MOST_USED};
use rv_machine::Guest;
use std::marker::Model;

/// `size` bytes of memory from `at` on.
#[derive(Clone, Copy, Default)]
pub(crate) struct Range {
    pub(crate) at: u32,
    pub(crate) size: u32,
}

impl Model for Range {
    ghost use Rattle.guest_model.specs.Range.{Range};

    ghost Value = { Range };

    ghost view = { λ r. record { at = r.at; size = r.size } };

    ghost inverse = { λ r. record { at = r.at; size = r.size } };
}

/// The number of four bytes of memory.
fn word(space: &Space, at: u32) -> u32
    requires { at + 4 ≤ 2 ^ 32 }
    ensures { result ≡ number_of (bytes_at space.now.space.bytes at 4) }
{
    let mut bytes = [0; 4];
    copy(space, at, &mut bytes);
    u32::from_le_bytes(bytes)
}

/// Range `k` of the array that the call names.
pub(crate) fn range_at(guest: &Guest, k: u32) -> Range
    requires array { can_read_array guest.now.machine ≡ true }
    requires among { k < argument guest.now.machine 2 }
    ensures { result ≡ range_at guest.now.machine (argument guest.now.machine 1 + 8 * k) }
{
    let at = guest.reg(11) + 8 * k;
    Range {
        at: word(guest.space(), at),
        size: word(guest.space(), at + 4),
    }
}

/// How many bytes the ranges have in all.
pub(crate) fn total_size(guest: &Guest) -> u64
    requires array { can_read_array guest.now.machine ≡ true }
    ensures { result ≡ total_size (array_of guest.now.machine) }
{
    let mut total = 0;
    for k in 0..guest.reg(12) {
        total += range_at(guest, k).size as u64;
    }
    total
}

/// Whether the bytes of every range may be read.
pub(crate) fn are_readable(guest: &Guest) -> bool
    requires array { can_read_array guest.now.machine ≡ true }
    ensures { result ≡ list_all
        (λ r. can_read guest.now.machine r.at r.size) (array_of guest.now.machine) }
{
    for k in 0..guest.reg(12) {
        let range = range_at(guest, k);
        if !guest.space().readable(range.at, range.size) {
            return false;
        }
    }
    true
}

/// The ranges that readv uses: the first 8 that have bytes, and no more than [`MOST_READ`] bytes.
/// It takes no memory.
pub(crate) fn used_ranges(guest: &Guest) -> ArrayVec<Range, MOST_USED>
    requires { can_read_array guest.now.machine ≡ true }
    ensures { result.items ≡ used_ranges (array_of guest.now.machine) }
{
    let mut used = ArrayVec::new();
    let mut room = MOST_READ;
    for k in 0..guest.reg(12) {
        let range = range_at(guest, k);
        if range.size > 0 && !used.is_full() {
            let size = range.size.min(room);
            used.push(Range { at: range.at, size });
            room -= size;
        }
    }
    used
}

/// Whether the bytes of every one of these ranges may be written.
pub(crate) fn are_writable(space: &Space, ranges: &[Range]) -> bool
    ensures { result ≡ list_all
        (λ r. is_range_permitted Access.Write space.now.space.areas r.at r.size)
        ranges.now }
{
    for range in ranges {
        if !space.writable(range.at, range.size) {
            return false;
        }
    }
    true
}

/// How many bytes these ranges have in all.
pub(crate) fn size_of(ranges: &[Range]) -> usize
    requires { total_size ranges.now ≤ MOST_READ }
    ensures { result ≡ total_size ranges.now }
{
    let mut total = 0;
    for range in ranges {
        total += range.size as usize;
    }
    total
}
