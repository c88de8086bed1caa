// Frames laid over shared pages.
ghost use Rattle.std.specs.Prelude.{◌≡◌, ℕ, ◌+◌, ◌*◌, ◌/◌, ◌%◌, ◌^◌, ◌<◌, ◌≤◌, ◌==◌, ◌↔◌, true, false, length, if◌then◌else◌, slice_index, slice_set, List, IsNone, IsTrue, IfSome, MatchOption, OnSome};
ghost use Rattle.frame_pool.specs.Bytes.{PutsBytes};
ghost use Rattle.frame_pool.specs.PoolState.{is_given};
ghost use Rattle.slot_table.specs.Slots.{is_changed, is_framed, is_written, slot_at};
ghost use Rattle.cow_pages.specs.Laid.{IsLaid, byte_in, laid_byte, table_byte};

use frame_pool::{Frame, Pool};
use page_table::PageTable;
use slot_table::{Slot, SlotTable};

/// The bytes of a page of the table. None where each of them is 0.
#[inline(always)]
pub(crate) fn table_page(table: &PageTable, page: u32) -> Option<&[u8]>
    requires { page < 2 ^ 20 }
    ensures { MatchOption result ((i : ℕ) → i < 4096 → table_byte table.now (4096 * page + i) ≡ 0)
        (λ bytes. (length bytes.now ≡ 4096) × ((i : ℕ) → i < 4096 → slice_index bytes.now i ≡ table_byte table.now (4096 * page + i))) }
{
    match table.page(page) {
        Some(bytes) => Some(bytes.as_slice()),
        None => None,
    }
}

/// The bytes of a page. None where each of them is 0.
#[inline(always)]
pub(crate) fn page_of<'a>(
    table: &'a PageTable,
    slots: &'a SlotTable,
    pool: &'a Pool,
    page: u32,
) -> Option<&'a [u8]>
    requires page { page < 2 ^ 20 }
    requires laid { IsLaid slots.now pool.now }
    ensures { MatchOption result ((i : ℕ) → i < 4096 → byte_in slots.now pool.now.bytes table.now (4096 * page + i) ≡ 0)
        (λ bytes. (length bytes.now ≡ 4096) × ((i : ℕ) → i < 4096 → slice_index bytes.now i ≡ byte_in slots.now pool.now.bytes table.now (4096 * page + i))) }
{
    match slots.get(page) {
        Slot::Framed(frame) => Some(pool.bytes(frame)),
        Slot::Unchanged => table_page(table, page),
        Slot::Placed => table_page(table, page),
        Slot::Dropped { written: _ } => None,
    }
}

/// Whether the page has a frame.
#[inline(always)]
pub(crate) fn has_frame(slots: &SlotTable, page: u32) -> bool
    requires { page < 2 ^ 20 }
    ensures { result ≡ is_framed (slot_at slots.now page) }
{
    match slots.get(page) {
        Slot::Framed(_) => true,
        _ => false,
    }
}

/// Whether the page was changed.
pub(crate) fn was_changed(slots: &SlotTable, page: u32) -> bool
    requires { page < 2 ^ 20 }
    ensures { result ≡ is_changed (slot_at slots.now page) }
{
    match slots.get(page) {
        Slot::Unchanged => false,
        _ => true,
    }
}

// Whether the page was written.
fn was_written(slots: &SlotTable, page: u32) -> bool
    requires { page < 2 ^ 20 }
    ensures { result ≡ is_written (slot_at slots.now page) }
{
    match slots.get(page) {
        Slot::Framed(_) => true,
        Slot::Dropped { written } => *written,
        _ => false,
    }
}

// The bytes of a page that has no frame. None where each of them is 0.
fn page_below<'a>(table: &'a PageTable, slots: &SlotTable, page: u32) -> Option<&'a [u8]>
    requires page { page < 2 ^ 20 }
    requires none { is_framed (slot_at slots.now page) ≡ false }
    ensures { (frames : List ℕ) → MatchOption result
        ((i : ℕ) → i < 4096 → laid_byte (slot_at slots.now page) frames table.now (4096 * page + i) ≡ 0)
        (λ bytes. (length bytes.now ≡ 4096) × ((i : ℕ) → i < 4096 → slice_index bytes.now i ≡ laid_byte (slot_at slots.now page) frames table.now (4096 * page + i))) }
{
    match slots.get(page) {
        Slot::Unchanged => table_page(table, page),
        Slot::Placed => table_page(table, page),
        _ => None,
    }
}

// Takes a frame for a page that has none, and puts the bytes of the page into it.
fn take_filled(table: &PageTable, slots: &SlotTable, pool: &mut Pool, page: u32) -> Option<Frame>
    requires page { page < 2 ^ 20 }
    requires none { is_framed (slot_at slots.now page) ≡ false }
    ensures none { IsNone result ↔ (pool.old.free ≡ 0) }
    ensures spare { IfSome result (λ f. is_given pool.old f ≡ false) }
    ensures given { IfSome result (λ f. (g : ℕ) → is_given pool.new g ≡ (if g == f then true else is_given pool.old g)) }
    ensures bytes { IfSome result (λ f. (k : ℕ) → slice_index pool.new.bytes k ≡ (if k / 4096 == f
        then laid_byte (slot_at slots.now page) pool.old.bytes table.now (4096 * page + k % 4096) else slice_index pool.old.bytes k)) }
    ensures free { OnSome result (pool.new.free + 1 ≡ pool.old.free) }
    ensures count { pool.new.count ≡ pool.old.count }
{
    match page_below(table, slots, page) {
        Some(bytes) => pool.take_copy(bytes),
        None => pool.take(),
    }
}

/// Gives a page that has no frame one. Answers how many pages more are written.
pub(crate) fn lay_frame(table: &PageTable, slots: &mut SlotTable, pool: &mut Pool, page: u32) -> u32
    requires page { page < 2 ^ 20 }
    requires laid { IsLaid slots.old pool.old }
    requires none { is_framed (slot_at slots.old page) ≡ false }
    requires free { 0 < pool.old.free }
    ensures laid { IsLaid slots.new pool.new }
    ensures framed { is_framed (slot_at slots.new page) ≡ true }
    ensures slots { slots.new ≡ slice_set slots.old page (slot_at slots.new page) }
    ensures same { (a : ℕ) → byte_in slots.new pool.new.bytes table.now a ≡ byte_in slots.old pool.old.bytes table.now a }
    ensures free { pool.new.free + 1 ≡ pool.old.free }
    ensures count { pool.new.count ≡ pool.old.count }
    ensures more { result ≡ (if is_written (slot_at slots.old page) then 0 else 1) }
{
    let more = if was_written(slots, page) { 0 } else { 1 };
    if let Some(frame) = take_filled(table, slots, pool, page) {
        let _ = slots.replace(page, Slot::Framed(frame));
    }
    more
}

/// Writes bytes into a page that has a frame, from its byte `at` on.
#[inline(always)]
pub(crate) fn write(slots: &SlotTable, pool: &mut Pool, page: u32, at: u32, bytes: &[u8])
    requires page { page < 2 ^ 20 }
    requires laid { IsLaid slots.now pool.old }
    requires framed { is_framed (slot_at slots.now page) ≡ true }
    requires range { at + length bytes.now ≤ 4096 }
    ensures laid { IsLaid slots.now pool.new }
    ensures bytes { (frame : ℕ) → slot_at slots.now page ≡ Slot.Framed frame → PutsBytes pool.old.bytes pool.new.bytes (4096 * frame + at) bytes.now }
    ensures free { pool.new.free ≡ pool.old.free }
    ensures count { pool.new.count ≡ pool.old.count }
{
    if let Slot::Framed(frame) = slots.get(page) {
        pool.set(frame, at, bytes);
    }
}

/// The page holds zeros from now on, and its frame is free, if it has one.
pub(crate) fn empty_page(slots: &mut SlotTable, pool: &mut Pool, page: u32)
    requires page { page < 2 ^ 20 }
    requires laid { IsLaid slots.old pool.old }
    ensures laid { IsLaid slots.new pool.new }
    ensures slots { slots.new ≡ slice_set slots.old page (Slot.Dropped (is_written (slot_at slots.old page))) }
    ensures bytes { pool.new.bytes ≡ pool.old.bytes }
    ensures free { pool.new.free ≡ pool.old.free + (if is_framed (slot_at slots.old page) then 1 else 0) }
    ensures count { pool.new.count ≡ pool.old.count }
{
    let written = was_written(slots, page);
    if let Slot::Framed(frame) = slots.replace(page, Slot::Dropped { written }) {
        pool.give(frame);
    }
}
