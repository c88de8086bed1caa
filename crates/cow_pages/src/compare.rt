// Pages are compared with those of another table.
ghost use Rattle.std.specs.Prelude.{◌≡◌, ℕ, ◌+◌, ◌*◌, ◌/◌, ◌^◌, ◌<◌, ◌↔◌, true, false, length, slice_index, IsTrue};
ghost use Rattle.slot_table.specs.Slots.{is_changed, slot_at};
ghost use Rattle.cow_pages.specs.Laid.{IsLaid, byte_in, table_byte};
ghost use Rattle.cow_pages.specs.Named.{is_named};

use crate::overlay::{page_of, table_page, was_changed};
use frame_pool::Pool;
use page_table::PageTable;
use slot_table::SlotTable;

/// How many pages there are.
const PAGES: u32 = 1_048_576;

/// Whether the listed pages that were not changed hold the bytes that they have in the other table.
pub(crate) fn same_listed(
    table: &PageTable,
    slots: &SlotTable,
    pool: &Pool,
    end: &PageTable,
    pages: &Vec<u32>,
) -> bool
    requires laid { IsLaid slots.now pool.now }
    ensures { IsTrue result ↔ ((a : ℕ) → a < 2 ^ 32 → is_named pages.now.items (a / 4096) ≡ true
        → is_changed (slot_at slots.now (a / 4096)) ≡ false
        → byte_in slots.now pool.now.bytes table.now a ≡ table_byte end.now a) }
{
    for k in 0..pages.len() {
        let page = pages[k];
        if page < PAGES && !was_changed(slots, page) && !same_page(table, slots, pool, end, page) {
            return false;
        }
    }
    true
}

/// Whether the changed pages hold the bytes that they have in the other table.
pub(crate) fn same_changed(
    table: &PageTable,
    slots: &SlotTable,
    pool: &Pool,
    end: &PageTable,
) -> bool
    requires laid { IsLaid slots.now pool.now }
    ensures { IsTrue result ↔ ((a : ℕ) → a < 2 ^ 32 → is_changed (slot_at slots.now (a / 4096)) ≡ true
        → byte_in slots.now pool.now.bytes table.now a ≡ table_byte end.now a) }
{
    let mut page = slots.next(0);
    while page < PAGES {
        if !same_page(table, slots, pool, end, page) {
            return false;
        }
        page = slots.next(page + 1);
    }
    true
}

// Whether a page holds the bytes that it has in the other table.
fn same_page(table: &PageTable, slots: &SlotTable, pool: &Pool, end: &PageTable, page: u32) -> bool
    requires page { page < 2 ^ 20 }
    requires laid { IsLaid slots.now pool.now }
    ensures { IsTrue result ↔ ((i : ℕ) → i < 4096
        → byte_in slots.now pool.now.bytes table.now (4096 * page + i) ≡ table_byte end.now (4096 * page + i)) }
{
    match page_of(table, slots, pool, page) {
        None => match table_page(end, page) {
            None => true,
            Some(other) => is_zero(other),
        },
        Some(one) => match table_page(end, page) {
            None => is_zero(one),
            Some(other) => same_bytes(one, other),
        },
    }
}

fn same_bytes(one: &[u8], other: &[u8]) -> bool
    requires { length one.now ≡ length other.now }
    ensures { IsTrue result ↔ ((i : ℕ) → i < length one.now → slice_index one.now i ≡ slice_index other.now i) }
{
    one == other
}

fn is_zero(bytes: &[u8]) -> bool
    ensures { IsTrue result ↔ ((i : ℕ) → i < length bytes.now → slice_index bytes.now i ≡ 0) }
{
    for i in 0..bytes.len() {
        if bytes[i] != 0 {
            return false;
        }
    }
    true
}
