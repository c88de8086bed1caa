// Bytes are placed over pages that read as zeros.
ghost use Rattle.std.specs.Prelude.{◌≡◌, ℕ, ◌+◌, ◌-◌, ◌/◌, ◌^◌, ◌≤◌, length, if◌then◌else◌, slice_index, IfOk};
ghost use Rattle.frame_pool.specs.Bytes.{is_among};
ghost use Rattle.slot_table.specs.Slots.{slot_at};
ghost use Rattle.cow_pages.specs.Contents.{page_count};
ghost use Rattle.cow_pages.specs.Laid.{table_byte};

use page_table::{PageBytes, PageTable};
use slot_table::{Slot, SlotTable};
use std::alloc::{AllocError, Global};
use std::sync::Arc;

/// The bytes in a page.
const PAGE_SIZE: usize = 4096;

/// A table with the bytes from `at` on, and zeros in the rest of their pages.
pub(crate) fn placed_table(
    alloc: Global,
    table: &PageTable,
    at: u32,
    source: &[u8],
) -> Result<PageTable, AllocError>
    requires { at + length source.now ≤ 2 ^ 32 }
    ensures { IfOk result (λ t. (a : ℕ) → table_byte t a ≡ (if is_among at (length source.now) a then slice_index source.now (a - at)
        else if is_among (at / 4096) (page_count at (length source.now)) (a / 4096) then 0 else table_byte table.now a)) }
{
    let mut placed = table.try_clone(alloc)?;
    let mut done = 0;
    while done < source.len() {
        let to = at + done as u32;
        let part = (source.len() - done).min(PAGE_SIZE - (to % 4096) as usize);
        let page = PageBytes::with((to % 4096) as usize, &source[done..done + part]);
        placed.set(alloc, to / 4096, Some(Arc::new(alloc, page)?))?;
        done += part;
    }
    Ok(placed)
}

/// The page behind those that hold the `len` bytes from `at` on.
pub(crate) fn end_page(at: u32, len: usize) -> u32
    requires { at + len ≤ 2 ^ 32 }
    ensures page { result ≡ at / 4096 + page_count at len }
    ensures below { result ≤ 2 ^ 20 }
{
    if len == 0 {
        return at / 4096;
    }
    at / 4096 + (((at % 4096) as u64 + len as u64 + 4095) / 4096) as u32
}

/// The pages from `from` to below `end` were placed.
pub(crate) fn mark_placed(slots: &mut SlotTable, from: u32, end: u32)
    requires order { from ≤ end }
    requires end { end ≤ 2 ^ 20 }
    requires len { length slots.old ≡ 2 ^ 20 }
    ensures len { length slots.new ≡ 2 ^ 20 }
    ensures slots { (q : ℕ) → slot_at slots.new q ≡ (if is_among from (end - from) q then Slot.Placed else slot_at slots.old q) }
{
    for page in from..end {
        let _ = slots.replace(page, Slot::Placed);
    }
}
