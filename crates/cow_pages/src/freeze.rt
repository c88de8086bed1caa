// The pages as they are, put into a table.
ghost use Rattle.std.specs.Prelude.{◌≡◌, ℕ, ◌/◌, ◌^◌, ◌<◌, ◌==◌, length, if◌then◌else◌, IfOk, OnOk};
ghost use Rattle.slot_table.specs.Slots.{is_changed, marks_by};
ghost use Rattle.cow_pages.specs.Laid.{IsLaid, byte_in, table_byte};
ghost use Rattle.cow_pages.specs.Named.{marks_of};

use frame_pool::Pool;
use page_table::{PageBytes, PageTable};
use slot_table::{Slot, SlotTable};
use std::alloc::{AllocError, Global};
use std::sync::Arc;

/// How many pages there are.
const PAGES: u32 = 1_048_576;

/// A table of all pages as they are, and the pages that were changed.
pub(crate) fn frozen(
    alloc: Global,
    table: &PageTable,
    slots: &SlotTable,
    pool: &Pool,
) -> Result<(PageTable, Vec<u32>), AllocError>
    requires { IsLaid slots.now pool.now }
    ensures table { IfOk result (λ r. (a : ℕ) → a < 2 ^ 32 → table_byte r.0 a ≡ byte_in slots.now pool.now.bytes table.now a) }
    ensures changed { IfOk result (λ r. marks_of r.1.items ≡ marks_by is_changed slots.now) }
{
    let mut frozen = table.try_clone(alloc)?;
    let mut changed = Vec::new(alloc);
    let mut page = slots.next(0);
    while page < PAGES {
        freeze_page(alloc, &mut frozen, slots, pool, page)?;
        changed.push(page)?;
        page = slots.next(page + 1);
    }
    Ok((frozen, changed))
}

// Puts a page into the table, as it is.
fn freeze_page(
    alloc: Global,
    table: &mut PageTable,
    slots: &SlotTable,
    pool: &Pool,
    page: u32,
) -> Result<(), AllocError>
    requires page { page < 2 ^ 20 }
    requires laid { IsLaid slots.now pool.now }
    ensures { OnOk result ((a : ℕ) → table_byte table.new a ≡ (if a / 4096 == page then byte_in slots.now pool.now.bytes table.old a else table_byte table.old a)) }
{
    match slots.get(page) {
        Slot::Framed(frame) => {
            let copy = Arc::new(alloc, PageBytes::of(pool.bytes(frame)))?;
            table.set(alloc, page, Some(copy))?;
            Ok(())
        }
        Slot::Dropped { written: _ } => {
            table.set(alloc, page, None)?;
            Ok(())
        }
        Slot::Unchanged => Ok(()),
        Slot::Placed => Ok(()),
    }
}
