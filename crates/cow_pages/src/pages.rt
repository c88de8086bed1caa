// The pages of a guest.
ghost use Rattle.std.specs.Prelude.{◌≡◌, ℕ, ◌+◌, ◌*◌, ◌/◌, ◌^◌, ◌<◌, ◌≤◌, ◌↔◌, true, length, slice_index, slice_set, IfOk, IsTrue, MatchOption, OnOk, OnErr};
ghost use Rattle.std.specs.Arc.{arc_value};
ghost use Rattle.frame_pool.specs.Bytes.{ClearsPage, PutsBytes};
ghost use Rattle.cow_pages.specs.Contents.{flat, address_of, page_count, pages_over, AgreeOutside, ReadAsZeros};
ghost use Rattle.cow_pages.specs.Frames.{AddUp, GivesFrameBack, HasFrame, TakesFrame};
ghost use Rattle.cow_pages.specs.Laid.{table_byte};
ghost use Rattle.cow_pages.specs.Marks.{count_marked, is_marked, MarksPages};

use crate::compare::{same_changed, same_listed};
use crate::freeze::frozen;
use crate::overlay::{empty_page, has_frame, lay_frame, page_of, write};
use crate::place::{end_page, mark_placed, placed_table};
use crate::shared::Shared;
use frame_pool::Pool;
use page_table::PageTable;
use slot_table::SlotTable;
use std::alloc::{AllocError, Global};
use std::marker::Model;
use std::sync::Arc;

/// The 1,048,576 pages of 4,096 bytes of an address space of 32 bits. They are shared with what was frozen and forked; a page
/// takes a frame when it is first written since the last freeze or fork.
pub struct Pages {
    alloc: Global,
    /// The pages that are shared with others, and those that were placed.
    base: Arc<PageTable, Global>,
    /// The pages as they were at the last freeze or fork.
    origin: Arc<PageTable, Global>,
    /// What stands over each page.
    slots: SlotTable,
    /// The frames.
    pool: Pool,
    /// How many pages were written since the last freeze or fork.
    written: u32,
}

impl Model for Pages {
    ghost use Rattle.cow_pages.specs.Contents.{Contents, contents_code};

    ghost Value = { Contents };

    ghost coded = { contents_code };

    ghost use Rattle.cow_pages.specs.Kept.{IsKept, contents_of};

    ghost view = { contents_of };

    ghost invariant = { IsKept };
}

impl Drop for Pages {
    fn drop(self) {
        let Pages {
            alloc: _,
            base: _,
            origin: _,
            slots: _,
            mut pool,
            written: _,
        } = self;
        pool.give_all();
    }
}

#[tactic(auto, using(crate::proofs::Rules::page_rules))]
impl Pages {
    /// Pages that read as zeros, with `frames` free frames. The memory of the frames is taken here, and touched as they are used.
    pub fn empty(alloc: Global, frames: u32) -> Result<Pages, AllocError>
        ensures pages { IfOk result (λ p. p ≡ pages_over (flat (λ _. 0)) frames) }
        ensures adds_up { IfOk result (λ p. AddUp p.frames) }
    {
        let table = Arc::new(alloc, PageTable::new(alloc)?)?;
        Pages::over(alloc, &table, frames)
    }

    /// The pages of a frozen state, with `peak` free frames, so that `peak` pages of it can be written.
    pub fn fork(alloc: Global, base: &Shared, peak: u32) -> Result<Pages, AllocError>
        ensures pages { IfOk result (λ p. p ≡ pages_over base.now.bytes peak) }
        ensures adds_up { IfOk result (λ p. AddUp p.frames) }
    {
        Pages::over(alloc, &base.table, peak)
    }

    // The pages of a table, with nothing over them.
    fn over(alloc: Global, table: &Arc<PageTable, Global>, frames: u32) -> Result<Pages, AllocError>
        ensures pages { IfOk result (λ p. p ≡ pages_over (flat (table_byte (arc_value table.now))) frames) }
        ensures adds_up { IfOk result (λ p. AddUp p.frames) }
    {
        Ok(Pages {
            alloc,
            base: Arc::try_clone(table)?,
            origin: Arc::try_clone(table)?,
            slots: SlotTable::new(alloc)?,
            pool: Pool::new(alloc, frames)?,
            written: 0,
        })
    }

    /// Byte `at` of a page.
    pub fn read(&self, page: u32, at: u32) -> u8
        requires page { page < 2 ^ 20 }
        requires at { at < 4096 }
        ensures { result ≡ slice_index self.now.flat_bytes (address_of page at) }
    {
        match self.page(page) {
            Some(bytes) => bytes[at as usize],
            None => 0,
        }
    }

    /// The `len` bytes of a page from its byte `at` on, looked up once. None where each of them is 0.
    #[inline(always)]
    pub fn slice(&self, page: u32, at: u32, len: usize) -> Option<&[u8]>
        requires page { page < 2 ^ 20 }
        requires range { at + len ≤ 4096 }
        ensures { MatchOption result ((i : ℕ) → i < len → slice_index self.now.flat_bytes (address_of page at + i) ≡ 0)
            (λ bytes. (length bytes.now ≡ len) × ((i : ℕ) → i < len → slice_index bytes.now i ≡ slice_index self.now.flat_bytes (address_of page at + i))) }
    {
        let from = at as usize;
        match self.page(page) {
            Some(bytes) => Some(&bytes[from..from + len]),
            None => None,
        }
    }

    // The bytes of a page. None where each of them is 0.
    #[inline(always)]
    fn page(&self, page: u32) -> Option<&[u8]>
        requires { page < 2 ^ 20 }
        ensures { MatchOption result ((i : ℕ) → i < 4096 → slice_index self.now.flat_bytes (address_of page i) ≡ 0)
            (λ bytes. (length bytes.now ≡ 4096) × ((i : ℕ) → i < 4096 → slice_index bytes.now i ≡ slice_index self.now.flat_bytes (address_of page i))) }
    {
        match page_of(&self.base, &self.slots, &self.pool, page) {
            Some(bytes) => Some(bytes),
            None => None,
        }
    }

    /// Writes bytes into a page, from its byte `at` on. The page takes a frame, unless it has one.
    #[inline(always)]
    pub fn write(&mut self, page: u32, at: u32, bytes: &[u8])
        requires page { page < 2 ^ 20 }
        requires range { at + length bytes.now ≤ 4096 }
        requires frame { HasFrame self.old.frames page }
        ensures bytes { PutsBytes self.old.flat_bytes self.new.flat_bytes (address_of page at) bytes.now }
        ensures len { length self.new.flat_bytes ≡ 2 ^ 32 }
        ensures origin { self.new.origin ≡ self.old.origin }
        ensures changed { self.new.changed ≡ slice_set self.old.changed page true }
        ensures frames { TakesFrame self.old.frames self.new.frames page }
        ensures adds_up { AddUp self.new.frames }
    {
        self.claim(page);
        write(&self.slots, &mut self.pool, page, at, bytes);
    }

    // Gives the page a frame, unless it has one.
    #[inline(always)]
    fn claim(&mut self, page: u32)
        requires page { page < 2 ^ 20 }
        requires frame { HasFrame self.old.frames page }
        ensures bytes { self.new.flat_bytes ≡ self.old.flat_bytes }
        ensures origin { self.new.origin ≡ self.old.origin }
        ensures changed { self.new.changed ≡ slice_set self.old.changed page true }
        ensures frames { TakesFrame self.old.frames self.new.frames page }
        ensures framed { is_marked self.new.frames.framed page ≡ true }
    {
        if !has_frame(&self.slots, page) {
            self.written += lay_frame(&self.base, &mut self.slots, &mut self.pool, page);
        }
    }

    /// The page reads as zeros from now on, and its frame is free, if it has one. It still counts as written, if it was.
    pub fn drop_page(&mut self, page: u32)
        requires { page < 2 ^ 20 }
        ensures bytes { ClearsPage self.old.flat_bytes self.new.flat_bytes page }
        ensures len { length self.new.flat_bytes ≡ 2 ^ 32 }
        ensures origin { self.new.origin ≡ self.old.origin }
        ensures changed { self.new.changed ≡ slice_set self.old.changed page true }
        ensures frames { GivesFrameBack self.old.frames self.new.frames page }
        ensures adds_up { AddUp self.new.frames }
    {
        empty_page(&mut self.slots, &mut self.pool, page);
    }

    /// Puts bytes over pages that read as zeros, from byte `at` of a page on, and over those that follow. No frame is used and
    /// no page counts as written, but the next freeze names these pages as changed.
    pub fn place(&mut self, page: u32, at: u32, bytes: &[u8]) -> Result<(), AllocError>
        requires page { page < 2 ^ 20 }
        requires at { at < 4096 }
        requires end { address_of page at + length bytes.now ≤ 2 ^ 32 }
        requires unwritten { count_marked self.old.frames.written ≡ 0 }
        requires zeros { ReadAsZeros self.old.flat_bytes page (page_count at (length bytes.now)) }
        ensures bytes { OnOk result (PutsBytes self.old.flat_bytes self.new.flat_bytes (address_of page at) bytes.now) }
        ensures len { OnOk result (length self.new.flat_bytes ≡ 2 ^ 32) }
        ensures origin { self.new.origin ≡ self.old.origin }
        ensures changed { OnOk result (MarksPages self.old.changed self.new.changed page (page_count at (length bytes.now))) }
        ensures frames { self.new.frames ≡ self.old.frames }
        ensures unchanged { OnErr result (self.new ≡ self.old) }
    {
        self.place_from(4096 * page + at, bytes)
    }

    // Puts bytes over pages that read as zeros, from an address on.
    fn place_from(&mut self, from: u32, bytes: &[u8]) -> Result<(), AllocError>
        requires end { from + length bytes.now ≤ 2 ^ 32 }
        requires unwritten { count_marked self.old.frames.written ≡ 0 }
        requires zeros { ReadAsZeros self.old.flat_bytes (from / 4096) (page_count from (length bytes.now)) }
        ensures bytes { OnOk result (PutsBytes self.old.flat_bytes self.new.flat_bytes from bytes.now) }
        ensures len { OnOk result (length self.new.flat_bytes ≡ 2 ^ 32) }
        ensures origin { self.new.origin ≡ self.old.origin }
        ensures changed { OnOk result (MarksPages self.old.changed self.new.changed (from / 4096) (page_count from (length bytes.now))) }
        ensures frames { self.new.frames ≡ self.old.frames }
        ensures unchanged { OnErr result (self.new ≡ self.old) }
    {
        let table = placed_table(self.alloc, &self.base, from, bytes)?;
        self.base = Arc::new(self.alloc, table)?;
        mark_placed(&mut self.slots, from / 4096, end_page(from, bytes.len()));
        Ok(())
    }

    /// The pages as they are, for all time, with the pages named that were changed since the last freeze or fork. No page is
    /// changed from then on, and each frame is free. Pages and time are taken for what was changed.
    pub fn freeze(&mut self) -> Result<Shared, AllocError>
        ensures shared { IfOk result (λ s. s ≡ record { bytes = self.old.flat_bytes; changed = self.old.changed }) }
        ensures agree { IfOk result (λ s. AgreeOutside s.changed s.bytes self.old.origin) }
        ensures pages { OnOk result (self.new ≡ pages_over self.old.flat_bytes self.old.frames.count) }
        ensures adds_up { OnOk result (AddUp self.new.frames) }
        ensures unchanged { OnErr result (self.new ≡ self.old) }
    {
        let (table, changed) = frozen(self.alloc, &self.base, &self.slots, &self.pool)?;
        let table = Arc::new(self.alloc, table)?;
        let base = Arc::try_clone(&table)?;
        let origin = Arc::try_clone(&table)?;
        self.base = base;
        self.origin = origin;
        self.slots.clear();
        self.pool.give_all();
        self.written = 0;
        Ok(Shared { table, changed })
    }

    /// Whether all pages are those of `end`. Only those are compared that were changed since the fork from `base`, and those
    /// that `end` names as changed.
    pub fn same_as(&self, base: &Shared, end: &Shared) -> bool
        requires base { self.now.origin ≡ base.now.bytes }
        requires end { AgreeOutside end.now.changed end.now.bytes base.now.bytes }
        ensures { IsTrue result ↔ (self.now.flat_bytes ≡ end.now.bytes) }
    {
        same_listed(
            &self.base,
            &self.slots,
            &self.pool,
            &end.table,
            &end.changed,
        ) && same_changed(&self.base, &self.slots, &self.pool, &end.table)
    }

    /// How many frames are free.
    pub fn free(&self) -> u32
        ensures free { result ≡ self.now.frames.free }
        ensures adds_up { AddUp self.now.frames }
    {
        self.pool.free()
    }

    /// How many pages were written since the last freeze or fork, those included that were dropped.
    pub fn written(&self) -> u32
        ensures written { result ≡ count_marked self.now.frames.written }
        ensures enough { self.now.frames.count ≤ self.now.frames.free + result }
    {
        self.written
    }
}
