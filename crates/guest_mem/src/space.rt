// A guest's memory.
ghost use Rattle.std.specs.Prelude.{[], ◌∷◌, ◌++◌, ◌≡◌, ◌≢◌, ℕ, ◌+◌, ◌-◌, ◌*◌, ◌/◌, ◌%◌, ◌^◌, ◌<◌};
ghost use Rattle.std.specs.Prelude.{◌≤◌, ◌⊎◌, true, false, length, IfOk, IfSome, MatchResult, OnOk, OnErr};
ghost use Rattle.std.specs.Prelude.{Some, None, IsTrue, ◌↔◌};
ghost use Rattle.guest_model.specs.Areas.{is_mapped, is_permitted, all_permitted};
ghost use Rattle.guest_model.specs.Areas.{is_range_permitted, holds, wrap};
ghost use Rattle.guest_model.specs.Bytes.{byte_at, bytes_at, put_bytes};
ghost use Rattle.guest_model.specs.Bytes.{number_of as number_of_bytes};
ghost use Rattle.guest_model.specs.Space.{read_number, write_number, with_bytes};
ghost use Rattle.guest_model.specs.Added.{empty_space, with_area, mapped_pages, area_size};
ghost use Rattle.guest_model.specs.Maps.{grow_of, grown, growth, map_of, map_area, mapped};
ghost use Rattle.guest_model.specs.Maps.{unmap_of, without_range, cut_areas};
ghost use Rattle.guest_model.specs.Valid.{IsSpace};
ghost use Rattle.cow_pages.specs.Marks.{count_marked, unmarked};
ghost use Rattle.guest_model.specs.Range.{range};
ghost use Rattle.guest_mem.specs.Code.{word_at};
ghost use Rattle.guest_mem.specs.Frames.{HasAllFrames, TakesFrames, GivesFramesBack};
ghost use Rattle.guest_mem.specs.Memory.{HasFramesWhereWritten, IsApart, IsChangedWithin, all_bytes, free_frames};

use crate::areas::{
    behind_heap, copied, cut_areas, end_at, mapped_pages, place_of, rounded_up, same_areas,
};
use crate::clear::clear_range;
use crate::code::KeptCode;
use crate::frozen::FrozenSpace;
use crate::number::{low_bytes, number_of};
use crate::rights::{Rights, RightsTable};
use arrayvec::ArrayVec;
use cow_pages::Pages;
use guest_model::platform::{
    EINVAL, ENOMEM, HEAP_START, MAPS_END, MAPS_START, MOST_AREAS, MOST_PAGES, PAGE_SIZE, failure,
};
use guest_model::{Access, Area};
use rv_isa::{Instr, decode};
use std::alloc::{AllocError, Global};
use std::marker::Model;

/// An access that the areas do not permit.
#[derive(Clone, Copy, PartialEq, Eq)]
pub struct Denied;

/// A guest's memory. Contracts see it as one flat map of bytes with its areas, and the frames of
/// its pages.
#[derive(Drop)]
pub struct Space {
    areas: ArrayVec<Area, MOST_AREAS>,
    heap_break: u32,
    next_map: u32,
    /// For each page, what the areas permit there.
    rights: RightsTable,
    pages: Pages,
    code: KeptCode,
}

impl Model for Space {
    ghost use Rattle.guest_mem.specs.Memory.{Memory, memory_code};

    ghost Value = { Memory };

    ghost coded = { memory_code };

    ghost use Rattle.guest_mem.specs.Mapped.{space_over};
    ghost use Rattle.guest_mem.specs.Code.{IsSoundWith};

    ghost view = { λ s. record {
      space = space_over s.areas.items s.pages.flat_bytes s.heap_break s.next_map;
      frames = s.pages.frames;
      origin = s.pages.origin;
      changed = s.pages.changed;
    } };

    ghost invariant = { λ s. IsSoundWith s.areas.items s.rights s.pages s.heap_break s.next_map s.code };
}

impl Space {
    /// A space that has the empty heap at `heap` alone, with `frames` free frames.
    pub fn empty(alloc: Global, heap: u32, frames: u32) -> Result<Space, AllocError>
        requires page { heap % PAGE_SIZE ≡ 0 }
        requires low { HEAP_START ≤ heap }
        requires high { heap ≤ MAPS_START }
        ensures space { IfOk result (λ m. m.space ≡ empty_space heap) }
        ensures frames { IfOk result (λ m. m.frames ≡ free_frames frames) }
        ensures origin { IfOk result (λ m. m.origin ≡ all_bytes m.space) }
        ensures changed { IfOk result (λ m. m.changed ≡ unmarked (2 ^ 20)) }
    {
        let pages = Pages::empty(alloc, frames)?;
        let rights = RightsTable::empty(alloc)?;
        let mut areas = ArrayVec::new();
        areas.push(Area {
            start: heap,
            end: heap,
            read: true,
            write: true,
            execute: false,
        });
        Ok(Space {
            areas,
            heap_break: heap,
            next_map: MAPS_START,
            rights,
            pages,
            code: KeptCode::none(alloc)?,
        })
    }

    /// The space as it is, which never changes from then on. It names the pages that were changed since the last
    /// freeze, and no page is named from then on: a second freeze names none. The space goes on as before, and all
    /// its frames are free. `Err`, with no change, where memory is lacking.
    pub fn freeze(&mut self) -> Result<FrozenSpace, AllocError>
        ensures frozen { IfOk result (λ f. f.space ≡ self.old.space) }
        ensures changed { IfOk result (λ f. IsChangedWithin f.changed self.old.origin f.space) }
        ensures named { IfOk result (λ f. f.changed ≡ self.old.changed) }
        ensures space { self.new.space ≡ self.old.space }
        ensures frames { OnOk result (self.new.frames ≡ free_frames self.old.frames.count) }
        ensures origin { OnOk result (self.new.origin ≡ all_bytes self.old.space) }
        ensures none_named { OnOk result (self.new.changed ≡ unmarked (2 ^ 20)) }
        ensures unchanged { OnErr result (self.new ≡ self.old) }
    {
        let code = self.code.share()?;
        let rights = self.rights.share()?;
        let pages = self.pages.freeze()?;
        Ok(FrozenSpace {
            areas: copied(&self.areas),
            heap_break: self.heap_break,
            next_map: self.next_map,
            rights,
            pages,
            code,
        })
    }

    /// A space that goes on from a frozen one, with `peak` free frames, so that `peak` pages of it can be
    /// written. No other fork sees what is written in it.
    pub fn fork(alloc: Global, from: &FrozenSpace, peak: u32) -> Result<Space, AllocError>
        ensures space { IfOk result (λ m. m.space ≡ from.now.space) }
        ensures frames { IfOk result (λ m. m.frames ≡ free_frames peak) }
        ensures origin { IfOk result (λ m. m.origin ≡ all_bytes from.now.space) }
        ensures none_named { IfOk result (λ m. m.changed ≡ unmarked (2 ^ 20)) }
    {
        let code = from.code.share()?;
        let rights = RightsTable::over(alloc, &from.rights)?;
        let pages = Pages::fork(alloc, &from.pages, peak)?;
        Ok(Space {
            areas: copied(&from.areas),
            heap_break: from.heap_break,
            next_map: from.next_map,
            rights,
            pages,
            code,
        })
    }

    /// Whether the space is that of `end`. Of the bytes only those are compared whose pages were changed since
    /// the fork from `base`, and those that `end` names as changed.
    pub fn same_as(&self, base: &FrozenSpace, end: &FrozenSpace) -> bool
        requires base { self.now.origin ≡ all_bytes base.now.space }
        requires end { IsChangedWithin end.now.changed (all_bytes base.now.space) end.now.space }
        ensures { IsTrue result ↔ (self.now.space ≡ end.now.space) }
    {
        self.has_layout_of(end) && self.pages.same_as(&base.pages, &end.pages)
    }

    /// Whether the areas, the end of the heap and the start of the next map are those of `end`.
    fn has_layout_of(&self, end: &FrozenSpace) -> bool
        ensures { IsTrue result ↔ ((self.now.space.areas ≡ end.now.space.areas)
            × (self.now.space.heap_break ≡ end.now.space.heap_break)
            × (self.now.space.next_map ≡ end.now.space.next_map)) }
    {
        self.heap_break == end.heap_break
            && self.next_map == end.next_map
            && same_areas(&self.areas, &end.areas)
    }

    /// The areas, ordered by start and then by end.
    pub fn areas(&self) -> &[Area]
        ensures areas { result.now ≡ self.now.space.areas }
        ensures valid { IsSpace self.now.space }
    {
        &self.areas
    }

    /// Where the heap ends.
    pub fn heap_break(&self) -> u32
        ensures { result ≡ self.now.space.heap_break }
    {
        self.heap_break
    }

    /// Where the next map starts.
    pub fn next_map(&self) -> u32
        ensures { result ≡ self.now.space.next_map }
    {
        self.next_map
    }

    /// How many pages were written since the last freeze, or since the space was made or forked, also those
    /// that are mapped no longer.
    pub fn written(&self) -> u32
        ensures written { result ≡ count_marked self.now.frames.written }
        ensures enough { self.now.frames.count ≤ self.now.frames.free + result }
        ensures framed { HasFramesWhereWritten self.now }
        ensures pages { (length self.now.frames.framed ≡ 2 ^ 20) × (length self.now.frames.written ≡ 2 ^ 20) }
    {
        self.pages.written()
    }

    /// How many frames are free.
    pub fn free(&self) -> u32
        ensures free { result ≡ self.now.frames.free }
        ensures adds_up { count_marked self.now.frames.framed + result ≡ self.now.frames.count }
    {
        self.pages.free()
    }

    /// The byte at an address, 0 where no area holds it.
    pub fn peek_byte(&self, at: u32) -> u8
        ensures { result ≡ byte_at self.now.space.bytes at }
    {
        self.pages.read(at / PAGE_SIZE, at % PAGE_SIZE)
    }

    /// Whether each of the `len` bytes from `at` on may be read. A range that passes 2^32 may not.
    pub fn readable(&self, at: u32, len: u32) -> bool
        ensures { result ≡ is_range_permitted Access.Read self.now.space.areas at len }
    {
        self.allows_range(Access::Read, at, len)
    }

    /// Whether each of the `len` bytes from `at` on may be written. A range that passes 2^32 may
    /// not.
    pub fn writable(&self, at: u32, len: u32) -> bool
        ensures { result ≡ is_range_permitted Access.Write self.now.space.areas at len }
    {
        self.allows_range(Access::Write, at, len)
    }

    /// The number of the `size` bytes from `at` on, modulo 2^32. Denied where one of them may not
    /// be read.
    #[inline(always)]
    pub fn load(&self, at: u32, size: u8) -> Result<u32, Denied>
        requires { (size ≡ 1) ⊎ ((size ≡ 2) ⊎ (size ≡ 4)) }
        ensures number { MatchResult result
            (λ v. read_number Access.Read self.now.space at size ≡ Some v)
            (λ _. read_number Access.Read self.now.space at size ≡ None) }
        ensures fits { IfOk result (λ v. v < 2 ^ (8 * size)) }
    {
        self.number(Access::Read, at, size)
    }

    /// The word at `at`. Denied where one of its bytes may not be executed.
    #[inline(always)]
    pub fn fetch(&self, at: u32) -> Result<u32, Denied>
        ensures { MatchResult result
            (λ v. read_number Access.Execute self.now.space at 4 ≡ Some v)
            (λ _. read_number Access.Execute self.now.space at 4 ≡ None) }
    {
        self.number(Access::Execute, at, 4)
    }

    /// The instruction of the word at `at`, or None where no row of the table has the word. Denied
    /// where one of its bytes may not be executed. Code that no store can change was decoded when it
    /// was added.
    #[inline(always)]
    pub fn instruction_at(&self, at: u32) -> Result<Option<Instr>, Denied>
        ensures { MatchResult result (λ i. word_at self.now.space at ≡ Some i)
            (λ _. word_at self.now.space at ≡ None) }
    {
        match self.kept_at(at) {
            Some(i) => Ok(Some(*i)),
            None => self.decode_at(at),
        }
    }

    /// The instruction at `at`, read in place where it is at hand. None says nothing of the word
    /// there.
    #[inline(always)]
    pub fn kept_at(&self, at: u32) -> Option<&Instr>
        ensures { IfSome result (λ i. word_at self.now.space at ≡ Some (Some i.now)) }
    {
        let i = self.code.last_at(at)?;
        Some(i)
    }

    /// The same as `instruction_at`, where the instruction is not at hand.
    #[inline(never)]
    fn decode_at(&self, at: u32) -> Result<Option<Instr>, Denied>
        ensures { MatchResult result (λ i. word_at self.now.space at ≡ Some i)
            (λ _. word_at self.now.space at ≡ None) }
    {
        if let Some(i) = self.code.other_at(at) {
            return Ok(Some(*i));
        }
        match self.fetch(at) {
            Ok(word) => Ok(decode(word)),
            Err(denied) => Err(denied),
        }
    }

    #[tactic(auto, unfolding(guest_model::specs::Space::read_number))]
    #[inline(always)]
    fn number(&self, access: Access, at: u32, size: u8) -> Result<u32, Denied>
        requires { (size ≡ 1) ⊎ ((size ≡ 2) ⊎ (size ≡ 4)) }
        ensures number { MatchResult result
            (λ v. read_number access self.now.space at size ≡ Some v)
            (λ _. read_number access self.now.space at size ≡ None) }
        ensures fits { IfOk result (λ v. v < 2 ^ (8 * size)) }
    {
        if !self.allows(access, at, size) {
            return Err(Denied);
        }
        if at % PAGE_SIZE <= 4096 - size as u32 {
            return Ok(self.number_in_page(at, size));
        }
        Ok(self.number_across(at, size))
    }

    /// The number of bytes that are all in one page, which is looked up once.
    #[inline(always)]
    fn number_in_page(&self, at: u32, size: u8) -> u32
        requires size { (size ≡ 1) ⊎ ((size ≡ 2) ⊎ (size ≡ 4)) }
        requires within { at % PAGE_SIZE + size ≤ 4096 }
        ensures number { result ≡ number_of_bytes (bytes_at self.now.space.bytes at size) }
        ensures fits { result < 2 ^ (8 * size) }
    {
        match self
            .pages
            .slice(at / PAGE_SIZE, at % PAGE_SIZE, size as usize)
        {
            None => 0,
            Some(bytes) => number_of(bytes),
        }
    }

    /// The number of 2 or 4 bytes, each of which is looked up.
    #[inline(never)]
    fn number_across(&self, at: u32, size: u8) -> u32
        requires { (size ≡ 1) ⊎ ((size ≡ 2) ⊎ (size ≡ 4)) }
        ensures number { result ≡ number_of_bytes (bytes_at self.now.space.bytes at size) }
        ensures fits { result < 2 ^ (8 * size) }
    {
        let mut bytes = [0; 4];
        for i in 0..size {
            bytes[i as usize] = self.peek_byte(at.wrapping_add(i as u32));
        }
        number_of(&bytes[..size as usize])
    }

    /// Whether the bytes of a page are in an area with the permission. An area is whole pages, and
    /// ends below the last page.
    fn allows_page(&self, access: Access, page: u32) -> bool
        requires { page < 2 ^ 20 }
        ensures permitted { (q : ℕ) → q / PAGE_SIZE ≡ page
            → result ≡ is_permitted access self.now.space.areas q }
        ensures below { result ≡ true → page < 0xFFFFF }
    {
        self.rights.allows(page, access)
    }

    /// Whether each of the `size` bytes from `at` on, modulo 2^32, is in an area with the
    /// permission. A page is looked up once.
    #[inline(always)]
    fn allows(&self, access: Access, at: u32, size: u8) -> bool
        requires { (size ≡ 1) ⊎ ((size ≡ 2) ⊎ (size ≡ 4)) }
        ensures permitted { result ≡ all_permitted access self.now.space.areas at size }
        ensures below { result ≡ true → at + size ≤ 2 ^ 32 }
    {
        if !self.allows_page(access, at / PAGE_SIZE) {
            return false;
        }
        if at % PAGE_SIZE <= 4096 - size as u32 {
            return true;
        }
        let last = at.wrapping_add(size as u32 - 1);
        self.allows_page(access, last / PAGE_SIZE)
    }

    fn allows_range(&self, access: Access, at: u32, len: u32) -> bool
        ensures { result ≡ is_range_permitted access self.now.space.areas at len }
    {
        let end = at as u64 + len as u64;
        if end > 1 << 32 {
            return false;
        }
        let mut from = at as u64;
        while from < end {
            if !self.allows_page(access, (from / PAGE_SIZE as u64) as u32) {
                return false;
            }
            from = (from / PAGE_SIZE as u64 + 1) * PAGE_SIZE as u64;
        }
        true
    }

    /// Stores the `size` low bytes of the value from `at` on, the lowest first. Denied, with no
    /// change, where one of them may not be written.
    #[tactic(auto, unfolding(guest_model::specs::Space::write_number))]
    #[inline(always)]
    pub fn store(&mut self, at: u32, size: u8, value: u32) -> Result<(), Denied>
        requires size { (size ≡ 1) ⊎ ((size ≡ 2) ⊎ (size ≡ 4)) }
        requires frames { all_permitted Access.Write self.old.space.areas at size ≡ true
            → HasAllFrames self.old.frames (range at size ∷ []) }
        ensures space { MatchResult result
            (λ _. write_number self.old.space at size value ≡ Some self.new.space)
            (λ _. write_number self.old.space at size value ≡ None) }
        ensures frames { OnOk result (TakesFrames self.old.frames self.new.frames (range at size ∷ [])) }
        ensures denied { OnErr result (self.new ≡ self.old) }
        ensures origin { self.new.origin ≡ self.old.origin }
    {
        if !self.allows(Access::Write, at, size) {
            return Err(Denied);
        }
        let bytes = low_bytes(value);
        let part = &bytes[..size as usize];
        if at % PAGE_SIZE <= 4096 - size as u32 {
            self.store_in_page(at, part);
        } else {
            self.store_bytes(at, part);
        }
        Ok(())
    }

    /// Puts the bytes from `at` on.
    pub fn put(&mut self, at: u32, bytes: &[u8])
        requires writable { is_range_permitted Access.Write self.old.space.areas at (length bytes.now) ≡ true }
        requires frames { HasAllFrames self.old.frames (range at (length bytes.now) ∷ []) }
        ensures space { self.new.space
            ≡ with_bytes self.old.space (put_bytes self.old.space.bytes at bytes.now) }
        ensures frames { TakesFrames self.old.frames self.new.frames (range at (length bytes.now) ∷ []) }
        ensures origin { self.new.origin ≡ self.old.origin }
    {
        self.store_bytes(at, bytes);
    }

    /// Stores bytes that may all be written, page by page.
    #[inline(never)]
    fn store_bytes(&mut self, at: u32, bytes: &[u8])
        requires end { at + length bytes.now ≤ 2 ^ 32 }
        requires writable { (i : ℕ) → i < length bytes.now
            → is_permitted Access.Write self.old.space.areas (at + i) ≡ true }
        requires frames { HasAllFrames self.old.frames (range at (length bytes.now) ∷ []) }
        ensures space { self.new.space
            ≡ with_bytes self.old.space (put_bytes self.old.space.bytes at bytes.now) }
        ensures frames { TakesFrames self.old.frames self.new.frames (range at (length bytes.now) ∷ []) }
        ensures origin { self.new.origin ≡ self.old.origin }
    {
        let mut done = 0;
        while done < bytes.len() {
            let to = at + done as u32;
            let part = (bytes.len() - done).min(4096 - (to % PAGE_SIZE) as usize);
            self.store_in_page(to, &bytes[done..done + part]);
            done += part;
        }
    }

    /// Stores bytes that are all in one page, which is looked up once.
    #[inline(always)]
    fn store_in_page(&mut self, at: u32, bytes: &[u8])
        requires some { 0 < length bytes.now }
        requires within { at % PAGE_SIZE + length bytes.now ≤ 4096 }
        requires writable { is_permitted Access.Write self.old.space.areas at ≡ true }
        requires frames { HasAllFrames self.old.frames (range at (length bytes.now) ∷ []) }
        ensures space { self.new.space
            ≡ with_bytes self.old.space (put_bytes self.old.space.bytes at bytes.now) }
        ensures frames { TakesFrames self.old.frames self.new.frames (range at (length bytes.now) ∷ []) }
        ensures origin { self.new.origin ≡ self.old.origin }
    {
        self.pages.write(at / PAGE_SIZE, at % PAGE_SIZE, bytes);
    }

    /// Adds an area that holds the given bytes from `at` on and zeros elsewhere. No frame is used,
    /// and no page counts as written. `Err` where memory is lacking, or where an empty area would
    /// stand within the heap.
    pub fn add_area(&mut self, area: Area, at: u32, bytes: &[u8]) -> Result<(), AllocError>
        requires unwritten { count_marked self.old.frames.written ≡ 0 }
        requires start { area.start % PAGE_SIZE ≡ 0 }
        requires end { area.end % PAGE_SIZE ≡ 0 }
        requires order { area.start ≤ area.end }
        requires apart { IsApart area self.old.space.areas }
        requires place { (area.end ≤ self.old.space.heap_break) ⊎ (MAPS_END ≤ area.start) }
        requires from { area.start ≤ at }
        requires within { at + length bytes.now ≤ area.end }
        requires areas { length self.old.space.areas < MOST_AREAS }
        requires pages { mapped_pages self.old.space.areas + area_size area / PAGE_SIZE ≤ MOST_PAGES }
        ensures space { OnOk result (self.new.space ≡ with_area self.old.space area at bytes.now) }
        ensures frames { self.new.frames ≡ self.old.frames }
        ensures unchanged { OnErr result (self.new ≡ self.old) }
        ensures origin { self.new.origin ≡ self.old.origin }
    {
        let place = place_of(&self.areas, &area);
        let behind = behind_heap(&self.areas);
        if area.end <= MAPS_START && behind <= place {
            return Err(AllocError);
        }
        let code = self.code.with(&area, at, bytes)?;
        self.pages.place(at / PAGE_SIZE, at % PAGE_SIZE, bytes)?;
        self.code = code;
        self.areas.insert(place, area);
        self.rights.fill(
            area.start / PAGE_SIZE,
            area.end / PAGE_SIZE,
            Rights::of(&area),
        );
        Ok(())
    }

    /// The call brk: the heap ends at `to` from now on, where that is no lower than before and at
    /// most MAPS_START, and at most 16,384 pages are mapped then. New bytes are 0. The result is
    /// where the heap ends. No frame is used.
    #[tactic(auto, unfolding(guest_model::specs::Maps::grow_of))]
    pub fn grow_break(&mut self, to: u32) -> u32
        ensures result { result ≡ (grow_of self.old.space to).answer }
        ensures space { self.new.space ≡ (grow_of self.old.space to).space }
        ensures frames { self.new.frames ≡ self.old.frames }
        ensures origin { self.new.origin ≡ self.old.origin }
    {
        if to < self.heap_break || to > MAPS_START {
            return self.heap_break;
        }
        let growth = rounded_up(to as u64) - rounded_up(self.heap_break as u64);
        if mapped_pages(&self.areas) + growth / PAGE_SIZE as u64 > MOST_PAGES as u64 {
            return self.heap_break;
        }
        self.extend_heap(to);
        to
    }

    /// Ends the heap at `to`.
    fn extend_heap(&mut self, to: u32)
        requires order { self.old.space.heap_break ≤ to }
        requires high { to ≤ MAPS_START }
        requires pages { mapped_pages self.old.space.areas + growth self.old.space to / PAGE_SIZE ≤ MOST_PAGES }
        ensures space { self.new.space ≡ grown self.old.space to }
        ensures frames { self.new.frames ≡ self.old.frames }
        ensures origin { self.new.origin ≡ self.old.origin }
    {
        let place = behind_heap(&self.areas) - 1;
        let heap = self.areas[place];
        let added = Area {
            start: heap.end,
            end: rounded_up(to as u64) as u32,
            ..heap
        };
        end_at(&mut self.areas, place, added.end);
        self.rights.fill(
            added.start / PAGE_SIZE,
            added.end / PAGE_SIZE,
            Rights::of(&added),
        );
        self.heap_break = to;
    }

    /// The call mmap2: a new area of `len` bytes of zeros, rounded up to whole pages, for private
    /// and anonymous maps that may not be executed. The result is where it starts, or EINVAL or
    /// ENOMEM as a call's result. No frame is used.
    #[tactic(auto, unfolding(guest_model::specs::Maps::map_of))]
    pub fn map(&mut self, len: u32, prot: u32, flags: u32) -> u32
        ensures result { result ≡ (map_of self.old.space len prot flags).answer }
        ensures space { self.new.space ≡ (map_of self.old.space len prot flags).space }
        ensures frames { self.new.frames ≡ self.old.frames }
        ensures origin { self.new.origin ≡ self.old.origin }
    {
        if len == 0 || flags & 0x33 != 0x22 || prot & 4 != 0 {
            return failure(EINVAL);
        }
        let size = rounded_up(len as u64);
        if self.next_map as u64 + size > MAPS_END as u64 {
            return failure(ENOMEM);
        }
        if mapped_pages(&self.areas) + size / PAGE_SIZE as u64 > MOST_PAGES as u64 {
            return failure(ENOMEM);
        }
        if self.areas.is_full() {
            return failure(ENOMEM);
        }
        self.add_map(size as u32, prot)
    }

    /// Adds an area of so many bytes of zeros at the next map address.
    fn add_map(&mut self, size: u32, prot: u32) -> u32
        requires some { 0 < size }
        requires whole { size % PAGE_SIZE ≡ 0 }
        requires end { self.old.space.next_map + size ≤ MAPS_END }
        requires pages { mapped_pages self.old.space.areas + size / PAGE_SIZE ≤ MOST_PAGES }
        requires room { length self.old.space.areas < MOST_AREAS }
        ensures result { result ≡ self.old.space.next_map }
        ensures space { self.new.space ≡ mapped self.old.space size prot }
        ensures frames { self.new.frames ≡ self.old.frames }
        ensures origin { self.new.origin ≡ self.old.origin }
    {
        let start = self.next_map;
        let end = start + size;
        let area = Area {
            start,
            end,
            read: prot & 3 != 0,
            write: prot & 2 != 0,
            execute: false,
        };
        let place = place_of(&self.areas, &area);
        self.areas.insert(place, area);
        self.rights
            .fill(start / PAGE_SIZE, end / PAGE_SIZE, Rights::of(&area));
        self.next_map = end;
        start
    }

    /// The call munmap: unmaps the pages of a range of `len` bytes, rounded up to whole pages,
    /// where maps may stand. Pages of it that are not mapped are no fault. The result is 0, or
    /// EINVAL or ENOMEM as a call's result. The frames of the pages are free again.
    #[tactic(auto, unfolding(guest_model::specs::Maps::unmap_of))]
    pub fn unmap(&mut self, at: u32, len: u32) -> u32
        ensures result { result ≡ (unmap_of self.old.space at len).answer }
        ensures space { self.new.space ≡ (unmap_of self.old.space at len).space }
        ensures frames { result ≡ 0
            → GivesFramesBack self.new.space.areas self.old.frames self.new.frames }
        ensures kept { result ≢ 0 → self.new ≡ self.old }
        ensures origin { self.new.origin ≡ self.old.origin }
    {
        if at % PAGE_SIZE != 0 || len == 0 {
            return failure(EINVAL);
        }
        let end = at as u64 + rounded_up(len as u64);
        if at < MAPS_START || end > MAPS_END as u64 {
            return failure(EINVAL);
        }
        let Some(left) = cut_areas(&self.areas, at, end as u32) else {
            return failure(ENOMEM);
        };
        self.replace_areas(left, at, end as u32);
        0
    }

    /// Gives the pages of the range back, and has the areas that are left.
    fn replace_areas(&mut self, left: ArrayVec<Area, MOST_AREAS>, from: u32, to: u32)
        requires left { left.items ≡ cut_areas from to self.old.space.areas }
        requires from { from % PAGE_SIZE ≡ 0 }
        requires to { to % PAGE_SIZE ≡ 0 }
        requires low { MAPS_START ≤ from }
        requires order { from ≤ to }
        requires high { to ≤ MAPS_END }
        ensures space { self.new.space ≡ without_range self.old.space from to }
        ensures frames { GivesFramesBack self.new.space.areas self.old.frames self.new.frames }
        ensures origin { self.new.origin ≡ self.old.origin }
    {
        clear_range(&self.areas, from, to, &mut self.pages, &mut self.rights);
        self.areas = left;
    }
}
