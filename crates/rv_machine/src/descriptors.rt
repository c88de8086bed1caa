// The files that a guest has open, in fixed room.
ghost use Rattle.std.specs.Prelude.{◌≡◌, ◌<◌, ◌≤◌, ◌-◌, IsTrue, ◌↔◌, [], length, take};
ghost use Rattle.std.specs.Prelude.{MatchOption, IfSome, IsSome, None, Some, slice_set};
ghost use Rattle.std.specs.Option.{option_map, is_some};
ghost use Rattle.guest_model.specs.Descriptors.{file_at, least_closed, first_closed, opened_at, closed, advanced, all_closed};
ghost use Rattle.rv_machine.specs.Slots.{file_of};

use arrayvec::ArrayString;
use guest_model::platform::{FIRST_FILE, MOST_FILES, MOST_NAME};
use std::marker::Model;

// One descriptor. It is closed where the name is empty.
#[derive(Clone, Copy)]
struct Slot {
    name: ArrayString<MOST_NAME>,
    offset: u64,
}

impl Slot {
    fn closed() -> Slot
        ensures name { result.name.bytes ≡ [] }
        ensures offset { result.offset ≡ 0 }
    {
        Slot {
            name: ArrayString::new(),
            offset: 0,
        }
    }

    // Whether both are closed, or have the same name and place.
    fn same(&self, other: &Slot) -> bool
        ensures { IsTrue result ↔ (file_of self.now ≡ file_of other.now) }
    {
        self.name.as_str() == other.name.as_str()
            && (self.name.is_empty() || self.offset == other.offset)
    }
}

// The room of all.
#[derive(Clone, Copy)]
struct Slots {
    items: [Slot; MOST_FILES],
}

/// The files that a guest has open: sixteen descriptors from 3 on, each closed or with a name and an offset.
#[derive(Drop)]
pub(crate) struct Descriptors {
    slots: Slots,
}

impl Model for Descriptors {
    ghost use Rattle.std.specs.Prelude.{◌≡◌, length, map};
    ghost use Rattle.guest_model.specs.declared.platform.TheConstants.{MOST_FILES};
    ghost use Rattle.guest_model.specs.Descriptors.{Descriptors as Files, descriptors_code};
    ghost use Rattle.rv_machine.specs.Slots.{file_of};

    ghost Value = { Files };

    ghost coded = { descriptors_code };

    ghost view = { λ d. map file_of d.slots.items };

    ghost invariant = { λ d. length d.slots.items ≡ MOST_FILES };
}

impl Descriptors {
    /// All are closed.
    pub(crate) fn closed() -> Descriptors
        ensures { result ≡ all_closed }
    {
        Descriptors {
            slots: Slots {
                items: [Slot::closed(); MOST_FILES],
            },
        }
    }

    /// The same files at the same places.
    pub(crate) fn copied(&self) -> Descriptors
        ensures { result ≡ self.now }
    {
        Descriptors { slots: self.slots }
    }

    // What stands at the descriptor of an open file.
    fn open_at(&self, fd: u32) -> Option<&Slot>
        ensures file { MatchOption result (file_at self.now fd ≡ None) (λ slot. file_at self.now fd ≡ file_of slot.now) }
        ensures open { IfSome result (λ slot. 0 < length slot.now.name.bytes) }
        ensures within { IfSome result (λ _. (FIRST_FILE ≤ fd) × (fd - FIRST_FILE < MOST_FILES)) }
    {
        let place = fd.checked_sub(FIRST_FILE)?;
        let slot = self.slots.items.get(place as usize)?;
        if slot.name.is_empty() {
            return None;
        }
        Some(slot)
    }

    /// The place of the byte that is read next. None where the descriptor is closed.
    pub(crate) fn offset(&self, fd: u32) -> Option<u64>
        ensures { result ≡ option_map (λ f. f.offset) (file_at self.now fd) }
    {
        let slot = self.open_at(fd)?;
        Some(slot.offset)
    }

    /// The name of the file. None where the descriptor is closed.
    pub(crate) fn name(&self, fd: u32) -> Option<&str>
        ensures { MatchOption result (file_at self.now fd ≡ None) (λ name. option_map (λ f. f.name) (file_at self.now fd) ≡ Some name.now) }
    {
        let slot = self.open_at(fd)?;
        Some(slot.name.as_str())
    }

    // Puts this at a place.
    #[tactic(auto, using(crate::proofs::Slots::put_gives))]
    fn put(&mut self, place: usize, slot: Slot)
        requires { place < MOST_FILES }
        ensures { self.new ≡ slice_set self.old place (file_of slot) }
    {
        self.slots.items[place] = slot;
    }

    // The place of the first that is closed.
    fn first_closed(&self) -> Option<usize>
        ensures place { result ≡ first_closed self.now }
        ensures within { IfSome result (λ place. place < MOST_FILES) }
    {
        for place in 0..MOST_FILES {
            if self.slots.items[place].name.is_empty() {
                return Some(place);
            }
        }
        None
    }

    /// Opens the least descriptor that is closed, with this name, from the first byte on. None, with no change, where
    /// none is closed.
    #[tactic(auto, unfolding(guest_model::specs::Descriptors::least_closed))]
    pub(crate) fn open(&mut self, name: &str) -> Option<u32>
        requires some { 0 < length name.now }
        requires few { length name.now ≤ MOST_NAME }
        ensures number { result ≡ least_closed self.old }
        ensures files { self.new ≡ opened_at result name.now self.old }
    {
        let place = self.first_closed()?;
        let mut file = Slot::closed();
        file.name.push_str(name);
        self.put(place, file);
        Some(place as u32 + FIRST_FILE)
    }

    /// Closes a descriptor. False, with no change, where no file is open there.
    pub(crate) fn close(&mut self, fd: u32) -> bool
        ensures was { result ≡ is_some (file_at self.old fd) }
        ensures files { self.new ≡ closed self.old fd }
    {
        if self.open_at(fd).is_none() {
            return false;
        }
        self.put((fd - FIRST_FILE) as usize, Slot::closed());
        true
    }

    /// The next byte that is read of an open file is so many bytes further on, modulo 2^64.
    pub(crate) fn advance(&mut self, fd: u32, by: u32)
        ensures { self.new ≡ advanced self.old fd by }
    {
        let Some(slot) = self.open_at(fd) else {
            return;
        };
        let mut moved = *slot;
        moved.offset = moved.offset.wrapping_add(by as u64);
        self.put((fd - FIRST_FILE) as usize, moved);
    }

    /// Whether the same files are open at the same places.
    pub(crate) fn same(&self, other: &Descriptors) -> bool
        ensures { IsTrue result ↔ (self.now ≡ other.now) }
    {
        for k in 0..MOST_FILES {
            if !self.slots.items[k].same(&other.slots.items[k]) {
                return false;
            }
        }
        true
    }
}
