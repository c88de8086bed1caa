// A guest's machine as it was at one moment.
ghost use Rattle.std.specs.Prelude.{◌≡◌, ◌<◌, ◌^◌, IsTrue, ◌↔◌, IfOk, OnOk, OnErr};
ghost use Rattle.cow_pages.specs.Marks.{unmarked};
ghost use Rattle.guest_model.specs.Bytes.{byte_at};
ghost use Rattle.guest_model.specs.Machine.{register};
ghost use Rattle.guest_mem.specs.Memory.{IsChangedWithin, all_bytes, free_frames};
ghost use Rattle.rv_machine.specs.Snapshot.{guest_from};

use crate::descriptors::Descriptors;
use crate::guest::Guest;
use guest_mem::{FrozenSpace, Space};
use std::alloc::{AllocError, Global};
use std::marker::Model;

/// A guest's machine as it was at one moment. It never changes, and shares the pages that the guest does
/// not write.
#[derive(Drop)]
pub struct Snapshot {
    pc: u32,
    registers: [u32; 32],
    memory: FrozenSpace,
    fresh: bool,
    reservation: Option<u32>,
    descriptors: Descriptors,
}

impl Model for Snapshot {
    ghost use Rattle.std.specs.Prelude.{◌≡◌, slice_index};
    ghost use Rattle.rv_machine.specs.Snapshot.{SnapshotState, snapshot_code};

    ghost Value = { SnapshotState };

    ghost coded = { snapshot_code };

    ghost view = { λ s. record {
      machine = record {
        pc = s.pc;
        registers = s.registers;
        space = s.memory.space;
        fresh = s.fresh;
        reservation = s.reservation;
        descriptors = s.descriptors;
      };
      changed = s.memory.changed;
    } };

    ghost invariant = { λ s. slice_index s.registers 0 ≡ 0 };
}

impl Snapshot {
    /// The address of the next instruction.
    pub fn pc(&self) -> u32
        ensures { result ≡ self.now.machine.pc }
    {
        self.pc
    }

    /// The value of register `n`.
    pub fn reg(&self, n: u8) -> u32
        requires { n < 32 }
        ensures { result ≡ register self.now.machine n }
    {
        self.registers[n as usize]
    }

    /// The registers, from x0 on.
    pub fn registers(&self) -> &[u32; 32]
        ensures { result.now ≡ self.now.machine.registers }
    {
        &self.registers
    }

    /// Whether the last instruction ended a block, or none has run.
    pub fn fresh(&self) -> bool
        ensures { result ≡ self.now.machine.fresh }
    {
        self.fresh
    }

    /// The byte at an address, 0 where no area held it.
    pub fn peek_byte(&self, at: u32) -> u8
        ensures { result ≡ byte_at self.now.machine.space.bytes at }
    {
        self.memory.peek_byte(at)
    }
}

impl Guest {
    /// The machine as it is, which never changes from then on. It names the pages that were changed since the last
    /// snapshot, so that a second one of the same state names none. The guest goes on as before, and all its frames
    /// are free. `Err`, with no change, where memory is lacking.
    pub fn snapshot(&mut self) -> Result<Snapshot, AllocError>
        ensures snapshot { IfOk result (λ s. s ≡ record { machine = self.old.machine; changed = self.old.changed }) }
        ensures changed { IfOk result (λ s. IsChangedWithin s.changed self.old.origin s.machine.space) }
        ensures machine { self.new.machine ≡ self.old.machine }
        ensures frames { OnOk result (self.new.frames ≡ free_frames self.old.frames.count) }
        ensures origin { OnOk result (self.new.origin ≡ all_bytes self.old.machine.space) }
        ensures none_named { OnOk result (self.new.changed ≡ unmarked (2 ^ 20)) }
        ensures unchanged { OnErr result (self.new ≡ self.old) }
    {
        let memory = self.memory.freeze()?;
        Ok(Snapshot {
            pc: self.pc,
            registers: self.registers,
            memory,
            fresh: self.fresh,
            reservation: self.reservation,
            descriptors: self.descriptors.copied(),
        })
    }

    /// A guest that goes on from a snapshot, with `peak` free frames, so that it can write `peak` pages. What it
    /// writes is seen by no other guest and no snapshot. `Err` where memory is lacking.
    pub fn from_snapshot(alloc: Global, from: &Snapshot, peak: u32) -> Result<Guest, AllocError>
        ensures { IfOk result (λ guest. guest ≡ guest_from from.now peak) }
    {
        let memory = Space::fork(alloc, &from.memory, peak)?;
        Ok(Guest {
            pc: from.pc,
            registers: from.registers,
            memory,
            fresh: from.fresh,
            reservation: from.reservation,
            descriptors: from.descriptors.copied(),
        })
    }

    /// Whether the machine is that of `end`. Of the bytes only those are compared whose pages were changed since the
    /// guest was made from `base`, and those that `end` names as changed.
    pub fn same_as(&self, base: &Snapshot, end: &Snapshot) -> bool
        requires base { self.now.origin ≡ all_bytes base.now.machine.space }
        requires end { IsChangedWithin end.now.changed (all_bytes base.now.machine.space) end.now.machine.space }
        ensures { IsTrue result ↔ (self.now.machine ≡ end.now.machine) }
    {
        self.pc == end.pc
            && self.fresh == end.fresh
            && self.reservation == end.reservation
            && self.registers == end.registers
            && self.descriptors.same(&end.descriptors)
            && self.memory.same_as(&base.memory, &end.memory)
    }
}

// Takes only what can be moved between threads.
fn movable<T: Send>(_value: &T) {}

// A snapshot can.
fn movable_snapshot(snapshot: &Snapshot) {
    movable(snapshot);
}
