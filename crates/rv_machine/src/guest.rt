// The machine with its memory.
ghost use Rattle.std.specs.Prelude.{◌≡◌, ◌<◌, ◌≤◌, length, None, Some, IsSome, MatchOption};
ghost use Rattle.std.specs.Option.{option_map, is_some};
ghost use Rattle.std.specs.Borrow.{sem};
ghost use Rattle.guest_model.specs.Machine.{register, instruction_at};
ghost use Rattle.guest_model.specs.Call.{finished};
ghost use Rattle.guest_model.specs.Descriptors.{file_at, least_closed, opened_at, closed, advanced};
ghost use Rattle.rv_machine.specs.Guest.{memory_of, with_descriptors};
ghost use Rattle.rv_machine.specs.Lending.{LendsMemory};

use crate::descriptors::Descriptors;
use guest_mem::Space;
use guest_model::platform::MOST_NAME;
use rv_isa::Instr;
use std::marker::Model;

/// A guest's machine. Contracts see it as one value: pc, registers, memory, whether its last
/// instruction ended a block, the address that is reserved, and the open files.
#[derive(Drop)]
pub struct Guest {
    pub(crate) pc: u32,
    pub(crate) registers: [u32; 32],
    pub(crate) memory: Space,
    pub(crate) fresh: bool,
    pub(crate) reservation: Option<u32>,
    pub(crate) descriptors: Descriptors,
}

impl Model for Guest {
    ghost use Rattle.std.specs.Prelude.{◌≡◌, slice_index};
    ghost use Rattle.rv_machine.specs.Guest.{GuestState, guest_code};

    ghost Value = { GuestState };

    ghost coded = { guest_code };

    ghost view = { λ g. record {
      machine = record {
        pc = g.pc;
        registers = g.registers;
        space = g.memory.space;
        fresh = g.fresh;
        reservation = g.reservation;
        descriptors = g.descriptors;
      };
      frames = g.memory.frames;
      origin = g.memory.origin;
      changed = g.memory.changed;
    } };

    ghost invariant = { λ g. slice_index g.registers 0 ≡ 0 };
}

impl Guest {
    /// The address of the next instruction.
    pub fn pc(&self) -> u32
        ensures { result ≡ self.now.machine.pc }
    {
        self.pc
    }

    /// The value of register `n`.
    pub fn reg(&self, n: u8) -> u32
        requires { n < 32 }
        ensures { result ≡ register self.now.machine n }
    {
        self.registers[n as usize]
    }

    /// The registers, from x0 on.
    pub fn registers(&self) -> &[u32; 32]
        ensures { result.now ≡ self.now.machine.registers }
    {
        &self.registers
    }

    /// Whether the last instruction ended a block, or none has run.
    pub fn fresh(&self) -> bool
        ensures { result ≡ self.now.machine.fresh }
    {
        self.fresh
    }

    /// The address that lr.w reserved. None where nothing is reserved.
    pub fn reserved(&self) -> Option<u32>
        ensures { result ≡ self.now.machine.reservation }
    {
        self.reservation
    }

    /// The place of the byte that is read next of the file that is open at a descriptor, modulo 2^64. None exactly where
    /// the descriptor isn't open.
    pub fn descriptor(&self, fd: u32) -> Option<u64>
        ensures { result ≡ option_map (λ f. f.offset) (file_at self.now.machine.descriptors fd) }
    {
        self.descriptors.offset(fd)
    }

    /// The name of the file that is open at a descriptor. None exactly where the descriptor isn't open.
    pub fn descriptor_name(&self, fd: u32) -> Option<&str>
        ensures { MatchOption result (file_at self.now.machine.descriptors fd ≡ None)
            (λ name. option_map (λ f. f.name) (file_at self.now.machine.descriptors fd) ≡ Some name.now) }
    {
        self.descriptors.name(fd)
    }

    /// The instruction at pc. None where the fetch is denied or the word has no row in the table.
    pub fn peek(&self) -> Option<Instr>
        ensures { result ≡ instruction_at self.now.machine }
    {
        match self.memory.instruction_at(self.pc) {
            Ok(i) => i,
            Err(_) => None,
        }
    }

    /// The memory.
    pub fn space(&self) -> &Space
        ensures { result.now ≡ memory_of self.now }
    {
        &self.memory
    }

    /// The memory, to change it.
    pub fn space_mut(&mut self) -> &mut Space
        ensures* leaves { sem 𝓛 (LendsMemory self.entry result) }
        ensures memory { result.now ≡ memory_of self.old }
    {
        &mut self.memory
    }

    /// Opens the file of this name, of 1 to 255 bytes, at the least descriptor that is closed, from its first byte on,
    /// and answers the descriptor. None, with no change, exactly where no descriptor is closed.
    pub fn open_file(&mut self, name: &str) -> Option<u32>
        requires some { 0 < length name.now }
        requires few { length name.now ≤ MOST_NAME }
        ensures number { result ≡ least_closed self.old.machine.descriptors }
        ensures guest { self.new ≡ with_descriptors self.old (opened_at result name.now self.old.machine.descriptors) }
    {
        self.descriptors.open(name)
    }

    /// Closes a descriptor. False, with no change, exactly where it isn't open.
    pub fn close_file(&mut self, fd: u32) -> bool
        ensures open { result ≡ is_some (file_at self.old.machine.descriptors fd) }
        ensures guest { self.new ≡ with_descriptors self.old (closed self.old.machine.descriptors fd) }
    {
        self.descriptors.close(fd)
    }

    /// The byte that is read next at an open descriptor is so many bytes further on, modulo 2^64.
    pub fn advance(&mut self, fd: u32, by: u32)
        requires { IsSome (file_at self.old.machine.descriptors fd) }
        ensures { self.new ≡ with_descriptors self.old (advanced self.old.machine.descriptors fd by) }
    {
        self.descriptors.advance(fd, by);
    }

    /// Goes on behind the call at pc, with its result in x10. Nothing is reserved from then on.
    #[tactic(auto, unfolding(guest_model::specs::Call::finished))]
    pub fn finish_call(&mut self, answer: u32)
        ensures machine { self.new.machine ≡ finished self.old.machine answer }
        ensures frames { self.new.frames ≡ self.old.frames }
        ensures origin { self.new.origin ≡ self.old.origin }
    {
        self.registers[10] = answer;
        self.pc = self.pc.wrapping_add(4);
        self.fresh = true;
        self.reservation = None;
    }
}

// Takes only what can be moved between threads.
fn movable<T: Send>(_value: &T) {}

// A guest can.
fn movable_guest(guest: &Guest) {
    movable(guest);
}
