// What a position is known by.
ghost use Rattle.std.specs.Prelude.{◌≡◌, IsTrue, ◌↔◌};
ghost use Rattle.guest_model.specs.Bytes.{bytes_at};
ghost use Rattle.guest_model.specs.Machine.{register};
ghost use Rattle.guest_model.specs.Play.{spot};
ghost use Rattle.guest_model.specs.Tests.{IsQuickEqual, signature_of, stack_of};

use arrayvec::ArrayVec;
use guest_model::platform::SIGNATURE_BYTES;
use rv_machine::{Guest, Snapshot};
use std::marker::Model;

/// What a position is known by: pc, the record position, the registers, and the 256 bytes from the stack pointer on.
#[derive(Drop)]
pub struct Signature {
    pc: u32,
    calls: u64,
    registers: [u32; 32],
    stack: ArrayVec<u8, 256>,
}

impl Model for Signature {
    ghost use Rattle.std.specs.Prelude.{◌≡◌, length};
    ghost use Rattle.guest_model.specs.Tests.{SignatureFields};
    ghost use Rattle.guest_model.specs.declared.platform.TheConstants.{SIGNATURE_BYTES};

    ghost Value = { SignatureFields };

    ghost view = { λ s. record { pc = s.pc; calls = s.calls; registers = s.registers; stack = s.stack.items } };

    ghost invariant = { λ s. length s.stack.items ≡ SIGNATURE_BYTES };
}

// The bytes from the stack pointer on.
fn stack_of(at: &Snapshot) -> ArrayVec<u8, 256>
    ensures { result.items ≡ stack_of at.now.machine }
{
    let start = at.reg(2);
    let mut stack = ArrayVec::new();
    for i in 0..SIGNATURE_BYTES {
        stack.push(at.peek_byte(start.wrapping_add(i)));
    }
    stack
}

impl Signature {
    /// The signature of a snapshot's machine at this record position.
    pub fn of(at: &Snapshot, position: u64) -> Signature
        ensures { result ≡ signature_of (spot at.now.machine position) }
    {
        Signature {
            pc: at.pc(),
            calls: position,
            registers: *at.registers(),
            stack: stack_of(at),
        }
    }

    /// Whether pc, the record position, x10 and x15 are those of the guest at this record position.
    #[inline(always)]
    pub fn quick(&self, guest: &Guest, position: u64) -> bool
        ensures { IsTrue result ↔ IsQuickEqual self.now (signature_of (spot guest.now.machine position)) }
    {
        guest.pc() == self.pc
            && position == self.calls
            && guest.reg(10) == self.registers[10]
            && guest.reg(15) == self.registers[15]
    }

    /// Whether all registers are those of the guest.
    pub fn registers(&self, guest: &Guest) -> bool
        ensures { IsTrue result ↔ (guest.now.machine.registers ≡ self.now.registers) }
    {
        *guest.registers() == self.registers
    }

    /// Whether the bytes from the guest's stack pointer on are those of the signature.
    pub fn stack(&self, guest: &Guest) -> bool
        ensures { IsTrue result ↔ (stack_of guest.now.machine ≡ self.now.stack) }
    {
        let start = guest.reg(2);
        for i in 0..SIGNATURE_BYTES {
            if guest.space().peek_byte(start.wrapping_add(i)) != self.stack[i as usize] {
                return false;
            }
        }
        true
    }
}
