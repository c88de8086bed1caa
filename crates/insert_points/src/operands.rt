// What the arguments of a step's calls are read from.
ghost use Rattle.std.specs.Prelude.{◌≡◌, slice_index};

use crate::call::Arg;
use rv_isa::{Instr, Op, is_taken, mem_size};

/// A step before its instruction: what an argument is read from, beside the registers at the call's point.
#[derive(Clone, Copy)]
pub struct Operands {
    pub pc: u32,
    pub instr: Instr,
    /// The value of `rs1` before the instruction.
    pub a: u32,
    /// The value of `rs2` before the instruction.
    pub b: u32,
}

impl Operands {
    ghost use Rattle.std.specs.Prelude.{◌≡◌};
    ghost use Rattle.guest_model.specs.Effect.{even};
    ghost use Rattle.insert_points.specs.Arguments.{address_of, ahead_of, jumps, read_address, target_of, value_of, write_address};

    /// The value of `rs1` with the immediate, modulo 2^32.
    #[inline(always)]
    pub(crate) fn address(&self) -> u32
        ensures { result ≡ address_of self.now }
    {
        self.a.wrapping_add(self.instr.imm.cast_unsigned())
    }

    /// The pc with the immediate, modulo 2^32.
    #[inline(always)]
    pub(crate) fn ahead(&self) -> u32
        ensures { result ≡ ahead_of self.now }
    {
        self.pc.wrapping_add(self.instr.imm.cast_unsigned())
    }

    /// The value of `rs1` with the immediate, and its lowest bit cleared.
    #[inline(always)]
    pub(crate) fn even_address(&self) -> u32
        ensures { result ≡ even (address_of self.now) }
    {
        self.address() & !1
    }

    /// Whether the instruction goes elsewhere, if it completes: a jump, or a branch whose condition holds.
    #[inline(always)]
    pub fn jumps(&self) -> bool
        ensures { result ≡ jumps self.now }
    {
        match self.instr.op {
            Op::Jal | Op::Jalr => true,
            op => is_taken(op, self.a, self.b),
        }
    }

    #[inline(always)]
    fn read_address(&self) -> u32
        ensures { result ≡ read_address self.now.instr.op self.now }
    {
        match self.instr.op {
            Op::Lb | Op::Lh | Op::Lw | Op::Lbu | Op::Lhu => self.address(),
            Op::LrW | Op::AmoswapW | Op::AmoaddW | Op::AmoxorW | Op::AmoandW | Op::AmoorW =>
                self.address(),
            Op::AmominW | Op::AmomaxW | Op::AmominuW | Op::AmomaxuW => self.address(),
            _ => 0,
        }
    }

    #[inline(always)]
    fn write_address(&self) -> u32
        ensures { result ≡ write_address self.now.instr.op self.now }
    {
        match self.instr.op {
            Op::Sb | Op::Sh | Op::Sw => self.address(),
            Op::ScW | Op::AmoswapW | Op::AmoaddW | Op::AmoxorW | Op::AmoandW | Op::AmoorW =>
                self.address(),
            Op::AmominW | Op::AmomaxW | Op::AmominuW | Op::AmomaxuW => self.address(),
            _ => 0,
        }
    }

    #[inline(always)]
    fn target(&self) -> u32
        ensures { result ≡ target_of self.now.instr.op self.now }
    {
        match self.instr.op {
            Op::Jalr => self.even_address(),
            Op::Jal | Op::Beq | Op::Bne | Op::Blt | Op::Bge | Op::Bltu | Op::Bgeu => self.ahead(),
            _ => 0,
        }
    }

    /// The value of an argument, with the registers at the call's point.
    #[inline(always)]
    pub(crate) fn value(&self, arg: Arg, registers: &[u32; 32]) -> u32
        ensures { result ≡ value_of arg self.now registers.now }
    {
        match arg {
            Arg::InstPtr => self.pc,
            Arg::ReadEa => self.read_address(),
            Arg::WriteEa => self.write_address(),
            Arg::MemSize => mem_size(&self.instr) as u32,
            Arg::BranchTaken => u32::from(self.jumps()),
            Arg::Target => self.target(),
            Arg::Reg(n) => register(registers, n),
            Arg::Const(value) => value,
        }
    }
}

/// The register with this number, 0 past the last one.
#[inline(always)]
pub(crate) fn register(registers: &[u32; 32], n: u8) -> u32
    ensures { result ≡ slice_index registers.now n }
{
    match registers.get(n as usize) {
        Some(value) => *value,
        None => 0,
    }
}
