// Branches, loads, stores, block ends, and the kinds of jumps.
ghost use Rattle.std.specs.Prelude.{◌≡◌, ◌*◌, ◌^◌, ◌<◌};
ghost use Rattle.rv_isa.specs.Kinds.{is_taken, loaded_of, mem_size, ends_block, link_of};

use crate::instr::Instr;
use crate::op::Op;

/// What a jump does to the stack of return addresses. `PopPush` pops, then pushes.
#[derive(Clone, Copy, PartialEq, Eq)]
pub enum Link {
    None,
    Push,
    Pop,
    PopPush,
}

/// Whether an instruction is a branch that is taken where `rs1` holds `a` and `rs2` holds `b`.
pub fn is_taken(op: Op, a: u32, b: u32) -> bool
    ensures { result ≡ is_taken op a b }
{
    match op {
        Op::Beq => a == b,
        Op::Bne => a != b,
        Op::Blt => a.cast_signed() < b.cast_signed(),
        Op::Bge => a.cast_signed() >= b.cast_signed(),
        Op::Bltu => a < b,
        Op::Bgeu => a >= b,
        _ => false,
    }
}

/// What a load puts into its register, from the little-endian number of the bytes that it read.
#[inline(always)]
pub fn loaded(op: Op, value: u32) -> u32
    requires { value < 2 ^ (8 * mem_size op) }
    ensures { result ≡ loaded_of op value }
{
    match op {
        Op::Lb => ((value as u8).cast_signed() as i32).cast_unsigned(),
        Op::Lh => ((value as u16).cast_signed() as i32).cast_unsigned(),
        _ => value,
    }
}

/// How many bytes an instruction loads or stores: 1, 2 or 4, or 0 where it does neither. An atomic
/// has 4.
#[inline(always)]
pub fn mem_size(i: &Instr) -> u8
    ensures { result ≡ mem_size i.now.op }
{
    match i.op {
        Op::Lb | Op::Lbu | Op::Sb => 1,
        Op::Lh | Op::Lhu | Op::Sh => 2,
        Op::Lw | Op::Sw => 4,
        Op::LrW | Op::ScW | Op::AmoswapW | Op::AmoaddW | Op::AmoxorW | Op::AmoandW => 4,
        Op::AmoorW | Op::AmominW | Op::AmomaxW | Op::AmominuW | Op::AmomaxuW => 4,
        _ => 0,
    }
}

/// Whether an instruction ends a block: a branch, a jump, `ecall` or `ebreak`.
pub fn is_terminator(i: &Instr) -> bool
    ensures { result ≡ ends_block i.now.op }
{
    match i.op {
        Op::Jal | Op::Jalr | Op::Ecall | Op::Ebreak => true,
        Op::Beq | Op::Bne | Op::Blt | Op::Bge | Op::Bltu | Op::Bgeu => true,
        _ => false,
    }
}

/// What an instruction does to the stack of return addresses, by the manual's hints.
pub fn link_kind(i: &Instr) -> Link
    ensures { result ≡ link_of i.now.op i.now.rd i.now.rs1 }
{
    let rd_is_link = matches!(i.rd, 1 | 5);
    let rs1_is_link = matches!(i.rs1, 1 | 5);
    match i.op {
        Op::Jal if rd_is_link => Link::Push,
        Op::Jalr => match (rd_is_link, rs1_is_link) {
            (true, true) if i.rd != i.rs1 => Link::PopPush,
            (true, _) => Link::Push,
            (false, true) => Link::Pop,
            (false, false) => Link::None,
        },
        _ => Link::None,
    }
}
