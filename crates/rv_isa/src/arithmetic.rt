// The arithmetic of the instructions that compute, and of the atomics.
ghost use Rattle.std.specs.Prelude.{◌≡◌};
ghost use Rattle.rv_isa.specs.Arithmetic.{alu_of, amo_of};

use crate::op::Op;

/// What an instruction that computes gives, or None for any other. `a` is the value of `rs1`; `b`
/// is that of `rs2`, or the immediate, sign extended, as 32 bits. A division by zero gives all
/// ones, its remainder the dividend.
#[inline(always)]
pub fn alu(op: Op, a: u32, b: u32) -> Option<u32>
    ensures { result ≡ alu_of op a b }
{
    let signed_a = a.cast_signed();
    let signed_b = b.cast_signed();
    match op {
        Op::Add | Op::Addi => Some(a.wrapping_add(b)),
        Op::Sub => Some(a.wrapping_sub(b)),
        Op::Sll | Op::Slli => Some(a << (b % 32)),
        Op::Slt | Op::Slti => Some(u32::from(signed_a < signed_b)),
        Op::Sltu | Op::Sltiu => Some(u32::from(a < b)),
        Op::Xor | Op::Xori => Some(a ^ b),
        Op::Srl | Op::Srli => Some(a >> (b % 32)),
        Op::Sra | Op::Srai => Some((signed_a >> (b % 32)).cast_unsigned()),
        Op::Or | Op::Ori => Some(a | b),
        Op::And | Op::Andi => Some(a & b),
        Op::Mul => Some(a.wrapping_mul(b)),
        Op::Mulh => Some((((signed_a as i64 * signed_b as i64).cast_unsigned()) >> 32) as u32),
        Op::Mulhsu => Some((((signed_a as i64 * b as i64).cast_unsigned()) >> 32) as u32),
        Op::Mulhu => Some(((a as u64 * b as u64) >> 32) as u32),
        Op::Div if b == 0 => Some(u32::MAX),
        Op::Div => Some(signed_a.wrapping_div(signed_b).cast_unsigned()),
        Op::Divu if b == 0 => Some(u32::MAX),
        Op::Divu => Some(a / b),
        Op::Rem if b == 0 => Some(a),
        Op::Rem => Some(signed_a.wrapping_rem(signed_b).cast_unsigned()),
        Op::Remu if b == 0 => Some(a),
        Op::Remu => Some(a % b),
        _ => None,
    }
}

/// What an atomic memory operation stores, from the word `v` that it read and the value `b` of rs2;
/// `b` where the instruction is none.
#[inline(always)]
pub fn amo(op: Op, v: u32, b: u32) -> u32
    ensures { result ≡ amo_of op v b }
{
    match op {
        Op::AmoaddW => v.wrapping_add(b),
        Op::AmoxorW => v ^ b,
        Op::AmoandW => v & b,
        Op::AmoorW => v | b,
        Op::AmominW if v.cast_signed() < b.cast_signed() => v,
        Op::AmomaxW if b.cast_signed() < v.cast_signed() => v,
        Op::AmominuW if v < b => v,
        Op::AmomaxuW if b < v => v,
        _ => b,
    }
}
