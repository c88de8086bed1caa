// From instructions to words.
ghost use Rattle.std.specs.Prelude.{◌≡◌, ◌≢◌, ℕ, ◌+◌, ◌*◌, ◌<◌, ◌^◌};
ghost use Rattle.rv_isa.specs.Word.{bits};
ghost use Rattle.rv_isa.specs.Table.{Decodes, HasPlainBits, row_of};
ghost use Rattle.rv_isa.specs.Forms.{HasFields};

use crate::instr::Instr;
use crate::op::{Form, Op};
use crate::word::bits;

/// The word of an instruction. The ignored fields of `fence` are those of a fence of all accesses
/// before all after, and the ignored bits of an atomic are 0.
pub fn encode(i: &Instr) -> u32
    ensures row { Decodes result i.now }
    ensures only { (word : ℕ) → Decodes word i.now → HasPlainBits (row_of i.now.op) word → word ≡ result }
    ensures plain { i.now.op ≢ Op.Fence → HasPlainBits (row_of i.now.op) result }
    ensures fence { i.now.op ≡ Op.Fence → result ≡ 0x0FF0000F }
{
    word_of(i)
}

// A word that decodes to the instruction.
fn word_of(i: &Instr) -> u32
    ensures row { Decodes result i.now }
    ensures plain { i.now.op ≢ Op.Fence → HasPlainBits (row_of i.now.op) result }
    ensures fence { i.now.op ≡ Op.Fence → result ≡ 0x0FF0000F }
{
    match i.op {
        Op::Fence => return 0x0FF0000F,
        Op::Ecall => return 0x00000073,
        Op::Ebreak => return 0x00100073,
        _ => {}
    }
    let (opcode, f3, f7) = (i.op.opcode(), i.op.f3(), i.op.f7());
    let (rd, rs1, rs2) = (i.rd as u32, i.rs1 as u32, i.rs2 as u32);
    let imm = i.imm.cast_unsigned();
    match i.op.form() {
        Form::R => join(opcode, rd, f3, rs1, rs2, f7),
        Form::I => join(opcode, rd, f3, rs1, bits(imm, 4, 0), bits(imm, 11, 5)),
        Form::Shift => join(opcode, rd, f3, rs1, imm, f7),
        Form::S => join(opcode, bits(imm, 4, 0), f3, rs1, rs2, bits(imm, 11, 5)),
        Form::B => {
            let low = (bits(imm, 4, 1) << 1) + bits(imm, 11, 11);
            let high = (bits(imm, 12, 12) << 6) + bits(imm, 10, 5);
            join(opcode, low, f3, rs1, rs2, high)
        }
        Form::U => {
            let (low, middle) = (bits(imm, 14, 12), bits(imm, 19, 15));
            let (upper, top) = (bits(imm, 24, 20), bits(imm, 31, 25));
            join(opcode, rd, low, middle, upper, top)
        }
        Form::J => {
            let (low, middle) = (bits(imm, 14, 12), bits(imm, 19, 15));
            let top = (bits(imm, 20, 20) << 6) + bits(imm, 10, 5);
            let turned = (bits(imm, 4, 1) << 1) + bits(imm, 11, 11);
            join(opcode, rd, low, middle, turned, top)
        }
        Form::Atomic => join(opcode, rd, f3, rs1, rs2, f7),
        Form::Reserve => join(opcode, rd, f3, rs1, 0, f7),
        Form::Bare => unreachable!(),
    }
}

// The word with these six fields.
fn join(opcode: u32, rd: u32, f3: u32, rs1: u32, rs2: u32, f7: u32) -> u32
    requires in_opcode { opcode < 2 ^ 7 }
    requires in_rd { rd < 2 ^ 5 }
    requires in_f3 { f3 < 2 ^ 3 }
    requires in_rs1 { rs1 < 2 ^ 5 }
    requires in_rs2 { rs2 < 2 ^ 5 }
    requires in_f7 { f7 < 2 ^ 7 }
    ensures { HasFields result opcode rd f3 rs1 rs2 f7 }
{
    opcode + (rd << 7) + (f3 << 12) + (rs1 << 15) + (rs2 << 20) + (f7 << 25)
}
