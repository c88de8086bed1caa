// Words that are kept decoded.
ghost use Rattle.std.specs.Prelude.{◌≡◌};
ghost use Rattle.rv_isa.specs.Decoded.{decoded};

use crate::decoder::decode;
use crate::instr::Instr;
use crate::op::Op;
use std::marker::Model;
use std::mem::size_of;

// Where the register `rd` of an instruction stands, the mark of a word that has none: no register
// has this number.
const NO_INSTRUCTION: u8 = 32;

/// What a word decodes to: an instruction, or that no row of the table has the word. It takes 8
/// bytes, so that a table of them is read with one access.
#[derive(Drop)]
pub struct DecodedWord {
    op: Op,
    rd: u8,
    rs1: u8,
    rs2: u8,
    imm: i32,
}

const _: () = prove!(size_of::<DecodedWord>() == 8);

impl Model for DecodedWord {
    ghost use Rattle.std.specs.Prelude.{Option, IfSome};
    ghost use Rattle.rv_isa.specs.Table.{Fields, IsInstr};

    ghost Value = { Option Fields };

    ghost use Rattle.rv_isa.specs.Kept.{kept};

    ghost view = { λ w. kept w.op w.rd w.rs1 w.rs2 w.imm };

    ghost invariant = { λ w. IfSome (kept w.op w.rd w.rs1 w.rs2 w.imm) IsInstr };
}

impl DecodedWord {
    /// The word, decoded.
    pub fn of(word: u32) -> DecodedWord
        ensures { result ≡ decoded word }
    {
        match decode(word) {
            Some(i) => DecodedWord {
                op: i.op,
                rd: i.rd,
                rs1: i.rs1,
                rs2: i.rs2,
                imm: i.imm,
            },
            None => DecodedWord {
                op: Op::Fence,
                rd: NO_INSTRUCTION,
                rs1: 0,
                rs2: 0,
                imm: 0,
            },
        }
    }

    /// The instruction, if the word has one.
    #[inline(always)]
    pub fn instr(&self) -> Option<Instr>
        ensures { result ≡ self.now }
    {
        if self.rd == NO_INSTRUCTION {
            return None;
        }
        Some(Instr {
            op: self.op,
            rd: self.rd,
            rs1: self.rs1,
            rs2: self.rs2,
            imm: self.imm,
        })
    }
}
