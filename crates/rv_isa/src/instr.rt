// One instruction with its fields.
ghost use Rattle.std.specs.Prelude.{◌≡◌};
ghost use Rattle.rv_isa.specs.Table.{Fields, IsInstr};

use crate::op::Op;
use std::marker::Model;

/// An instruction. The registers `rd`, `rs1` and `rs2` are numbers below 32. The immediate `imm`
/// has its sign; a shift's is its amount, and that of `lui` and `auipc` is a multiple of 4,096.
/// Fields that its form lacks are 0.
#[derive(Clone, Copy, PartialEq, Eq)]
pub struct Instr {
    pub op: Op,
    pub rd: u8,
    pub rs1: u8,
    pub rs2: u8,
    pub imm: i32,
}

impl Model for Instr {
    ghost Value = { Fields };

    ghost view = { λ i. record { op = i.op; rd = i.rd; rs1 = i.rs1; rs2 = i.rs2; imm = i.imm } };

    ghost invariant = { λ i. IsInstr (record { op = i.op; rd = i.rd; rs1 = i.rs1; rs2 = i.rs2; imm = i.imm }) };

    ghost inverse = { λ f. record { op = f.op; rd = f.rd; rs1 = f.rs1; rs2 = f.rs2; imm = f.imm } };
}

impl Instr {
    // The instruction with these fields.
    pub(crate) fn new(op: Op, rd: u8, rs1: u8, rs2: u8, imm: i32) -> Self
        requires { IsInstr (record { op = op; rd = rd; rs1 = rs1; rs2 = rs2; imm = imm }) }
        ensures { result ≡ record { op = op; rd = rd; rs1 = rs1; rs2 = rs2; imm = imm } }
    {
        Instr {
            op,
            rd,
            rs1,
            rs2,
            imm,
        }
    }
}
