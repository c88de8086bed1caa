// Instructions by their form.
ghost use Rattle.std.specs.Prelude.{◌≡◌, pos};
ghost use Rattle.rv_isa.specs.Table.{IsInstr};
ghost use Rattle.prog_gen.specs.Instrs.{registers, immediate, store, branch, upper, jump, ecall};

use rv_isa::{Instr, Op};

// `op rd, rs1, rs2`
pub(crate) fn registers(op: Op, rd: u8, rs1: u8, rs2: u8) -> Instr
    requires { IsInstr (registers op rd rs1 rs2) }
    ensures { result ≡ registers op rd rs1 rs2 }
{
    Instr {
        op,
        rd,
        rs1,
        rs2,
        imm: 0,
    }
}

// `op rd, rs1, imm`
pub(crate) fn immediate(op: Op, rd: u8, rs1: u8, imm: i32) -> Instr
    requires { IsInstr (immediate op rd rs1 imm) }
    ensures { result ≡ immediate op rd rs1 imm }
{
    Instr {
        op,
        rd,
        rs1,
        rs2: 0,
        imm,
    }
}

// `op rs2, imm(rs1)`
pub(crate) fn store(op: Op, rs2: u8, imm: i32, rs1: u8) -> Instr
    requires { IsInstr (store op rs2 imm rs1) }
    ensures { result ≡ store op rs2 imm rs1 }
{
    Instr {
        op,
        rd: 0,
        rs1,
        rs2,
        imm,
    }
}

// A branch on two registers, so many bytes on.
pub(crate) fn branch(op: Op, rs1: u8, rs2: u8, imm: i32) -> Instr
    requires { IsInstr (branch op rs1 rs2 imm) }
    ensures { result ≡ branch op rs1 rs2 imm }
{
    Instr {
        op,
        rd: 0,
        rs1,
        rs2,
        imm,
    }
}

// `lui`, with the register's value.
pub(crate) fn upper(rd: u8, imm: i32) -> Instr
    requires { IsInstr (upper rd imm) }
    ensures { result ≡ upper rd imm }
{
    Instr {
        op: Op::Lui,
        rd,
        rs1: 0,
        rs2: 0,
        imm,
    }
}

// `jal`, so many bytes on.
pub(crate) fn jump(rd: u8, imm: i32) -> Instr
    requires { IsInstr (jump rd imm) }
    ensures { result ≡ jump rd imm }
{
    Instr {
        op: Op::Jal,
        rd,
        rs1: 0,
        rs2: 0,
        imm,
    }
}

// `ecall`
pub(crate) fn ecall() -> Instr
    ensures { result ≡ ecall }
{
    Instr {
        op: Op::Ecall,
        rd: 0,
        rs1: 0,
        rs2: 0,
        imm: 0,
    }
}
