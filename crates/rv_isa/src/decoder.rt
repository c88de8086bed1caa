// From words to instructions: first the opcode, then the function fields.
ghost use Rattle.std.specs.Prelude.{◌≡◌, IfSome};
ghost use Rattle.rv_isa.specs.Word.{bits};
ghost use Rattle.rv_isa.specs.Table.{row_of, IsFixed, i_immediate, s_immediate, b_immediate};
ghost use Rattle.rv_isa.specs.Table.{u_immediate, j_immediate, Decodes, Fields};
ghost use Rattle.rv_isa.specs.Decoded.{decoded};
ghost use Rattle.rv_isa.specs.declared.op.Op.{Op};

use crate::instr::Instr;
use crate::op::{Form, Op};
use crate::word::{bits, sign_extend};

/// The instruction of a word, or None where no row of the table has it.
#[inline(always)]
pub fn decode(word: u32) -> Option<Instr>
    ensures found { IfSome result (λ i. Decodes word i) }
    ensures only { (i : Fields) → Decodes word i → result ≡ Some i }
    ensures value { result ≡ decoded word }
{
    let op = op_of(word)?;
    Some(fields(op, word))
}

// The name of the row that has the word.
#[inline(always)]
fn op_of(word: u32) -> Option<Op>
    ensures row { IfSome result (λ op. IsFixed (row_of op) word) }
    ensures only { (op : Op) → IsFixed (row_of op) word → result ≡ Some op }
{
    match bits(word, 6, 0) {
        0b0110111 => Some(Op::Lui),
        0b0010111 => Some(Op::Auipc),
        0b1101111 => Some(Op::Jal),
        0b1100111 if bits(word, 14, 12) == 0 => Some(Op::Jalr),
        0b1100011 => branch(word),
        0b0000011 => load(word),
        0b0100011 => store(word),
        0b0010011 => immediate(word),
        0b0110011 => register(word),
        0b0001111 if bits(word, 14, 12) == 0 => Some(Op::Fence),
        0b1110011 => environment(word),
        0b0101111 if bits(word, 14, 12) == 0b010 => atomic(word),
        _ => None,
    }
}

// The conditional branches.
fn branch(word: u32) -> Option<Op>
    requires { bits word 6 0 ≡ 0b1100011 }
    ensures row { IfSome result (λ op. IsFixed (row_of op) word) }
    ensures only { (op : Op) → IsFixed (row_of op) word → result ≡ Some op }
{
    match bits(word, 14, 12) {
        0b000 => Some(Op::Beq),
        0b001 => Some(Op::Bne),
        0b100 => Some(Op::Blt),
        0b101 => Some(Op::Bge),
        0b110 => Some(Op::Bltu),
        0b111 => Some(Op::Bgeu),
        _ => None,
    }
}

// The loads.
fn load(word: u32) -> Option<Op>
    requires { bits word 6 0 ≡ 0b0000011 }
    ensures row { IfSome result (λ op. IsFixed (row_of op) word) }
    ensures only { (op : Op) → IsFixed (row_of op) word → result ≡ Some op }
{
    match bits(word, 14, 12) {
        0b000 => Some(Op::Lb),
        0b001 => Some(Op::Lh),
        0b010 => Some(Op::Lw),
        0b100 => Some(Op::Lbu),
        0b101 => Some(Op::Lhu),
        _ => None,
    }
}

// The stores.
fn store(word: u32) -> Option<Op>
    requires { bits word 6 0 ≡ 0b0100011 }
    ensures row { IfSome result (λ op. IsFixed (row_of op) word) }
    ensures only { (op : Op) → IsFixed (row_of op) word → result ≡ Some op }
{
    match bits(word, 14, 12) {
        0b000 => Some(Op::Sb),
        0b001 => Some(Op::Sh),
        0b010 => Some(Op::Sw),
        _ => None,
    }
}

// The arithmetic of a register and an immediate.
fn immediate(word: u32) -> Option<Op>
    requires { bits word 6 0 ≡ 0b0010011 }
    ensures row { IfSome result (λ op. IsFixed (row_of op) word) }
    ensures only { (op : Op) → IsFixed (row_of op) word → result ≡ Some op }
{
    match bits(word, 14, 12) {
        0b000 => Some(Op::Addi),
        0b010 => Some(Op::Slti),
        0b011 => Some(Op::Sltiu),
        0b100 => Some(Op::Xori),
        0b110 => Some(Op::Ori),
        0b111 => Some(Op::Andi),
        0b001 if bits(word, 31, 25) == 0 => Some(Op::Slli),
        0b101 => shift_right(word),
        _ => None,
    }
}

// The shifts to the right by an immediate amount.
fn shift_right(word: u32) -> Option<Op>
    requires opcode { bits word 6 0 ≡ 0b0010011 }
    requires function { bits word 14 12 ≡ 0b101 }
    ensures row { IfSome result (λ op. IsFixed (row_of op) word) }
    ensures only { (op : Op) → IsFixed (row_of op) word → result ≡ Some op }
{
    match bits(word, 31, 25) {
        0b0000000 => Some(Op::Srli),
        0b0100000 => Some(Op::Srai),
        _ => None,
    }
}

// The arithmetic of two registers.
fn register(word: u32) -> Option<Op>
    requires { bits word 6 0 ≡ 0b0110011 }
    ensures row { IfSome result (λ op. IsFixed (row_of op) word) }
    ensures only { (op : Op) → IsFixed (row_of op) word → result ≡ Some op }
{
    match bits(word, 31, 25) {
        0b0000000 => base(word),
        0b0100000 => alternate(word),
        0b0000001 => multiply(word),
        _ => None,
    }
}

// The arithmetic of two registers in the base set.
fn base(word: u32) -> Option<Op>
    requires opcode { bits word 6 0 ≡ 0b0110011 }
    requires function { bits word 31 25 ≡ 0b0000000 }
    ensures row { IfSome result (λ op. IsFixed (row_of op) word) }
    ensures only { (op : Op) → IsFixed (row_of op) word → result ≡ Some op }
{
    match bits(word, 14, 12) {
        0b000 => Some(Op::Add),
        0b001 => Some(Op::Sll),
        0b010 => Some(Op::Slt),
        0b011 => Some(Op::Sltu),
        0b100 => Some(Op::Xor),
        0b101 => Some(Op::Srl),
        0b110 => Some(Op::Or),
        0b111 => Some(Op::And),
        _ => None,
    }
}

// The subtraction and the shift with the sign, which differ from their like by bit 30.
fn alternate(word: u32) -> Option<Op>
    requires opcode { bits word 6 0 ≡ 0b0110011 }
    requires function { bits word 31 25 ≡ 0b0100000 }
    ensures row { IfSome result (λ op. IsFixed (row_of op) word) }
    ensures only { (op : Op) → IsFixed (row_of op) word → result ≡ Some op }
{
    match bits(word, 14, 12) {
        0b000 => Some(Op::Sub),
        0b101 => Some(Op::Sra),
        _ => None,
    }
}

// The multiplications and divisions.
fn multiply(word: u32) -> Option<Op>
    requires opcode { bits word 6 0 ≡ 0b0110011 }
    requires function { bits word 31 25 ≡ 0b0000001 }
    ensures row { IfSome result (λ op. IsFixed (row_of op) word) }
    ensures only { (op : Op) → IsFixed (row_of op) word → result ≡ Some op }
{
    match bits(word, 14, 12) {
        0b000 => Some(Op::Mul),
        0b001 => Some(Op::Mulh),
        0b010 => Some(Op::Mulhsu),
        0b011 => Some(Op::Mulhu),
        0b100 => Some(Op::Div),
        0b101 => Some(Op::Divu),
        0b110 => Some(Op::Rem),
        0b111 => Some(Op::Remu),
        _ => None,
    }
}

// The two calls of the environment, whose whole words are fixed.
fn environment(word: u32) -> Option<Op>
    requires { bits word 6 0 ≡ 0b1110011 }
    ensures row { IfSome result (λ op. IsFixed (row_of op) word) }
    ensures only { (op : Op) → IsFixed (row_of op) word → result ≡ Some op }
{
    match word {
        0x00000073 => Some(Op::Ecall),
        0x00100073 => Some(Op::Ebreak),
        _ => None,
    }
}

// The atomics. The two bits below the name's five order the memory for other harts, and are ignored.
fn atomic(word: u32) -> Option<Op>
    requires opcode { bits word 6 0 ≡ 0b0101111 }
    requires function { bits word 14 12 ≡ 0b010 }
    ensures row { IfSome result (λ op. IsFixed (row_of op) word) }
    ensures only { (op : Op) → IsFixed (row_of op) word → result ≡ Some op }
{
    match bits(word, 31, 27) {
        0b00010 if bits(word, 24, 20) == 0 => Some(Op::LrW),
        0b00011 => Some(Op::ScW),
        0b00001 => Some(Op::AmoswapW),
        0b00000 => Some(Op::AmoaddW),
        0b00100 => Some(Op::AmoxorW),
        0b01100 => Some(Op::AmoandW),
        0b01000 => Some(Op::AmoorW),
        0b10000 => Some(Op::AmominW),
        0b10100 => Some(Op::AmomaxW),
        0b11000 => Some(Op::AmominuW),
        0b11100 => Some(Op::AmomaxuW),
        _ => None,
    }
}

// The instruction of this name that the word spells.
fn fields(op: Op, word: u32) -> Instr
    requires { IsFixed (row_of op) word }
    ensures { Decodes word result }
{
    let rd = bits(word, 11, 7) as u8;
    let rs1 = bits(word, 19, 15) as u8;
    let rs2 = bits(word, 24, 20) as u8;
    match op.form() {
        Form::R => Instr::new(op, rd, rs1, rs2, 0),
        Form::I => Instr::new(op, rd, rs1, 0, offset(word)),
        Form::Shift => Instr::new(op, rd, rs1, 0, rs2 as i32),
        Form::S => Instr::new(op, 0, rs1, rs2, store_offset(word)),
        Form::B => Instr::new(op, 0, rs1, rs2, branch_offset(word)),
        Form::U => Instr::new(op, rd, 0, 0, upper(word)),
        Form::J => Instr::new(op, rd, 0, 0, jump_offset(word)),
        Form::Bare => Instr::new(op, 0, 0, 0, 0),
        Form::Atomic => Instr::new(op, rd, rs1, rs2, 0),
        Form::Reserve => Instr::new(op, rd, rs1, 0, 0),
    }
}

// The immediate of form I.
fn offset(word: u32) -> i32
    ensures { result ≡ i_immediate word }
{
    sign_extend(bits(word, 31, 20), 12)
}

// The immediate of form S.
fn store_offset(word: u32) -> i32
    ensures { result ≡ s_immediate word }
{
    sign_extend((bits(word, 31, 25) << 5) + bits(word, 11, 7), 12)
}

// The immediate of form B.
fn branch_offset(word: u32) -> i32
    ensures { result ≡ b_immediate word }
{
    let high = (bits(word, 31, 31) << 12) + (bits(word, 7, 7) << 11);
    sign_extend(
        high + (bits(word, 30, 25) << 5) + (bits(word, 11, 8) << 1),
        13,
    )
}

// The immediate of form U.
fn upper(word: u32) -> i32
    ensures { result ≡ u_immediate word }
{
    (word - word % 4096).cast_signed()
}

// The immediate of form J.
fn jump_offset(word: u32) -> i32
    ensures { result ≡ j_immediate word }
{
    let high = (bits(word, 31, 31) << 20) + (bits(word, 19, 12) << 12);
    sign_extend(
        high + (bits(word, 20, 20) << 11) + (bits(word, 30, 21) << 1),
        21,
    )
}
