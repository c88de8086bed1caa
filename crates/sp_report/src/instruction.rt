// The text of an instruction, added to a text without memory of its own.
ghost use Rattle.std.specs.Prelude.{◌≡◌, ◌++◌, ◌<◌, ◌^◌, OnOk, codes, false, option_and_then};
ghost use Rattle.std.specs.Fmt.{decimal, digits, signed_decimal};
ghost use Rattle.rv_isa.specs.Table.{row_of};
ghost use Rattle.rv_isa.specs.Text.{addressed, arguments, listed, pointed, register, text_of};
ghost use Rattle.sp_report.specs.Instruction.{lists_fields};

use crate::digits::hex_digit;
use itoa::Buffer;
use rv_isa::{Form, Instr, Op};
use std::alloc::AllocError;

// Adds the name of a register behind some bytes.
fn push_register(text: &mut Vec<u8>, n: u8) -> Result<(), AllocError>
    ensures { OnOk result (text.new.items ≡ text.old.items ++ register n) }
{
    let mut buffer = Buffer::new();
    text.push(b'x')?;
    text.extend_from_slice(buffer.format(n).as_bytes())
}

// Adds an immediate.
fn push_number(text: &mut Vec<u8>, n: i32) -> Result<(), AllocError>
    ensures { OnOk result (text.new.items ≡ text.old.items ++ signed_decimal n) }
{
    let mut buffer = Buffer::new();
    text.extend_from_slice(buffer.format(n).as_bytes())
}

// Adds a number in hexadecimal, without leading zeros.
#[tactic(auto, using(crate::proofs::Hex::more_behind, crate::proofs::Hex::hex_last))]
fn push_hex(text: &mut Vec<u8>, n: u32) -> Result<(), AllocError>
    requires { n < 2 ^ 20 }
    ensures { OnOk result (text.new.items ≡ text.old.items ++ digits 16 false n) }
{
    if n < 16 {
        text.push(hex_digit(n))?;
        return Ok(());
    }
    push_hex(text, n >> 4)?;
    text.push(hex_digit(n % 16))?;
    Ok(())
}

// Adds ` xA,xB,xC`.
fn push_registers(text: &mut Vec<u8>, a: u8, b: u8, c: u8) -> Result<(), AllocError>
    ensures { OnOk result (text.new.items ≡ text.old.items ++ listed (register a) (register b) (register c)) }
{
    text.push(b' ')?;
    push_register(text, a)?;
    text.push(b',')?;
    push_register(text, b)?;
    text.push(b',')?;
    push_register(text, c)
}

// Adds ` xA,xB,N`.
fn push_immediate(text: &mut Vec<u8>, a: u8, b: u8, n: i32) -> Result<(), AllocError>
    ensures { OnOk result (text.new.items ≡ text.old.items ++ listed (register a) (register b) (signed_decimal n)) }
{
    text.push(b' ')?;
    push_register(text, a)?;
    text.push(b',')?;
    push_register(text, b)?;
    text.push(b',')?;
    push_number(text, n)
}

// Adds ` xA,N(xB)`.
fn push_addressed(text: &mut Vec<u8>, a: u8, n: i32, b: u8) -> Result<(), AllocError>
    ensures { OnOk result (text.new.items ≡ text.old.items ++ addressed a n b) }
{
    text.push(b' ')?;
    push_register(text, a)?;
    text.push(b',')?;
    push_number(text, n)?;
    text.push(b'(')?;
    push_register(text, b)?;
    text.push(b')')?;
    Ok(())
}

// Adds ` xA,N`.
fn push_jump(text: &mut Vec<u8>, a: u8, n: i32) -> Result<(), AllocError>
    ensures { OnOk result (text.new.items ≡ text.old.items ++ (codes " " ++ (register a ++ (codes "," ++ signed_decimal n)))) }
{
    text.push(b' ')?;
    push_register(text, a)?;
    text.push(b',')?;
    push_number(text, n)
}

// Adds ` xA,0xH`.
fn push_upper(text: &mut Vec<u8>, a: u8, high: u32) -> Result<(), AllocError>
    requires { high < 2 ^ 20 }
    ensures { OnOk result (text.new.items ≡ text.old.items ++ (codes " " ++ (register a ++ (codes ",0x" ++ digits 16 false high)))) }
{
    text.push(b' ')?;
    push_register(text, a)?;
    text.extend_from_slice(b",0x")?;
    push_hex(text, high)
}

// Adds `(xA)`.
fn push_pointed(text: &mut Vec<u8>, base: u8) -> Result<(), AllocError>
    ensures { OnOk result (text.new.items ≡ text.old.items ++ pointed base) }
{
    text.push(b'(')?;
    push_register(text, base)?;
    text.push(b')')?;
    Ok(())
}

// Adds ` xA,xB,(xC)`.
fn push_atomic(text: &mut Vec<u8>, a: u8, b: u8, base: u8) -> Result<(), AllocError>
    ensures { OnOk result (text.new.items ≡ text.old.items ++ listed (register a) (register b) (pointed base)) }
{
    text.push(b' ')?;
    push_register(text, a)?;
    text.push(b',')?;
    push_register(text, b)?;
    text.push(b',')?;
    push_pointed(text, base)
}

// Adds ` xA,(xB)`.
fn push_reserve(text: &mut Vec<u8>, a: u8, base: u8) -> Result<(), AllocError>
    ensures { OnOk result (text.new.items ≡ text.old.items ++ (codes " " ++ (register a ++ (codes "," ++ pointed base)))) }
{
    text.push(b' ')?;
    push_register(text, a)?;
    text.push(b',')?;
    push_pointed(text, base)
}

// Whether an instruction with an immediate lists its fields: those that compute do, and the others have an address.
fn is_listed(op: Op) -> bool
    ensures { result ≡ lists_fields op }
{
    matches!(
        op,
        Op::Addi | Op::Slti | Op::Sltiu | Op::Xori | Op::Ori | Op::Andi
    )
}

// Adds what stands behind the name of an instruction.
fn push_arguments(text: &mut Vec<u8>, i: &Instr) -> Result<(), AllocError>
    ensures { OnOk result (text.new.items ≡ text.old.items ++ arguments (row_of i.now.op) i.now) }
{
    match i.op.form() {
        Form::R => push_registers(text, i.rd, i.rs1, i.rs2),
        Form::I if is_listed(i.op) => push_immediate(text, i.rd, i.rs1, i.imm),
        Form::I => push_addressed(text, i.rd, i.imm, i.rs1),
        Form::Shift => push_immediate(text, i.rd, i.rs1, i.imm),
        Form::S => push_addressed(text, i.rs2, i.imm, i.rs1),
        Form::B => push_immediate(text, i.rs1, i.rs2, i.imm),
        Form::U => push_upper(text, i.rd, i.imm.cast_unsigned() >> 12),
        Form::J => push_jump(text, i.rd, i.imm),
        Form::Bare => Ok(()),
        Form::Atomic => push_atomic(text, i.rd, i.rs2, i.rs1),
        Form::Reserve => push_reserve(text, i.rd, i.rs1),
    }
}

/// Adds the text of an instruction.
pub(crate) fn push_instruction(text: &mut Vec<u8>, i: &Instr) -> Result<(), AllocError>
    ensures { OnOk result (text.new.items ≡ text.old.items ++ text_of i.now) }
{
    text.extend_from_slice(i.op.name().as_bytes())?;
    push_arguments(text, i)
}
