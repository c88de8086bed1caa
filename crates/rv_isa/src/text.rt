// The text of an instruction.
ghost use Rattle.std.specs.Prelude.{◌≡◌, ◌++◌, IfOk, string_bytes, codes, false};
ghost use Rattle.std.specs.Fmt.{signed_decimal, digits};
ghost use Rattle.rv_isa.specs.Text.{text_of, listed, register, addressed, pointed};

use crate::instr::Instr;
use crate::op::{Form, Op};
use crate::word::bits;
use std::alloc::{AllocError, Global};

/// The text of an instruction: its name, then its operands with no space between them, registers as
/// `x0` to `x31`, immediates in decimal, and those of `lui` and `auipc` as the upper 20 bits in
/// hexadecimal.
pub fn instr_text(alloc: Global, i: &Instr) -> Result<String, AllocError>
    ensures { IfOk result (λ text. string_bytes text ≡ text_of i.now) }
{
    let name = i.op.name();
    match i.op.form() {
        Form::R => three_registers(alloc, name, i.rd, i.rs1, i.rs2),
        Form::I if i.op.opcode() == 0b0010011 => two_registers(alloc, name, i.rd, i.rs1, i.imm),
        Form::I => address(alloc, name, i.rd, i.imm, i.rs1),
        Form::Shift => two_registers(alloc, name, i.rd, i.rs1, i.imm),
        Form::S => address(alloc, name, i.rs2, i.imm, i.rs1),
        Form::B => two_registers(alloc, name, i.rs1, i.rs2, i.imm),
        Form::U => upper(alloc, name, i.rd, bits(i.imm.cast_unsigned(), 31, 12)),
        Form::J => jump(alloc, name, i.rd, i.imm),
        Form::Bare => String::from_str(alloc, name),
        Form::Atomic => atomic(alloc, name, i.rd, i.rs2, i.rs1),
        Form::Reserve => reserve(alloc, name, i.rd, i.rs1),
    }
}

fn three_registers(alloc: Global, name: &str, a: u8, b: u8, c: u8) -> Result<String, AllocError>
    ensures { IfOk result
        (λ text. string_bytes text ≡ name.now ++ listed (register a) (register b) (register c)) }
{
    format!(in alloc; "{name} x{a},x{b},x{c}")
}

fn two_registers(alloc: Global, name: &str, a: u8, b: u8, imm: i32) -> Result<String, AllocError>
    ensures { IfOk result
        (λ text. string_bytes text ≡ name.now
        ++ listed (register a) (register b) (signed_decimal imm)) }
{
    format!(in alloc; "{name} x{a},x{b},{imm}")
}

fn address(alloc: Global, name: &str, a: u8, imm: i32, base: u8) -> Result<String, AllocError>
    ensures { IfOk result (λ text. string_bytes text ≡ name.now ++ addressed a imm base) }
{
    format!(in alloc; "{name} x{a},{imm}(x{base})")
}

fn jump(alloc: Global, name: &str, a: u8, imm: i32) -> Result<String, AllocError>
    ensures { IfOk result
        (λ text. string_bytes text ≡ name.now ++ (codes " " ++ (register a ++ (codes ","
        ++ signed_decimal imm)))) }
{
    format!(in alloc; "{name} x{a},{imm}")
}

fn upper(alloc: Global, name: &str, a: u8, high: u32) -> Result<String, AllocError>
    ensures { IfOk result
        (λ text. string_bytes text ≡ name.now ++ (codes " " ++ (register a ++ (codes ",0x"
        ++ digits 16 false high)))) }
{
    format!(in alloc; "{name} x{a},0x{high:x}")
}

fn atomic(alloc: Global, name: &str, a: u8, b: u8, base: u8) -> Result<String, AllocError>
    ensures { IfOk result
        (λ text. string_bytes text ≡ name.now
        ++ listed (register a) (register b) (pointed base)) }
{
    format!(in alloc; "{name} x{a},x{b},(x{base})")
}

fn reserve(alloc: Global, name: &str, a: u8, base: u8) -> Result<String, AllocError>
    ensures { IfOk result
        (λ text. string_bytes text ≡ name.now ++ (codes " " ++ (register a ++ (codes ","
        ++ pointed base)))) }
{
    format!(in alloc; "{name} x{a},(x{base})")
}
