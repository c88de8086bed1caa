// A program that counts words.
ghost use Rattle.std.specs.Prelude.{IfOk};
ghost use Rattle.prog_gen.specs.File.{headers, AddsSome};

use crate::code::{push_all, push_headers};
use crate::instrs::{branch, ecall, immediate, jump, registers, store, upper};
use rv_isa::Op;
use std::alloc::{AllocError, Global};

/// The file of a program that counts the lines, words and bytes of its input, up to its end, and
/// how often each byte value occurs.
///
/// A line is a byte 10, and a word a longest run of bytes that are neither 10 nor 32. The program
/// writes `LINES WORDS BYTES` and then, ascending, a line `VALUE COUNT` for each value that
/// occurred, in decimal, and exits with 0. It keeps 256 counters of 32 bits in a map of 1 MiB, and
/// reads up to 4,096 bytes at a time.
pub fn word_counter(alloc: Global) -> Result<Vec<u8>, AllocError>
    ensures { IfOk result (λ file. AddsSome 84 (headers 452 0x20000 0x2000) file.items) }
{
    let mut bytes = Vec::new(alloc);
    push_headers(&mut bytes, 452, 0x20000, 0x2000)?;
    push_read(&mut bytes)?;
    push_count(&mut bytes)?;
    push_totals(&mut bytes)?;
    push_values(&mut bytes)?;
    push_finish(&mut bytes)?;
    push_number(&mut bytes)?;
    Ok(bytes)
}

// Words 0 to 15. The map goes to x8. Word 7 reads: the bytes go to 0x20000, in x5, up to x6, and
// without one it goes on at word 35. x19 is the number of bytes.
#[tactic(auto, using(crate::proofs::Added::adds_some))]
fn push_read(bytes: &mut Vec<u8>) -> Result<(), AllocError>
    ensures { IfOk result (λ _. AddsSome 16 bytes.old.items bytes.new.items) }
{
    push_all(
        bytes,
        &[
            upper(11, 0x100000),
            immediate(Op::Addi, 12, 0, 3),
            immediate(Op::Addi, 13, 0, 34),
            immediate(Op::Addi, 17, 0, 222),
            ecall(),
            immediate(Op::Addi, 8, 10, 0),
            upper(21, 0x20000),
            immediate(Op::Addi, 10, 0, 0),
            immediate(Op::Addi, 11, 21, 0),
            upper(12, 0x1000),
            immediate(Op::Addi, 17, 0, 63),
            ecall(),
            branch(Op::Beq, 10, 0, 92),
            registers(Op::Add, 19, 19, 10),
            immediate(Op::Addi, 5, 21, 0),
            registers(Op::Add, 6, 21, 10),
        ],
    )
}

// Words 16 to 34, for each byte, and then back to word 7. x9 is the number of lines, x18 that of
// words, and x20 is 1 within a word.
#[tactic(auto, using(crate::proofs::Added::adds_some))]
fn push_count(bytes: &mut Vec<u8>) -> Result<(), AllocError>
    ensures { IfOk result (λ _. AddsSome 19 bytes.old.items bytes.new.items) }
{
    push_all(
        bytes,
        &[
            immediate(Op::Lbu, 7, 5, 0),
            immediate(Op::Slli, 28, 7, 2),
            registers(Op::Add, 28, 28, 8),
            immediate(Op::Lw, 29, 28, 0),
            immediate(Op::Addi, 29, 29, 1),
            store(Op::Sw, 29, 0, 28),
            immediate(Op::Addi, 28, 7, -10),
            immediate(Op::Sltiu, 29, 28, 1),
            registers(Op::Add, 9, 9, 29),
            immediate(Op::Addi, 28, 7, -32),
            immediate(Op::Sltiu, 28, 28, 1),
            registers(Op::Or, 28, 28, 29),
            immediate(Op::Xori, 28, 28, 1),
            registers(Op::Sltu, 29, 20, 28),
            registers(Op::Add, 18, 18, 29),
            immediate(Op::Addi, 20, 28, 0),
            immediate(Op::Addi, 5, 5, 1),
            branch(Op::Bne, 5, 6, -68),
            jump(0, -108),
        ],
    )
}

// Words 35 to 46. The text stands from x23, 0x21000, up to x22.
#[tactic(auto, using(crate::proofs::Added::adds_some))]
fn push_totals(bytes: &mut Vec<u8>) -> Result<(), AllocError>
    ensures { IfOk result (λ _. AddsSome 12 bytes.old.items bytes.new.items) }
{
    push_all(
        bytes,
        &[
            upper(22, 0x21000),
            immediate(Op::Addi, 23, 22, 0),
            immediate(Op::Addi, 10, 9, 0),
            immediate(Op::Addi, 11, 0, 32),
            jump(1, 116),
            immediate(Op::Addi, 10, 18, 0),
            immediate(Op::Addi, 11, 0, 32),
            jump(1, 104),
            immediate(Op::Addi, 10, 19, 0),
            immediate(Op::Addi, 11, 0, 10),
            jump(1, 92),
            immediate(Op::Addi, 24, 0, 0),
        ],
    )
}

// Words 47 to 59, for each value x24 and its counter x25.
#[tactic(auto, using(crate::proofs::Added::adds_some))]
fn push_values(bytes: &mut Vec<u8>) -> Result<(), AllocError>
    ensures { IfOk result (λ _. AddsSome 13 bytes.old.items bytes.new.items) }
{
    push_all(
        bytes,
        &[
            immediate(Op::Slli, 5, 24, 2),
            registers(Op::Add, 5, 5, 8),
            immediate(Op::Lw, 25, 5, 0),
            branch(Op::Beq, 25, 0, 28),
            immediate(Op::Addi, 10, 24, 0),
            immediate(Op::Addi, 11, 0, 32),
            jump(1, 60),
            immediate(Op::Addi, 10, 25, 0),
            immediate(Op::Addi, 11, 0, 10),
            jump(1, 48),
            immediate(Op::Addi, 24, 24, 1),
            immediate(Op::Addi, 5, 0, 256),
            branch(Op::Bne, 24, 5, -48),
        ],
    )
}

// Words 60 to 67 write the text and exit.
#[tactic(auto, using(crate::proofs::Added::adds_some))]
fn push_finish(bytes: &mut Vec<u8>) -> Result<(), AllocError>
    ensures { IfOk result (λ _. AddsSome 8 bytes.old.items bytes.new.items) }
{
    push_all(
        bytes,
        &[
            immediate(Op::Addi, 10, 0, 1),
            immediate(Op::Addi, 11, 23, 0),
            registers(Op::Sub, 12, 22, 23),
            immediate(Op::Addi, 17, 0, 64),
            ecall(),
            immediate(Op::Addi, 10, 0, 0),
            immediate(Op::Addi, 17, 0, 93),
            ecall(),
        ],
    )
}

// Words 68 to 83, a function: to the text it appends x10 in decimal and the byte x11. x6 is first
// the power of ten of the highest digit.
#[tactic(auto, using(crate::proofs::Added::adds_some))]
fn push_number(bytes: &mut Vec<u8>) -> Result<(), AllocError>
    ensures { IfOk result (λ _. AddsSome 16 bytes.old.items bytes.new.items) }
{
    push_all(
        bytes,
        &[
            immediate(Op::Addi, 5, 0, 10),
            immediate(Op::Addi, 6, 0, 1),
            registers(Op::Divu, 7, 10, 6),
            branch(Op::Bltu, 7, 5, 12),
            registers(Op::Mul, 6, 6, 5),
            jump(0, -12),
            registers(Op::Divu, 7, 10, 6),
            registers(Op::Remu, 10, 10, 6),
            immediate(Op::Addi, 7, 7, 48),
            store(Op::Sb, 7, 0, 22),
            immediate(Op::Addi, 22, 22, 1),
            registers(Op::Divu, 6, 6, 5),
            branch(Op::Bne, 6, 0, -24),
            store(Op::Sb, 11, 0, 22),
            immediate(Op::Addi, 22, 22, 1),
            immediate(Op::Jalr, 0, 1, 0),
        ],
    )
}
