// The demo program.
ghost use Rattle.std.specs.Prelude.{◌≡◌, ◌+◌, ◌*◌, ◌<◌, ◌≤◌, ◌^◌, [], ◌∷◌, IfOk};
ghost use Rattle.prog_gen.specs.File.{Adds};
ghost use Rattle.prog_gen.specs.Demo.{start, instr_of, drawn, call, calls, turn, finish, function, functions};
ghost use Rattle.prog_gen.specs.Demo.{demo_instrs, demo_headers};

use crate::code::{push, push_all, push_headers};
use crate::draws::Draws;
use crate::instrs::{branch, ecall, immediate, jump, registers, store, upper};
use rv_isa::{Instr, Op};
use std::alloc::{AllocError, Global};

/// The file of the demo program of this number, 2,640 bytes: a loop of 1,000 to 1,999 rounds with
/// instructions, loads, stores and calls that are drawn from the number. Its loads and stores reach
/// 64 KiB of zeros at 0x100000. It writes four bytes to its standard output and exits with 0.
pub fn demo_program(alloc: Global, n: u32) -> Result<Vec<u8>, AllocError>
    ensures { IfOk result (λ bytes. Adds (demo_instrs n) demo_headers bytes.items) }
{
    let mut bytes = Vec::new(alloc);
    push_headers(&mut bytes, 2640, 0x100000, 0x10000)?;
    push_start(&mut bytes, n)?;
    let mut draws = Draws::new(n);
    push_drawn(&mut bytes, &mut draws, 32)?;
    push_calls(&mut bytes, &mut draws)?;
    push_turn(&mut bytes)?;
    push_finish(&mut bytes)?;
    push_functions(&mut bytes, &mut draws)?;
    Ok(bytes)
}

// Puts the first values into the registers.
fn push_start(bytes: &mut Vec<u8>, n: u32) -> Result<(), AllocError>
    ensures { IfOk result (λ _. Adds (start n) bytes.old.items bytes.new.items) }
{
    push_all(
        bytes,
        &[
            upper(20, 0x100000),
            upper(8, 0x100000),
            upper(18, 0x1000),
            upper(19, 0xf000),
            immediate(Op::Addi, 9, 0, (1000 + n % 1000) as i32),
        ],
    )
}

// The instruction that a drawn number stands for.
fn instr_of(d: u32) -> Instr
    ensures { result ≡ instr_of d }
{
    let rd = (10 + d / 8 % 6) as u8;
    let a = (10 + d / 64 % 6) as u8;
    let b = (10 + d / 512 % 6) as u8;
    let offset = (4 * (d / 4096 % 512)) as i32;
    match d % 8 {
        0 => registers(Op::Add, rd, a, b),
        1 => registers(Op::Sub, rd, a, b),
        2 => registers(Op::Xor, rd, a, b),
        3 => registers(Op::Mul, rd, a, b),
        4 => registers(Op::Divu, rd, a, b),
        5 => registers(Op::Sltu, rd, a, b),
        6 => immediate(Op::Lw, rd, 8, offset),
        _ => store(Op::Sw, b, offset, 8),
    }
}

// Appends drawn instructions.
fn push_drawn(bytes: &mut Vec<u8>, draws: &mut Draws, count: u32) -> Result<(), AllocError>
    requires few { count ≤ 32 }
    requires made { draws.old.made < 1000 }
    ensures added { IfOk result (λ _. Adds (drawn draws.old.seed (draws.old.made + 1) count)
        bytes.old.items bytes.new.items) }
    ensures made { IfOk result (λ _. draws.new.made ≡ draws.old.made + count) }
    ensures seed { draws.new.seed ≡ draws.old.seed }
{
    for _ in 0..count {
        let instr = instr_of(draws.draw());
        push(bytes, &instr)?;
    }
    Ok(())
}

// Appends the calls of four drawn functions.
fn push_calls(bytes: &mut Vec<u8>, draws: &mut Draws) -> Result<(), AllocError>
    requires { draws.old.made ≡ 32 }
    ensures added { IfOk result (λ _. Adds (calls draws.old.seed 4) bytes.old.items bytes.new.items) }
    ensures made { IfOk result (λ _. draws.new.made ≡ 36) }
    ensures seed { draws.new.seed ≡ draws.old.seed }
{
    for k in 0..4 {
        let place = 55 + 9 * (draws.draw() % 64);
        push(bytes, &jump(1, (4 * (place - (37 + k))) as i32))?;
    }
    Ok(())
}

// Goes on to the next round.
fn push_turn(bytes: &mut Vec<u8>) -> Result<(), AllocError>
    ensures { IfOk result (λ _. Adds turn bytes.old.items bytes.new.items) }
{
    push_all(
        bytes,
        &[
            registers(Op::Add, 8, 8, 18),
            registers(Op::And, 8, 8, 19),
            registers(Op::Or, 8, 8, 20),
            immediate(Op::Addi, 9, 9, -1),
            branch(Op::Bne, 9, 0, -160),
        ],
    )
}

// Writes four bytes and exits.
fn push_finish(bytes: &mut Vec<u8>) -> Result<(), AllocError>
    ensures { IfOk result (λ _. Adds finish bytes.old.items bytes.new.items) }
{
    push_all(
        bytes,
        &[
            store(Op::Sw, 10, 0, 20),
            immediate(Op::Addi, 17, 0, 64),
            immediate(Op::Addi, 10, 0, 1),
            immediate(Op::Addi, 11, 20, 0),
            immediate(Op::Addi, 12, 0, 4),
            ecall(),
            immediate(Op::Addi, 17, 0, 93),
            immediate(Op::Addi, 10, 0, 0),
            ecall(),
        ],
    )
}

// Appends a drawn function.
fn push_function(bytes: &mut Vec<u8>, draws: &mut Draws, f: u32) -> Result<(), AllocError>
    requires within { f < 64 }
    requires made { draws.old.made ≡ 36 + 8 * f }
    ensures added { IfOk result (λ _. Adds (function draws.old.seed f) bytes.old.items bytes.new.items) }
    ensures made { IfOk result (λ _. draws.new.made ≡ 36 + 8 * (f + 1)) }
    ensures seed { draws.new.seed ≡ draws.old.seed }
{
    push_drawn(bytes, draws, 8)?;
    push(bytes, &immediate(Op::Jalr, 0, 1, 0))?;
    Ok(())
}

// Appends 64 drawn functions.
fn push_functions(bytes: &mut Vec<u8>, draws: &mut Draws) -> Result<(), AllocError>
    requires { draws.old.made ≡ 36 }
    ensures { IfOk result (λ _. Adds (functions draws.old.seed 64) bytes.old.items bytes.new.items) }
{
    for f in 0..64 {
        push_function(bytes, draws, f)?;
    }
    Ok(())
}
