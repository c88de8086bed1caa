// The atomics, and what ends a reservation. The words are an assembler's, and each value is by the manual's definitions.
ghost use Rattle.std.specs.Prelude.{◌≡◌};

use crate::steps::{ACCESS, MISALIGNED, NEXT, step_after};
use rv_machine::{Guest, Stepped};
use sample_files::{guest_of, set_register, two_segments};
use std::alloc::{AllocError, Global};
use std::process::Abort;
use std::test::Fail;

// `lr.w x7,(x5)`, `sc.w x7,x6,(x5)` and `amoadd.w x7,x6,(x5)`.
const LR: u32 = 0x1002a3af;

const SC: u32 = 0x1862a3af;

const ADD: u32 = 0x0062a3af;

// An atomic with rd x7, rs2 x6 and rs1 x5: the word in memory and the value of rs2 before, x7 and the word after.
struct Value {
    atomic: u32,
    word: u32,
    rs2: u32,
    x7: u32,
    after: u32,
}

const VALUES: [Value; 17] = [
    // lr.w
    Value {
        atomic: 0x1002a3af,
        word: 0x80000001,
        rs2: 7,
        x7: 0x80000001,
        after: 0x80000001,
    },
    // sc.w, where nothing is reserved
    Value {
        atomic: 0x1862a3af,
        word: 5,
        rs2: 7,
        x7: 1,
        after: 5,
    },
    // amoswap.w
    Value {
        atomic: 0x0862a3af,
        word: 5,
        rs2: 0x80000000,
        x7: 5,
        after: 0x80000000,
    },
    // amoadd.w
    Value {
        atomic: 0x0062a3af,
        word: 0xffffffff,
        rs2: 2,
        x7: 0xffffffff,
        after: 1,
    },
    Value {
        atomic: 0x0062a3af,
        word: 0x7fffffff,
        rs2: 1,
        x7: 0x7fffffff,
        after: 0x80000000,
    },
    // amoadd.w.aqrl
    Value {
        atomic: 0x0662a3af,
        word: 5,
        rs2: 7,
        x7: 5,
        after: 12,
    },
    // amoxor.w
    Value {
        atomic: 0x2062a3af,
        word: 0xff00ff00,
        rs2: 0x0ff00ff0,
        x7: 0xff00ff00,
        after: 0xf0f0f0f0,
    },
    // amoand.w
    Value {
        atomic: 0x6062a3af,
        word: 0xff00ff00,
        rs2: 0x0ff00ff0,
        x7: 0xff00ff00,
        after: 0x0f000f00,
    },
    // amoor.w
    Value {
        atomic: 0x4062a3af,
        word: 0xff00ff00,
        rs2: 0x0ff00ff0,
        x7: 0xff00ff00,
        after: 0xfff0fff0,
    },
    // amomin.w
    Value {
        atomic: 0x8062a3af,
        word: 0x80000000,
        rs2: 0x7fffffff,
        x7: 0x80000000,
        after: 0x80000000,
    },
    Value {
        atomic: 0x8062a3af,
        word: 0,
        rs2: 0xffffffff,
        x7: 0,
        after: 0xffffffff,
    },
    // amomax.w
    Value {
        atomic: 0xa062a3af,
        word: 0x80000000,
        rs2: 1,
        x7: 0x80000000,
        after: 1,
    },
    Value {
        atomic: 0xa062a3af,
        word: 0,
        rs2: 0xffffffff,
        x7: 0,
        after: 0,
    },
    // amominu.w
    Value {
        atomic: 0xc062a3af,
        word: 0x80000000,
        rs2: 1,
        x7: 0x80000000,
        after: 1,
    },
    Value {
        atomic: 0xc062a3af,
        word: 0,
        rs2: 0xffffffff,
        x7: 0,
        after: 0,
    },
    // amomaxu.w
    Value {
        atomic: 0xe062a3af,
        word: 0x80000000,
        rs2: 1,
        x7: 0x80000000,
        after: 0x80000000,
    },
    Value {
        atomic: 0xe062a3af,
        word: 0,
        rs2: 0xffffffff,
        x7: 0,
        after: 0xffffffff,
    },
];

// Whether an atomic at 0x20000 leaves what it must, and the other operands.
fn has_value(alloc: Global, row: &Value) -> Result<bool, AllocError> {
    let mut words = Vec::new(alloc);
    words.extend_from_slice(&set_register(5, 0x20000))?;
    words.extend_from_slice(&set_register(6, row.rs2))?;
    words.extend_from_slice(&set_register(8, row.word))?;
    // sw x8,0(x5)
    words.extend_from_slice(&[0x0082a023, row.atomic])?;
    let file = two_segments(alloc, &words)?;
    let Some(mut guest) = guest_of(alloc, &file, &[]) else {
        return Ok(false);
    };
    let last = step_after(&mut guest, 7);
    let reserved = if row.atomic == LR {
        Some(0x20000)
    } else {
        None
    };
    Ok(
        last == Some(NEXT)
            && guest.reg(5) == 0x20000
            && guest.reg(6) == row.rs2
            && guest.reg(7) == row.x7
            && guest.space().load(0x20000, 4) == Ok(row.after)
            && guest.reserved() == reserved,
    )
}

#[test]
fn values(rt: HostRuntime) -> Result<(), Fail> {
    for (k, row) in VALUES.iter().enumerate() {
        assert!(rt; has_value(rt.alloc(), row)?, "value {k}");
    }
    Ok(())
}

// Words behind `lui x5,0x20` and `addi x6,x0,9`, where a call goes on with the result 0; what the step of the last word answers;
// x5, x6 and x7 then, the word at an address, and the address that is reserved.
#[derive(Clone, Copy)]
struct Row {
    code: &'static [u32],
    answer: Stepped,
    registers: [u32; 3],
    at: u32,
    word: u32,
    reserved: Option<u32>,
}

// The store is done.
const PAIR: Row = Row {
    code: &[LR, SC],
    answer: NEXT,
    registers: [0x20000, 9, 0],
    at: 0x20000,
    word: 9,
    reserved: None,
};

// The store is not done.
const FAILED: Row = Row {
    registers: [0x20000, 9, 1],
    word: 0,
    ..PAIR
};

// What stands between `lr.w` and `sc.w`.
const PAIRS: [Row; 21] = [
    PAIR,
    // addi x8,x8,1
    Row {
        code: &[LR, 0x00140413, SC],
        ..PAIR
    },
    // lui x8,1
    Row {
        code: &[LR, 0x00001437, SC],
        ..PAIR
    },
    // mul x8,x6,x6
    Row {
        code: &[LR, 0x02630433, SC],
        ..PAIR
    },
    // lw x8,0(x5)
    Row {
        code: &[LR, 0x0002a403, SC],
        ..PAIR
    },
    // sw x6,0(x5), a store of the guest itself
    Row {
        code: &[LR, 0x0062a023, SC],
        ..PAIR
    },
    // sw x6,4(x5)
    Row {
        code: &[LR, 0x0062a223, SC],
        ..PAIR
    },
    // amoadd.w x8,x6,(x5)
    Row {
        code: &[LR, 0x0062a42f, SC],
        ..PAIR
    },
    // jal x0,4
    Row {
        code: &[LR, 0x0040006f, SC],
        ..PAIR
    },
    // auipc x8,0; jalr x0,8(x8)
    Row {
        code: &[LR, 0x00000417, 0x00840067, SC],
        ..PAIR
    },
    // beq x0,x0,4; bne x0,x0,4
    Row {
        code: &[LR, 0x00000263, SC],
        ..PAIR
    },
    Row {
        code: &[LR, 0x00001263, SC],
        ..PAIR
    },
    // fence
    Row {
        code: &[LR, 0x0ff0000f, SC],
        ..PAIR
    },
    // ecall, a call that went on
    Row {
        code: &[LR, 0x00000073, SC],
        ..FAILED
    },
    // addi x9,x5,4; lr.w x8,(x9)
    Row {
        code: &[LR, 0x00428493, 0x1004a42f, SC],
        ..FAILED
    },
    // addi x9,x5,4; sc.w x8,x6,(x9), which fails
    Row {
        code: &[LR, 0x00428493, 0x1864a42f, SC],
        ..FAILED
    },
    // twice
    Row {
        code: &[LR, SC, SC],
        registers: [0x20000, 9, 1],
        ..PAIR
    },
    // where nothing was reserved
    Row {
        code: &[SC],
        ..FAILED
    },
    // addi x5,x5,4: at another address
    Row {
        code: &[LR, 0x00428293, SC],
        registers: [0x20004, 9, 1],
        at: 0x20004,
        ..FAILED
    },
    // what is reserved, also at a call, which has not gone on
    Row {
        code: &[LR],
        word: 0,
        reserved: Some(0x20000),
        ..PAIR
    },
    Row {
        code: &[LR, 0x00000073],
        answer: Stepped::Call,
        word: 0,
        reserved: Some(0x20000),
        ..PAIR
    },
];

const DENIED: Row = Row {
    answer: ACCESS,
    registers: [0x22000, 9, 0],
    word: 0,
    ..PAIR
};

// The first word of the file.
const READ_ONLY: Row = Row {
    registers: [0x10000, 9, 0],
    at: 0x10000,
    word: 0x464c457f,
    ..DENIED
};

const ODD: Row = Row {
    answer: MISALIGNED,
    registers: [0x20002, 9, 0],
    ..DENIED
};

// Where an atomic may be; that an address is no multiple of 4 comes before any permission.
const PLACES: [Row; 17] = [
    // lui x5,0x22; addi x5,x5,-4: the last word, behind which nothing is mapped
    Row {
        code: &[0x000222b7, 0xffc28293, LR, SC],
        registers: [0x21ffc, 9, 0],
        at: 0x21ffc,
        ..PAIR
    },
    // lui x5,0x21; addi x5,x5,-4: the last word of a page
    Row {
        code: &[0x000212b7, 0xffc28293, ADD],
        registers: [0x20ffc, 9, 0],
        at: 0x20ffc,
        ..PAIR
    },
    // lui x5,0x22: nothing is mapped
    Row {
        code: &[0x000222b7, LR],
        ..DENIED
    },
    Row {
        code: &[0x000222b7, SC],
        ..DENIED
    },
    Row {
        code: &[0x000222b7, ADD],
        ..DENIED
    },
    // lui x5,0x10: the file, which can be read
    Row {
        code: &[0x000102b7, LR],
        answer: NEXT,
        registers: [0x10000, 9, 0x464c457f],
        reserved: Some(0x10000),
        ..READ_ONLY
    },
    Row {
        code: &[0x000102b7, ADD],
        ..READ_ONLY
    },
    Row {
        code: &[0x000102b7, SC],
        ..READ_ONLY
    },
    // a fault changes nothing
    Row {
        code: &[0x000102b7, LR, SC],
        registers: [0x10000, 9, 0x464c457f],
        reserved: Some(0x10000),
        ..READ_ONLY
    },
    // addi x5,x5,2
    Row {
        code: &[0x00228293, LR],
        ..ODD
    },
    Row {
        code: &[0x00228293, SC],
        ..ODD
    },
    Row {
        code: &[0x00228293, ADD],
        ..ODD
    },
    Row {
        code: &[LR, 0x00228293, SC],
        reserved: Some(0x20000),
        ..ODD
    },
    // lui x5,0x22; addi x5,x5,2: where nothing is mapped
    Row {
        code: &[0x000222b7, 0x00228293, LR],
        registers: [0x22002, 9, 0],
        ..ODD
    },
    Row {
        code: &[0x000222b7, 0x00228293, SC],
        registers: [0x22002, 9, 0],
        ..ODD
    },
    Row {
        code: &[0x000222b7, 0x00228293, ADD],
        registers: [0x22002, 9, 0],
        ..ODD
    },
    // lui x5,0x10; addi x5,x5,2: where nothing may be written
    Row {
        code: &[0x000102b7, 0x00228293, ADD],
        registers: [0x10002, 9, 0],
        ..ODD
    },
];

// One register in several places: rs1 and rs2 are read before rd is written.
const REGISTERS: [Row; 9] = [
    // sw x6,0(x5); amoadd.w x5,x5,(x5)
    Row {
        code: &[0x0062a023, 0x0052a2af],
        registers: [9, 9, 0],
        word: 0x20009,
        ..PAIR
    },
    // sw x6,0(x5); amoswap.w x5,x5,(x5)
    Row {
        code: &[0x0062a023, 0x0852a2af],
        registers: [9, 9, 0],
        word: 0x20000,
        ..PAIR
    },
    // sw x6,0(x5); addi x6,x6,1; amoswap.w x6,x6,(x5)
    Row {
        code: &[0x0062a023, 0x00130313, 0x0862a32f],
        word: 10,
        ..PAIR
    },
    // sc.w x5,x5,(x5)
    Row {
        code: &[LR, 0x1852a2af],
        registers: [0, 9, 0],
        word: 0x20000,
        ..PAIR
    },
    // sc.w x6,x6,(x5)
    Row {
        code: &[LR, 0x1862a32f],
        registers: [0x20000, 0, 0],
        ..PAIR
    },
    // sw x6,0(x5); lr.w x5,(x5)
    Row {
        code: &[0x0062a023, 0x1002a2af],
        registers: [9, 9, 0],
        reserved: Some(0x20000),
        ..PAIR
    },
    // sw x6,0(x5); amoadd.w x0,x6,(x5)
    Row {
        code: &[0x0062a023, 0x0062a02f],
        word: 18,
        ..PAIR
    },
    // lr.w x0,(x5)
    Row {
        code: &[0x1002a02f, SC],
        ..PAIR
    },
    // sc.w x0,x6,(x5)
    Row {
        code: &[LR, 0x1862a02f],
        ..PAIR
    },
];

// Makes this many steps, of which the calls go on with the result 0, and answers what the next one is. None where one of them is a
// fault.
fn step_behind(guest: &mut Guest, steps: usize) -> Option<Stepped>
    requires { guest.old.frames.count ≡ 16384 }
    ensures { guest.new.frames.count ≡ 16384 }
{
    for _i in 0..steps {
        match guest.step() {
            Stepped::Next => {}
            Stepped::Call => guest.finish_call(0),
            Stepped::Fault(_) => return None,
        }
    }
    Some(guest.step())
}

// Whether these are x5, x6 and x7, and x0 is 0.
fn has_registers(guest: &Guest, registers: &[u32; 3]) -> bool {
    [guest.reg(5), guest.reg(6), guest.reg(7)] == *registers && guest.reg(0) == 0
}

// Whether the words of a row lead where it says. pc is behind the last word where it completes, and at it where it does not. No
// atomic ends a block.
fn holds(alloc: Global, row: &Row) -> Result<bool, AllocError> {
    // lui x5,0x20; addi x6,x0,9
    let mut words = [0x000202b7, 0x00900313].to_vec(alloc)?;
    words.extend_from_slice(row.code)?;
    let file = two_segments(alloc, &words)?;
    let Some(mut guest) = guest_of(alloc, &file, &[]) else {
        return Ok(false);
    };
    let before = row.code.len().min(8).wrapping_add(1);
    let last = step_behind(&mut guest, before);
    let completed = if row.answer == NEXT { 1 } else { 0 };
    let pc = 0x10074 + 4 * (before as u32 + completed);
    Ok(
        last == Some(row.answer)
            && guest.pc() == pc
            && !guest.fresh()
            && has_registers(&guest, &row.registers)
            && guest.space().load(row.at, 4) == Ok(row.word)
            && guest.reserved() == row.reserved,
    )
}

// Tries these rows.
fn expect(rt: &(impl Abort + AllocGlobal), rows: &[Row]) -> Result<(), Fail> {
    for (k, row) in rows.iter().enumerate() {
        let holds = holds(rt.alloc(), row)?;
        assert!(rt; holds, "row {k}");
    }
    Ok(())
}

#[test]
fn pairs(rt: HostRuntime) -> Result<(), Fail> {
    expect(&rt, &PAIRS)
}

#[test]
fn places(rt: HostRuntime) -> Result<(), Fail> {
    expect(&rt, &PLACES)
}

#[test]
fn registers(rt: HostRuntime) -> Result<(), Fail> {
    expect(&rt, &REGISTERS)
}
