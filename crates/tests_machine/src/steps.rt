// Steps of guests whose words were encoded by hand from the manual's formats.
ghost use Rattle.std.specs.Prelude.{◌≡◌};

use elf_load::load;
use guest_mem::laws::frames_of_instructions;
use rv_isa::Op;
use rv_machine::{End, FaultKind, Guest, Stepped};
use sample_files::{EXIT_7, LOAD_PAST_DATA, guest_of, one_segment, two_segments};
use std::alloc::{AllocError, Global};
use std::test::Fail;

pub(crate) const NEXT: Stepped = Stepped::Next;

pub(crate) const ACCESS: Stepped = Stepped::Fault(FaultKind::Access);

pub(crate) const MISALIGNED: Stepped = Stepped::Fault(FaultKind::Misaligned);

#[test]
fn exits(rt: HostRuntime) -> Result<(), Fail> {
    let file = one_segment(rt.alloc(), &EXIT_7)?;
    let mut guest = guest_of(rt.alloc(), &file, &[]).ok_or("no guest")?;
    let first = guest.peek().ok_or("no instruction")?;
    assert!(rt; first.op == Op::Addi && first.rd == 17 && first.rs1 == 0 && first.imm == 93);
    assert!(rt; step_after(&mut guest, 2) == Some(Stepped::Call));
    assert!(rt; guest.pc() == 0x1005c && guest.reg(17) == 93 && guest.reg(10) == 7);
    assert!(rt; !guest.fresh());
    guest.finish_call(5);
    assert!(rt; guest.pc() == 0x10060 && guest.reg(10) == 5 && guest.fresh());
    Ok(())
}

#[test]
fn statuses(rt: HostRuntime) {
    let fault = End::Signal {
        kind: FaultKind::Access,
        pc: 0x10054,
    };
    assert!(rt; End::Exit(7).status() == 7 && fault.status() == 139);
}

// Makes this many steps that complete, and answers what the next one is.
pub(crate) fn step_after(guest: &mut Guest, steps: u32) -> Option<Stepped>
    requires { guest.old.frames.count ≡ 16384 }
    ensures { guest.new.frames.count ≡ 16384 }
{
    for _i in 0..steps {
        if guest.step() != NEXT {
            return None;
        }
    }
    Some(guest.step())
}

// Words of code, the answer of the step after `steps` others that complete, and pc and a register
// then.
struct Last {
    code: &'static [u32],
    steps: u32,
    answer: Stepped,
    pc: u32,
    register: u8,
    value: u32,
}

fn ends_so(alloc: Global, row: &Last) -> Result<bool, AllocError> {
    let file = one_segment(alloc, row.code)?;
    let Some(mut guest) = guest_of(alloc, &file, &[]) else {
        return Ok(false);
    };
    Ok(
        step_after(&mut guest, row.steps) == Some(row.answer)
            && guest.pc() == row.pc
            && row.register < 32
            && guest.reg(row.register) == row.value,
    )
}

// lui x5, 0x10; jalr x1, 0x61(x5); three words of zeros
const ODD: [u32; 5] = [0x000102b7, 0x061280e7, 0, 0, 0];

// lui x5, 0x10; jalr x1, 2(x5)
const HALF: [u32; 2] = [0x000102b7, 0x002280e7];

// lui x5, 0x11; jalr x0, 0(x5)
const PAST: [u32; 2] = [0x000112b7, 0x00028067];

// bne x0, x0, 2; jal x1, -4
const BACK: [u32; 2] = [0x00001163, 0xffdff0ef];

// beq x0, x0, 8; ebreak; beq x0, x0, 2
const BRANCH: [u32; 3] = [0x00000463, 0x00100073, 0x00000163];

const JUMPS: [Last; 8] = [
    Last {
        code: &ODD,
        steps: 1,
        answer: NEXT,
        pc: 0x10060,
        register: 1,
        value: 0x1005c,
    },
    Last {
        code: &ODD,
        steps: 2,
        answer: Stepped::Fault(FaultKind::Illegal),
        pc: 0x10060,
        register: 5,
        value: 0x10000,
    },
    Last {
        code: &HALF,
        steps: 1,
        answer: MISALIGNED,
        pc: 0x10058,
        register: 1,
        value: 0,
    },
    Last {
        code: &PAST,
        steps: 1,
        answer: NEXT,
        pc: 0x11000,
        register: 0,
        value: 0,
    },
    Last {
        code: &PAST,
        steps: 2,
        answer: ACCESS,
        pc: 0x11000,
        register: 0,
        value: 0,
    },
    Last {
        code: &BACK,
        steps: 1,
        answer: NEXT,
        pc: 0x10054,
        register: 1,
        value: 0x1005c,
    },
    Last {
        code: &BRANCH,
        steps: 0,
        answer: NEXT,
        pc: 0x1005c,
        register: 0,
        value: 0,
    },
    Last {
        code: &BRANCH,
        steps: 1,
        answer: MISALIGNED,
        pc: 0x1005c,
        register: 0,
        value: 0,
    },
];

#[test]
fn jumps(rt: HostRuntime) -> Result<(), Fail> {
    for (k, row) in JUMPS.iter().enumerate() {
        assert!(rt; ends_so(rt.alloc(), row)?, "jump {k}");
    }
    Ok(())
}

// lui x5, 0x10; lw x6, 0(x5); lb x7, 18(x5); lbu x8, 18(x5); sw x6, 0(x5)
const OWN_FILE: [u32; 5] = [0x000102b7, 0x0002a303, 0x01228383, 0x0122c403, 0x0062a023];

// lui x5, 0x11; lw x5, -2(x5)
const OVER: [u32; 2] = [0x000112b7, 0xffe2a283];

const LOADS: [Last; 6] = [
    Last {
        code: &OWN_FILE,
        steps: 1,
        answer: NEXT,
        pc: 0x1005c,
        register: 6,
        value: 0x464c457f,
    },
    Last {
        code: &OWN_FILE,
        steps: 2,
        answer: NEXT,
        pc: 0x10060,
        register: 7,
        value: 0xfffffff3,
    },
    Last {
        code: &OWN_FILE,
        steps: 3,
        answer: NEXT,
        pc: 0x10064,
        register: 8,
        value: 0xf3,
    },
    Last {
        code: &OWN_FILE,
        steps: 4,
        answer: ACCESS,
        pc: 0x10064,
        register: 6,
        value: 0x464c457f,
    },
    Last {
        code: &OVER,
        steps: 1,
        answer: ACCESS,
        pc: 0x10058,
        register: 5,
        value: 0x11000,
    },
    // li x0, 5
    Last {
        code: &[0x00500013],
        steps: 0,
        answer: NEXT,
        pc: 0x10058,
        register: 0,
        value: 0,
    },
];

#[test]
fn loads(rt: HostRuntime) -> Result<(), Fail> {
    for (k, row) in LOADS.iter().enumerate() {
        assert!(rt; ends_so(rt.alloc(), row)?, "load {k}");
    }
    Ok(())
}

// Two words that put `a` into x5 and `b` into x6.
struct Operands {
    words: [u32; 2],
    a: u32,
    b: u32,
}

// li x5, 7; li x6, 0
const SEVEN_AND_ZERO: Operands = Operands {
    words: [0x00700293, 0x00000313],
    a: 7,
    b: 0,
};

// lui x5, 0x80000; li x6, -1
const LEAST_AND_MINUS_ONE: Operands = Operands {
    words: [0x800002b7, 0xfff00313],
    a: 0x80000000,
    b: 0xffffffff,
};

// The word of a division of x5 by x6, and what it puts into x7.
struct Division {
    operands: Operands,
    word: u32,
    result: u32,
}

const DIVISIONS: [Division; 6] = [
    // div x7, x5, x6
    Division {
        operands: SEVEN_AND_ZERO,
        word: 0x0262c3b3,
        result: 0xffffffff,
    },
    // divu x7, x5, x6
    Division {
        operands: SEVEN_AND_ZERO,
        word: 0x0262d3b3,
        result: 0xffffffff,
    },
    // rem x7, x5, x6
    Division {
        operands: SEVEN_AND_ZERO,
        word: 0x0262e3b3,
        result: 7,
    },
    // remu x7, x5, x6
    Division {
        operands: SEVEN_AND_ZERO,
        word: 0x0262f3b3,
        result: 7,
    },
    Division {
        operands: LEAST_AND_MINUS_ONE,
        word: 0x0262c3b3,
        result: 0x80000000,
    },
    Division {
        operands: LEAST_AND_MINUS_ONE,
        word: 0x0262e3b3,
        result: 0,
    },
];

// Whether x7 holds its value and every other register what it held before the division: the
// operands, the stack pointer of a guest without arguments in x2, and 0.
fn has_registers(guest: &Guest, row: &Division, x7: u32) -> bool {
    for n in 0..32 {
        let value = match n {
            2 => 0x7fffefa0,
            5 => row.operands.a,
            6 => row.operands.b,
            7 => x7,
            _ => 0,
        };
        if guest.reg(n) != value {
            return false;
        }
    }
    true
}

// Whether the division gives its result, and changes nothing else but pc. The jump before it, to
// the next word, ends a block, so that `fresh` is true there.
fn divides(alloc: Global, row: &Division) -> Result<bool, AllocError> {
    let [first, second] = row.operands.words;
    // jal x0, 4
    let file = one_segment(alloc, &[first, second, 0x0040006f, row.word])?;
    let Some(mut guest) = guest_of(alloc, &file, &[]) else {
        return Ok(false);
    };
    let jumped = step_after(&mut guest, 2) == Some(NEXT);
    let before = guest.fresh() && guest.pc() == 0x10060 && has_registers(&guest, row, 0);
    let divided = guest.step() == NEXT;
    let after = !guest.fresh() && guest.pc() == 0x10064 && has_registers(&guest, row, row.result);
    Ok(jumped && before && divided && after && guest.space().written() == 0)
}

#[test]
fn divisions(rt: HostRuntime) -> Result<(), Fail> {
    for (k, row) in DIVISIONS.iter().enumerate() {
        assert!(rt; divides(rt.alloc(), row)?, "division {k}");
    }
    Ok(())
}

// lui x5, 0x21; lui x6, 0x12345; addi x6, x6, 0x678; sw x6, -2(x5); lw x7, -2(x5); lbu x8, 0(x5)
const ACROSS_PAGES: [u32; 6] = [
    0x000212b7, 0x12345337, 0x67830313, 0xfe62af23, 0xffe2a383, 0x0002c403,
];

#[test]
fn stores_across_pages(rt: HostRuntime) -> Result<(), Fail> {
    let file = two_segments(rt.alloc(), &ACROSS_PAGES)?;
    let mut guest = guest_of(rt.alloc(), &file, &[]).ok_or("no guest")?;
    assert!(rt; step_after(&mut guest, 2) == Some(NEXT) && guest.space().written() == 0);
    assert!(rt; step_after(&mut guest, 2) == Some(NEXT));
    assert!(rt; guest.reg(7) == 0x12345678 && guest.reg(8) == 0x34 && guest.pc() == 0x1008c);
    assert!(rt; guest.space().written() == 2 && guest.space().free() == 16_382);
    Ok(())
}

// sw x5, 0(x2); addi x6, x2, -2048; sw x5, -2048(x6); jal x0, 4; ecall: stores into two pages
const TWO_STORES: [u32; 5] = [0x00512023, 0x80010313, 0x80532023, 0x0040006f, 0x00000073];

// Limits of steps and of pages, and how many steps complete, what the last one answers, and pc then.
struct Stretch {
    steps: u64,
    pages: u32,
    completed: u64,
    last: Stepped,
    pc: u32,
}

// The stack pointer is 0x7fffefa0: the first store is in the page at 0x7fffe000, the second in the
// one before it.
const STRETCHES: [Stretch; 6] = [
    Stretch {
        steps: 0,
        pages: 9,
        completed: 0,
        last: NEXT,
        pc: 0x10054,
    },
    Stretch {
        steps: 2,
        pages: 9,
        completed: 2,
        last: NEXT,
        pc: 0x1005c,
    },
    Stretch {
        steps: 100,
        pages: 9,
        completed: 4,
        last: Stepped::Call,
        pc: 0x10064,
    },
    Stretch {
        steps: 100,
        pages: 0,
        completed: 1,
        last: NEXT,
        pc: 0x10058,
    },
    Stretch {
        steps: 100,
        pages: 1,
        completed: 3,
        last: NEXT,
        pc: 0x10060,
    },
    Stretch {
        steps: 4,
        pages: 2,
        completed: 4,
        last: NEXT,
        pc: 0x10064,
    },
];

fn runs(alloc: Global, row: &Stretch) -> Result<bool, AllocError> {
    let file = one_segment(alloc, &TWO_STORES)?;
    let Some(mut guest) = guest_of(alloc, &file, &[]) else {
        return Ok(false);
    };
    let ran = guest.run(row.steps, row.pages);
    let stands = guest.pc() == row.pc
        && guest.fresh() == (row.completed == 0 || row.completed == 4);
    Ok(ran.completed == row.completed && ran.last == row.last && stands)
}

#[test]
fn runs_up_to_a_limit(rt: HostRuntime) -> Result<(), Fail> {
    for (k, row) in STRETCHES.iter().enumerate() {
        assert!(rt; runs(rt.alloc(), row)?, "stretch {k}");
    }
    Ok(())
}

// auipc x5, 16; jalr x0, 8(x5), in the first segment; addi x6, x0, 5; lui x7, 0x30; jalr x0, 0(x7), in the second one too
const JUMPS_ACROSS: [u32; 5] = [0x00010297, 0x00828067, 0x00500313, 0x000303b7, 0x00038067];

// The second program header is made that of code: the last three words of the file, at 0x2007c.
const SECOND_CODE: [(usize, u8); 6] = [
    (88, 0x7c),
    (92, 0x7c),
    (100, 12),
    (104, 12),
    (105, 0),
    (108, 5),
];

fn two_codes(alloc: Global) -> Result<Vec<u8>, AllocError> {
    let mut file = two_segments(alloc, &JUMPS_ACROSS)?;
    for (place, value) in SECOND_CODE {
        if let Some(byte) = file.get_mut(place) {
            *byte = value;
        }
    }
    Ok(file)
}

// It jumps from one segment of code to the other, and then to an address outside both.
#[test]
fn two_segments_of_code(rt: HostRuntime) -> Result<(), Fail> {
    let file = two_codes(rt.alloc())?;
    let mut guest = guest_of(rt.alloc(), &file, &[]).ok_or("no guest")?;
    let ran = guest.run(1000, 9);
    assert!(rt; ran.completed == 5 && ran.last == ACCESS);
    assert!(rt; guest.pc() == 0x30000 && guest.reg(5) == 0x20074 && guest.reg(6) == 5);
    let mut again = guest_of(rt.alloc(), &file, &[]).ok_or("no guest")?;
    assert!(rt; step_after(&mut again, 5) == Some(ACCESS) && again.pc() == 0x30000);
    Ok(())
}

// addi x17, x0, 63; lui x11, 0x7fe00; lui x12, 3; ecall: a read into three pages of the stack
const READS_THREE_PAGES: [u32; 4] = [0x03f00893, 0x7fe005b7, 0x00003637, 0x00000073];

// A step of a guest that has two free frames, which suffice.
fn step_with_two(guest: &mut Guest) -> Option<Stepped> {
    if guest.space().free() < 2 {
        return None;
    }
    frames_of_instructions();
    Some(guest.step())
}

#[test]
fn two_frames_suffice_at_a_call(rt: HostRuntime) -> Result<(), Fail> {
    let file = one_segment(rt.alloc(), &READS_THREE_PAGES)?;
    let image = load(rt.alloc(), &file).ok().ok_or("no image")?;
    let mut guest = Guest::load(rt.alloc(), &image, &[], 2)
        .ok()
        .ok_or("no guest")?;
    for _i in 0..3 {
        assert!(rt; step_with_two(&mut guest) == Some(NEXT));
    }
    assert!(rt; step_with_two(&mut guest) == Some(Stepped::Call));
    assert!(rt; guest.space().free() == 2 && guest.space().written() == 0);
    Ok(())
}

// Words of code, how many complete, and the pc then, at which the areas deny an access.
struct DeniedAccess {
    code: [u32; 2],
    steps: u32,
    pc: u32,
}

const DENIED: [DeniedAccess; 3] = [
    DeniedAccess {
        code: LOAD_PAST_DATA,
        steps: 1,
        pc: 0x10078,
    },
    // lui x5, 0x10; sw x5, 0(x5)
    DeniedAccess {
        code: [0x000102b7, 0x0052a023],
        steps: 1,
        pc: 0x10078,
    },
    // lui x5, 0x20; jalr x1, 0(x5)
    DeniedAccess {
        code: [0x000202b7, 0x000280e7],
        steps: 2,
        pc: 0x20000,
    },
];

fn is_denied(alloc: Global, row: &DeniedAccess) -> Result<bool, AllocError> {
    let file = two_segments(alloc, &row.code)?;
    let Some(mut guest) = guest_of(alloc, &file, &[]) else {
        return Ok(false);
    };
    Ok(step_after(&mut guest, row.steps) == Some(ACCESS) && guest.pc() == row.pc)
}

#[test]
fn areas_deny(rt: HostRuntime) -> Result<(), Fail> {
    for (k, row) in DENIED.iter().enumerate() {
        assert!(rt; is_denied(rt.alloc(), row)?, "access {k}");
    }
    Ok(())
}

#[test]
fn its_memory_can_be_changed(rt: HostRuntime) -> Result<(), Fail> {
    let file = two_segments(rt.alloc(), &EXIT_7)?;
    let mut guest = guest_of(rt.alloc(), &file, &[]).ok_or("no guest")?;
    assert!(rt; guest.space_mut().store(0x20000, 4, 7) == Ok(()));
    assert!(rt; guest.space().load(0x20000, 4) == Ok(7));
    assert!(rt; guest.pc() == 0x10074 && guest.reg(17) == 0);
    Ok(())
}
