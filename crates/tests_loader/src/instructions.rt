// Values from outside: the words are an assembler's, the results the manual's.
ghost use Rattle.std.specs.Prelude.{◌≡◌, IfSome, Some};
ghost use Rattle.rv_isa.specs.Decoded.{decoded};
ghost use Rattle.rv_isa.specs.Table.{Fields, HasPlainBits, row_of};

use rv_isa::{
    Instr, Link, Op, alu, amo, decode, encode, instr_text, is_taken, is_terminator, link_kind,
    loaded, mem_size,
};
use std::alloc::{AllocError, Global};
use std::test::Fail;

// A word, and its text as the assembler of GNU binutils pairs them.
struct Row(u32, &'static str);

// One of each instruction.
const ROWS: [Row; 59] = [
    Row(0x000102b7, "lui x5,0x10"),
    Row(0xffffff97, "auipc x31,0xfffff"),
    Row(0xd54550ef, "jal x1,-699052"),
    Row(0xffc280e7, "jalr x1,-4(x5)"),
    Row(0xaa9405e3, "beq x8,x9,-1366"),
    Row(0xfe039ae3, "bne x7,x0,-12"),
    Row(0x7e62cfe3, "blt x5,x6,4094"),
    Row(0xffff5fe3, "bge x30,x31,-2"),
    Row(0x00b560e3, "bltu x10,x11,2048"),
    Row(0xfed67f63, "bgeu x12,x13,-2050"),
    Row(0xfff28303, "lb x6,-1(x5)"),
    Row(0x80041383, "lh x7,-2048(x8)"),
    Row(0xffe2a303, "lw x6,-2(x5)"),
    Row(0x7ff54483, "lbu x9,2047(x10)"),
    Row(0xaaa65583, "lhu x11,-1366(x12)"),
    Row(0xfe628fa3, "sb x6,-1(x5)"),
    Row(0x81ff1023, "sh x31,-2048(x30)"),
    Row(0x54d72aa3, "sw x13,1365(x14)"),
    Row(0xfa300893, "addi x17,x0,-93"),
    Row(0x80012093, "slti x1,x2,-2048"),
    Row(0x7ff23193, "sltiu x3,x4,2047"),
    Row(0xfff34293, "xori x5,x6,-1"),
    Row(0x55546393, "ori x7,x8,1365"),
    Row(0xaaa57493, "andi x9,x10,-1366"),
    Row(0x01f61593, "slli x11,x12,31"),
    Row(0x00175693, "srli x13,x14,1"),
    Row(0x41085793, "srai x15,x16,16"),
    Row(0x013908b3, "add x17,x18,x19"),
    Row(0x416a8a33, "sub x20,x21,x22"),
    Row(0x019c1bb3, "sll x23,x24,x25"),
    Row(0x01cdad33, "slt x26,x27,x28"),
    Row(0x01ff3eb3, "sltu x29,x30,x31"),
    Row(0x003140b3, "xor x1,x2,x3"),
    Row(0x0062d233, "srl x4,x5,x6"),
    Row(0x409453b3, "sra x7,x8,x9"),
    Row(0x00c5e533, "or x10,x11,x12"),
    Row(0x00f776b3, "and x13,x14,x15"),
    Row(0x0ff0000f, "fence"),
    Row(0x00000073, "ecall"),
    Row(0x00100073, "ebreak"),
    Row(0x03288833, "mul x16,x17,x18"),
    Row(0x035a19b3, "mulh x19,x20,x21"),
    Row(0x038bab33, "mulhsu x22,x23,x24"),
    Row(0x03bd3cb3, "mulhu x25,x26,x27"),
    Row(0x0262c3b3, "div x7,x5,x6"),
    Row(0x0262d3b3, "divu x7,x5,x6"),
    Row(0x0262e3b3, "rem x7,x5,x6"),
    Row(0x0262f3b3, "remu x7,x5,x6"),
    Row(0x100522af, "lr.w x5,(x10)"),
    Row(0x1855232f, "sc.w x6,x5,(x10)"),
    Row(0x0884a3af, "amoswap.w x7,x8,(x9)"),
    Row(0x00b6252f, "amoadd.w x10,x11,(x12)"),
    Row(0x20e7a6af, "amoxor.w x13,x14,(x15)"),
    Row(0x6119282f, "amoand.w x16,x17,(x18)"),
    Row(0x414aa9af, "amoor.w x19,x20,(x21)"),
    Row(0x817c2b2f, "amomin.w x22,x23,(x24)"),
    Row(0xa1adacaf, "amomax.w x25,x26,(x27)"),
    Row(0xc1df2e2f, "amominu.w x28,x29,(x30)"),
    Row(0xe0112faf, "amomaxu.w x31,x1,(x2)"),
];

// Words that have no row: zeros, a load of RV64, a shift whose amount has a sixth bit, a branch
// with an unused function, and ecall with a register; `lr.w` with a register as rs2, `lr.d` of
// RV64, and an atomic with an unused code.
const ILLEGAL: [u32; 8] = [
    0x00000000, 0x00003003, 0x03f61593, 0x00002063, 0x000000f3, 0x101522af, 0x100532af, 0x285522af,
];

// An atomic that orders the memory, as the assembler has it, and the one that does not.
struct Ordered(u32, u32);

// lr.w.aq x5,(x10); sc.w.rl x6,x5,(x10); amoadd.w.aqrl x10,x11,(x12); amomaxu.w.aqrl x31,x1,(x2)
const ORDERED: [Ordered; 4] = [
    Ordered(0x140522af, 0x100522af),
    Ordered(0x1a55232f, 0x1855232f),
    Ordered(0x06b6252f, 0x00b6252f),
    Ordered(0xe6112faf, 0xe0112faf),
];

// Whether the word has this text, and is the word of its instruction.
fn is_read(alloc: Global, row: &Row) -> Result<bool, AllocError> {
    let Row(word, text) = row;
    let Some(instr) = decode(*word) else {
        return Ok(false);
    };
    let own = instr_text(alloc, &instr)?;
    Ok(own.as_str() == *text && encode(&instr) == *word)
}

#[test]
fn reads_each_row(rt: HostRuntime) -> Result<(), Fail> {
    for row in ROWS.iter() {
        assert!(rt; is_read(rt.alloc(), row)?, "of {:08x}", row.0);
    }
    for word in ILLEGAL.iter() {
        assert!(rt; decode(*word).is_none(), "of {word:08x}");
    }
    Ok(())
}

// What is encoded is decoded again, by the clauses of both.
fn decoded_again(i: &Instr) -> Option<Instr>
    ensures { result ≡ Some i.now }
{
    decode(encode(i))
}

#[test]
fn ignores_what_orders_the_memory(rt: HostRuntime) -> Result<(), Fail> {
    for Ordered(word, plain) in ORDERED.iter() {
        let instr = decode(*word).ok_or("no row")?;
        assert!(rt; decode(*plain) == Some(instr), "of {word:08x}");
        assert!(rt; encode(&instr) == *plain, "of {word:08x}");
    }
    Ok(())
}

// What is decoded is encoded again, unless a bit is set that its row ignores.
fn encoded_again(word: u32) -> Option<u32>
    ensures { IfSome result (λ again. (i : Fields) → decoded word ≡ Some i
        → HasPlainBits (row_of i.op) word → again ≡ word) }
{
    let i = decode(word)?;
    Some(encode(&i))
}

#[test]
fn goes_there_and_back(rt: HostRuntime) -> Result<(), Fail> {
    let instr = decode(0x0262c3b3).ok_or("no row")?;
    assert!(rt; decoded_again(&instr) == Some(instr));
    assert!(rt; encoded_again(0x0262c3b3) == Some(0x0262c3b3));
    assert!(rt; encoded_again(0x1855232f) == Some(0x1855232f));
    // fence rw, rw becomes a fence of all accesses
    assert!(rt; encoded_again(0x0330000f) == Some(0x0ff0000f));
    Ok(())
}

// The result of the arithmetic at `a` and `b`.
struct Computed {
    op: Op,
    a: u32,
    b: u32,
    result: u32,
}

// The edges of division, and the signs of the upper products.
const RESULTS: [Computed; 9] = [
    Computed {
        op: Op::Div,
        a: 7,
        b: 0,
        result: 0xffffffff,
    },
    Computed {
        op: Op::Divu,
        a: 7,
        b: 0,
        result: 0xffffffff,
    },
    Computed {
        op: Op::Rem,
        a: 7,
        b: 0,
        result: 7,
    },
    Computed {
        op: Op::Remu,
        a: 7,
        b: 0,
        result: 7,
    },
    Computed {
        op: Op::Div,
        a: 0x80000000,
        b: 0xffffffff,
        result: 0x80000000,
    },
    Computed {
        op: Op::Rem,
        a: 0x80000000,
        b: 0xffffffff,
        result: 0,
    },
    Computed {
        op: Op::Mulh,
        a: 0xffffffff,
        b: 2,
        result: 0xffffffff,
    },
    Computed {
        op: Op::Mulhsu,
        a: 2,
        b: 0xffffffff,
        result: 1,
    },
    Computed {
        op: Op::Sra,
        a: 0x80000000,
        b: 33,
        result: 0xc0000000,
    },
];

// What an atomic stores where the word is `a` and the value of rs2 is `b`.
const STORED: [Computed; 14] = [
    Computed {
        op: Op::AmoswapW,
        a: 5,
        b: 7,
        result: 7,
    },
    Computed {
        op: Op::AmoaddW,
        a: 0xffffffff,
        b: 2,
        result: 1,
    },
    Computed {
        op: Op::AmoxorW,
        a: 0xff00ff00,
        b: 0x0ff00ff0,
        result: 0xf0f0f0f0,
    },
    Computed {
        op: Op::AmoandW,
        a: 0xff00ff00,
        b: 0x0ff00ff0,
        result: 0x0f000f00,
    },
    Computed {
        op: Op::AmoorW,
        a: 0xff00ff00,
        b: 0x0ff00ff0,
        result: 0xfff0fff0,
    },
    Computed {
        op: Op::AmominW,
        a: 0x80000000,
        b: 0x7fffffff,
        result: 0x80000000,
    },
    Computed {
        op: Op::AmominW,
        a: 0,
        b: 0xffffffff,
        result: 0xffffffff,
    },
    Computed {
        op: Op::AmomaxW,
        a: 0x80000000,
        b: 0x7fffffff,
        result: 0x7fffffff,
    },
    Computed {
        op: Op::AmomaxW,
        a: 0,
        b: 0xffffffff,
        result: 0,
    },
    Computed {
        op: Op::AmominuW,
        a: 0x80000000,
        b: 0x7fffffff,
        result: 0x7fffffff,
    },
    Computed {
        op: Op::AmominuW,
        a: 0,
        b: 0xffffffff,
        result: 0,
    },
    Computed {
        op: Op::AmomaxuW,
        a: 0x80000000,
        b: 0x7fffffff,
        result: 0x80000000,
    },
    Computed {
        op: Op::AmomaxuW,
        a: 0,
        b: 0xffffffff,
        result: 0xffffffff,
    },
    // the same on both sides
    Computed {
        op: Op::AmomaxW,
        a: 6,
        b: 6,
        result: 6,
    },
];

#[test]
fn computes(rt: HostRuntime) {
    for (k, row) in RESULTS.iter().enumerate() {
        assert!(rt; alu(row.op, row.a, row.b) == Some(row.result), "result {k}");
    }
    for (k, row) in STORED.iter().enumerate() {
        assert!(rt; amo(row.op, row.a, row.b) == row.result, "stored {k}");
    }
    assert!(rt; is_taken(Op::Blt, 0xffffffff, 0));
    assert!(rt; loaded(Op::Lb, 0x80) == 0xffffff80);
}

#[test]
fn sorts(rt: HostRuntime) -> Result<(), Fail> {
    // jal x1, 20; jalr x0, 0(x1); lh x7, -2048(x8); lr.w x5, (x10); sc.w x6, x5, (x10)
    let call = decode(0x014000ef).ok_or("no row")?;
    let back = decode(0x00008067).ok_or("no row")?;
    let load = decode(0x80041383).ok_or("no row")?;
    assert!(rt; link_kind(&call) == Link::Push && link_kind(&back) == Link::Pop);
    assert!(rt; is_terminator(&call) && !is_terminator(&load));
    assert!(rt; mem_size(&load) == 2);
    for word in [0x100522af, 0x1855232f] {
        let atomic = decode(word).ok_or("no row")?;
        assert!(rt; mem_size(&atomic) == 4 && !is_terminator(&atomic));
    }
    Ok(())
}
