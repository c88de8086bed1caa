// Each tool on whole runs. The counts are by hand, of the manual's instructions, and of the rule that a block is the run of
// words from an address on that are instructions, up to and including the first that ends it.
use crate::outside::{HELLO, STORE_RESERVED, are, is_ended, is_refused, outside_of, run};
use sample_files::{EXIT_7, LOAD_PAST_DATA, one_segment, two_segments};
use std::alloc::{AllocError, Global};
use std::test::Fail;
use std::thread::Threads;
use superpin_top::Refusal;

// A program, and what each tool reports. It has a second segment of 0x2000 zeros at 0x20000 where `data` is true.
struct Row {
    data: bool,
    code: &'static [u32],
    icount: &'static str,
    bcount: &'static str,
    mix: &'static str,
    blocks: &'static str,
    end: &'static str,
    status: u8,
}

const ROWS: [Row; 7] = [
    Row {
        data: false,
        code: &[0x00100293, 0x00128293, 0x05d00893, 0x00700513, 0x00000073],
        icount: "icount 5\n",
        bcount: "bcount 1 5\n",
        mix: "mix addi 4\nmix ecall 1\n",
        blocks: "block 0x00010054 5 1 -\n",
        end: "end exit 7\n",
        status: 7,
    },
    // A call that goes on ends a block.
    Row {
        data: false,
        code: &HELLO,
        icount: "icount 9\n",
        bcount: "bcount 2 9\n",
        mix: "mix lui 1\nmix addi 6\nmix ecall 2\n",
        blocks: "block 0x00010054 6 1 -\nblock 0x0001006c 3 1 -\n",
        end: "end exit 0\n",
        status: 0,
    },
    // A loop that is entered above its head: it counts to 6 in memory.
    Row {
        data: true,
        code: &[
            0x00020337, 0x00600393, 0x00032283, 0x00128293, 0x00532023, 0x407282b3, 0x00028663,
            0x00000293, 0xfe9ff06f, 0x05d00893, 0x00700513, 0x00000073,
        ],
        icount: "icount 45\n",
        bcount: "bcount 12 45\n",
        mix: "mix lui 1\nmix jal 5\nmix beq 6\nmix lw 6\nmix sw 6\nmix addi 14\nmix sub 6\nmix ecall 1\n",
        blocks: "block 0x00010074 7 1 -\nblock 0x0001007c 5 5 -\nblock 0x00010090 2 5 -\nblock 0x00010098 3 1 -\n",
        end: "end exit 7\n",
        status: 7,
    },
    // `lr.w` and `sc.w`, behind the others in the table.
    Row {
        data: true,
        code: &STORE_RESERVED,
        icount: "icount 8\n",
        bcount: "bcount 2 8\n",
        mix: "mix lui 1\nmix bne 1\nmix addi 3\nmix ecall 1\nmix lr.w 1\nmix sc.w 1\n",
        blocks: "block 0x00010074 4 1 -\nblock 0x00010084 4 1 -\n",
        end: "end exit 7\n",
        status: 7,
    },
    // A jump over a word that is no instruction.
    Row {
        data: false,
        code: &[
            0x000102b7, 0x061280e7, 0, 0x05d00893, 0x00700513, 0x00000073,
        ],
        icount: "icount 5\n",
        bcount: "bcount 2 5\n",
        mix: "mix lui 1\nmix jalr 1\nmix addi 2\nmix ecall 1\n",
        blocks: "block 0x00010054 2 1 -\nblock 0x00010060 3 1 -\n",
        end: "end exit 7\n",
        status: 7,
    },
    // A load that faults is counted: it was tried.
    Row {
        data: true,
        code: &LOAD_PAST_DATA,
        icount: "icount 2\n",
        bcount: "bcount 1 2\n",
        mix: "mix lui 1\nmix lw 1\n",
        blocks: "block 0x00010074 2 1 -\n",
        end: "end signal 11 at 0x00010078\n",
        status: 139,
    },
    // A word that is no instruction is not, and a block that it cuts is no longer than what was run.
    Row {
        data: false,
        code: &[0x00100293, 0x00128293, 0],
        icount: "icount 2\n",
        bcount: "bcount 1 2\n",
        mix: "mix addi 2\n",
        blocks: "block 0x00010054 2 1 -\n",
        end: "end signal 4 at 0x0001005c\n",
        status: 132,
    },
];

fn program(alloc: Global, row: &Row) -> Result<Vec<u8>, AllocError> {
    if row.data {
        two_segments(alloc, row.code)
    } else {
        one_segment(alloc, row.code)
    }
}

// Whether the tool of this name reports this.
fn reports<R: Threads + Sync>(
    rt: &R,
    alloc: Global,
    row: &Row,
    tool: &str,
    text: &str,
) -> Result<bool, Fail> {
    let words = ["run", "--tool", tool, "--by", "serial", "f"];
    let done = run(
        rt,
        alloc,
        &words,
        outside_of(alloc, program(alloc, row)?, 65_536),
    )?;
    let mut report = text.as_bytes().to_vec(alloc)?;
    report.extend_from_slice(row.end.as_bytes())?;
    Ok(is_ended(&done.answer, row.status) && are(&done.report, &report))
}

#[test]
fn tools_report(rt: HostRuntime) -> Result<(), Fail> {
    let alloc = rt.alloc();
    for (k, row) in ROWS.iter().enumerate() {
        let holds = reports(&rt, alloc, row, "icount", row.icount)?
            && reports(&rt, alloc, row, "bcount", row.bcount)?
            && reports(&rt, alloc, row, "mix", row.mix)?
            && reports(&rt, alloc, row, "blocks", row.blocks)?;
        assert!(rt; holds, "row {k}");
    }
    Ok(())
}

// A program, the word of a tool, and what it reports.
struct Reconciled {
    data: bool,
    code: &'static [u32],
    tool: &'static str,
    text: &'static str,
    status: u8,
}

// Two loads of four bytes each, side by side.
const TWO_LOADS: [u32; 6] = [
    0x00020337, 0x00032283, 0x00432283, 0x05d00893, 0x00700513, 0x00000073,
];

// Calls to depth 3, the returns, and a call again.
const NESTED: [u32; 14] = [
    0x014000ef, 0x030000ef, 0x05d00893, 0x00700513, 0x00000073, 0x00008413, 0x00c000ef, 0x00040093,
    0x00008067, 0x00008493, 0x00c000ef, 0x00048093, 0x00008067, 0x00008067,
];

const RECONCILED: [Reconciled; 6] = [
    Reconciled {
        data: true,
        code: &TWO_LOADS,
        tool: "cache:2:16",
        text: "cache 2 16 accesses 2 hits 1 misses 1\nend exit 7\n",
        status: 7,
    },
    Reconciled {
        data: true,
        code: &TWO_LOADS,
        tool: "cache:1:4",
        text: "cache 1 4 accesses 2 hits 0 misses 2\nend exit 7\n",
        status: 7,
    },
    // An atomic that reads and writes is one access: lui x6, 0x20, twice amoadd.w x5, x6, (x6), then exit(7).
    Reconciled {
        data: true,
        code: &[
            0x00020337, 0x006322af, 0x006322af, 0x05d00893, 0x00700513, 0x00000073,
        ],
        tool: "cache:2:16",
        text: "cache 2 16 accesses 2 hits 1 misses 1\nend exit 7\n",
        status: 7,
    },
    // The load faults, and is an access to two lines: it is called for before it is tried.
    Reconciled {
        data: true,
        code: &LOAD_PAST_DATA,
        tool: "cache",
        text: "cache 64 32 accesses 2 hits 0 misses 2\nend signal 11 at 0x00010078\n",
        status: 139,
    },
    Reconciled {
        data: false,
        code: &NESTED,
        tool: "calls",
        text: "call 0 0x00010054 0x00010068 -\ncall 1 0x0001006c 0x00010078 -\n\
            call 2 0x0001007c 0x00010088 -\ncall 0 0x00010058 0x00010088 -\nend exit 7\n",
        status: 7,
    },
    // A jump by a register that keeps where it came from is a call.
    Reconciled {
        data: false,
        code: &[
            0x000102b7, 0x061280e7, 0, 0x05d00893, 0x00700513, 0x00000073,
        ],
        tool: "calls",
        text: "call 0 0x00010058 0x00010060 -\nend exit 7\n",
        status: 7,
    },
];

fn holds<R: Threads + Sync>(rt: &R, alloc: Global, row: &Reconciled) -> Result<bool, Fail> {
    let words = ["run", "--tool", row.tool, "--by", "serial", "f"];
    let file = if row.data {
        two_segments(alloc, row.code)?
    } else {
        one_segment(alloc, row.code)?
    };
    let done = run(rt, alloc, &words, outside_of(alloc, file, 65_536))?;
    Ok(is_ended(&done.answer, row.status) && are(&done.report, row.text.as_bytes()))
}

#[test]
fn reconciling_tools_report(rt: HostRuntime) -> Result<(), Fail> {
    let alloc = rt.alloc();
    for (k, row) in RECONCILED.iter().enumerate() {
        assert!(rt; holds(&rt, alloc, row)?, "row {k}");
    }
    Ok(())
}

#[test]
fn budget_leaves_no_report(rt: HostRuntime) -> Result<(), Fail> {
    let alloc = rt.alloc();
    let words = [
        "run", "--by", "serial", "--tool", "blocks", "--budget", "2", "f",
    ];
    let done = run(
        &rt,
        alloc,
        &words,
        outside_of(alloc, one_segment(alloc, &EXIT_7)?, 65_536),
    )?;
    assert!(rt; is_refused(&done.answer, Refusal::BudgetSpent { n: 2 }));
    assert!(rt; are(&done.report, b"superpin: 7 budget 2 spent\n"));
    Ok(())
}
