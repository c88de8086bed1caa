// Live runs. Each count is of the manual's instructions by hand, as the positions of cuts are.
use crate::call::{Row, holds};
use hostile_rows::Wanted;
use sp_host::FreeGate;
use std::test::Fail;
use superpin_live_top::Refusal;

/// `exit(7)`.
const EXIT: [u32; 3] = [0x05d00893, 0x00700513, 0x00000073];

/// `addi x5, x0, 1`, `addi x5, x5, 1`, then `exit(7)`.
const ADD_TWICE: [u32; 5] = [0x00100293, 0x00128293, 0x05d00893, 0x00700513, 0x00000073];

/// Counts to 6 in memory, then `exit(7)`.
const COUNT_TO_SIX: [u32; 12] = [
    0x00020337, 0x00600393, 0x00032283, 0x00128293, 0x00532023, 0x407282b3, 0x00028663, 0x00000293,
    0xfe9ff06f, 0x05d00893, 0x00700513, 0x00000073,
];

/// Asks `getpid` and the clock until a second has passed, then `exit(7)`.
const WAIT_A_SECOND: [u32; 12] = [
    0x00020337, 0x0ac00893, 0x00000073, 0x19300893, 0x00100513, 0x00030593, 0x00000073, 0x00032283,
    0xfe0282e3, 0x05d00893, 0x00700513, 0x00000073,
];

/// `write(1, 0x10078, 6)`, `exit(0)`, then `hello` and a line end.
const HELLO: [u32; 11] = [
    0x04000893, 0x00100513, 0x000105b7, 0x07858593, 0x00600613, 0x00000073, 0x05d00893, 0x00000513,
    0x00000073, 0x6c6c6568, 0x00000a6f,
];

/// The same with the call 1, which has no row, in the place of `exit`.
const HELLO_AND_CALL_1: [u32; 11] = [
    0x04000893, 0x00100513, 0x000105b7, 0x07858593, 0x00600613, 0x00000073, 0x00100893, 0x00000513,
    0x00000073, 0x6c6c6568, 0x00000a6f,
];

/// Two reads of one byte to 0x20000, then `exit(7)`.
const READ_TWICE: [u32; 10] = [
    0x000205b7, 0x03f00893, 0x00000513, 0x00100613, 0x00000073, 0x00000513, 0x00000073, 0x05d00893,
    0x00700513, 0x00000073,
];

/// Loads two words of one line, then `exit(7)`.
const LOAD_A_LINE: [u32; 6] = [
    0x00020337, 0x00032283, 0x00432283, 0x05d00893, 0x00700513, 0x00000073,
];

/// Calls to depth 3, returns and calls again, then `exit(7)`.
const CALL_DEEP: [u32; 14] = [
    0x014000ef, 0x030000ef, 0x05d00893, 0x00700513, 0x00000073, 0x00008413, 0x00c000ef, 0x00040093,
    0x00008067, 0x00008493, 0x00c000ef, 0x00048093, 0x00008067, 0x00008067,
];

/// Maps 100 pages and writes one word to each, then `exit(7)`.
const WRITE_PAGES: [u32; 14] = [
    0x000645b7, 0x00300613, 0x02200693, 0x0de00893, 0x00000073, 0x00001337, 0x06400393, 0x00652023,
    0x00650533, 0xfff38393, 0xfe039ae3, 0x05d00893, 0x00700513, 0x00000073,
];

/// `lr.w` of the word at 0x20000 and `sc.w`, over an instruction where that did not store, then `exit(7)`.
const STORE_RESERVED: [u32; 8] = [
    0x00020337, 0x100322af, 0x185323af, 0x00039463, 0x00100293, 0x05d00893, 0x00700513, 0x00000073,
];

/// The same with a `getpid` between.
const CALL_BETWEEN: [u32; 10] = [
    0x00020337, 0x100322af, 0x0ac00893, 0x00000073, 0x185323af, 0x00039463, 0x00100293, 0x05d00893,
    0x00700513, 0x00000073,
];

const ADDS: Row = Row {
    code: &ADD_TWICE,
    data: false,
    words: &["run", "f"],
    pacer: &[],
    answer: Wanted::Status(7),
    cuts: &[],
    out: b"",
    report: b"icount 5\nend exit 7\n",
};

/// Cut in its fourth turn.
pub(crate) const COUNTS: Row = Row {
    code: &COUNT_TO_SIX,
    data: true,
    words: &[
        "run",
        "--poll",
        "23",
        "--limit",
        "2",
        "--workers",
        "2",
        "--slices",
        "f",
    ],
    pacer: &[true],
    cuts: &[23],
    report: b"icount 45\nend exit 7\nslice 0 23 0 4 4 4 1\nslice 1 22 0 0 0 0 0\n",
    ..ADDS
};

const HELLO_CUT: Row = Row {
    code: &HELLO,
    words: &["run", "--poll", "1", "--slices", "f"],
    pacer: &[true; 8],
    answer: Wanted::Status(0),
    cuts: &[1, 2, 3, 4, 5, 6, 7, 8],
    out: b"hello\n",
    report: b"icount 9\nend exit 0\n\
        slice 0 1 0 1 1 1 1\nslice 1 1 0 1 1 1 1\nslice 2 1 0 1 1 1 1\n\
        slice 3 1 0 1 1 1 1\nslice 4 1 0 1 1 1 1\nslice 5 1 1 1 1 1 1\n\
        slice 6 1 0 1 1 1 1\nslice 7 1 0 1 1 1 1\nslice 8 1 0 0 0 0 0\n",
    ..ADDS
};

const ROWS: [Row; 20] = [
    Row {
        code: &EXIT,
        report: b"icount 3\nend exit 7\n",
        ..ADDS
    },
    ADDS,
    Row {
        words: &["run", "--workers", "16", "--tool", "bcount", "f"],
        report: b"bcount 1 5\nend exit 7\n",
        ..ADDS
    },
    Row {
        words: &["run", "--poll", "1", "--tool", "blocks", "f"],
        pacer: &[false, true],
        cuts: &[2],
        report: b"block 0x00010054 5 1 -\nend exit 7\n",
        ..ADDS
    },
    Row {
        words: &["run", "--poll", "1", "--tool", "bcount", "f"],
        pacer: &[false, true],
        cuts: &[2],
        report: b"bcount 1 5\nend exit 7\n",
        ..ADDS
    },
    COUNTS,
    Row {
        words: &["run", "--poll", "23", "--limit", "1", "--workers", "1", "f"],
        report: b"icount 45\nend exit 7\n",
        ..COUNTS
    },
    Row {
        code: &WAIT_A_SECOND,
        words: &["run", "--poll", "25", "--slices", "f"],
        cuts: &[25],
        report: b"icount 36\nend exit 7\nslice 0 25 6 1 1 1 1\nslice 1 11 2 0 0 0 0\n",
        ..COUNTS
    },
    HELLO_CUT,
    Row {
        words: &["run", "--poll", "1", "--limit", "1", "--workers", "1", "f"],
        report: b"icount 9\nend exit 0\n",
        ..HELLO_CUT
    },
    Row {
        code: &READ_TWICE,
        words: &["run", "--poll", "1", "f"],
        pacer: &[true; 9],
        cuts: &[1, 2, 3, 4, 5, 6, 7, 8, 9],
        report: b"icount 10\nend exit 7\n",
        ..COUNTS
    },
    Row {
        code: &LOAD_A_LINE,
        data: true,
        words: &["run", "--poll", "1", "--tool", "cache:2:16", "f"],
        pacer: &[false, true],
        cuts: &[2],
        report: b"cache 2 16 accesses 2 hits 1 misses 1\nend exit 7\n",
        ..ADDS
    },
    Row {
        code: &CALL_DEEP,
        words: &["run", "--poll", "5", "--tool", "calls", "f"],
        pacer: &[true],
        cuts: &[5],
        report: b"call 0 0x00010054 0x00010068 -\ncall 1 0x0001006c 0x00010078 -\n\
            call 2 0x0001007c 0x00010088 -\ncall 0 0x00010058 0x00010088 -\nend exit 7\n",
        ..ADDS
    },
    Row {
        code: &STORE_RESERVED,
        data: true,
        words: &["run", "--poll", "1", "f"],
        pacer: &[false, true],
        cuts: &[2],
        report: b"icount 8\nend exit 7\n",
        ..ADDS
    },
    Row {
        code: &STORE_RESERVED,
        data: true,
        words: &["run", "--poll", "1", "f"],
        pacer: &[true; 7],
        cuts: &[1, 2, 3, 4, 5, 6, 7],
        report: b"icount 8\nend exit 7\n",
        ..ADDS
    },
    Row {
        code: &CALL_BETWEEN,
        data: true,
        words: &["run", "--poll", "4", "f"],
        pacer: &[true],
        cuts: &[4],
        report: b"icount 9\nend exit 7\n",
        ..ADDS
    },
    Row {
        code: &WRITE_PAGES,
        words: &["run", "--frames", "64", "f"],
        cuts: &[136, 268, 400],
        report: b"icount 410\nend exit 7\n",
        ..ADDS
    },
    Row {
        code: &WRITE_PAGES,
        words: &[
            "run",
            "--frames",
            "64",
            "--limit",
            "1",
            "--workers",
            "3",
            "f",
        ],
        cuts: &[136, 268, 400],
        report: b"icount 410\nend exit 7\n",
        ..ADDS
    },
    Row {
        words: &["run", "--poll", "23", "--budget", "30", "f"],
        answer: Wanted::Refusal(Refusal::BudgetSpent { n: 30 }),
        report: b"superpin: 7 budget 30 spent\n",
        ..COUNTS
    },
    Row {
        code: &HELLO_AND_CALL_1,
        words: &["run", "--poll", "1", "f"],
        answer: Wanted::Refusal(Refusal::UnsupportedCall {
            number: 1,
            pc: 0x10074,
        }),
        report: b"superpin: 6 unsupported call 1 at 0x00010074\n",
        ..HELLO_CUT
    },
];

#[test]
fn live_runs(rt: HostRuntime) -> Result<(), Fail> {
    for (k, row) in ROWS.iter().enumerate() {
        assert!(rt; holds(&rt, rt.alloc(), row, &FreeGate)?, "row {k}");
    }
    Ok(())
}
