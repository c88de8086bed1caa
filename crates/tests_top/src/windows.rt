// Runs by windows, which is the usual way. Each count is of the manual's instructions by hand, as the positions of cuts are.
use crate::outside::{
    CALL_BETWEEN, HELLO, STORE_RESERVED, Wanted, are, has_no_line, is_cut, is_refused, outside_of,
    run_paced,
};
use sample_files::{one_segment, two_segments};
use sp_host::Port;
use std::alloc::{AllocError, Global};
use std::test::Fail;
use std::thread::Threads;
use superpin_top::{Answer, Refusal};

/// `addi x5, x0, 1`, `addi x5, x5, 1`, then `exit(7)`.
const ADD_TWICE: [u32; 5] = [0x00100293, 0x00128293, 0x05d00893, 0x00700513, 0x00000073];

/// Counts to 6 in memory, then `exit(7)`.
const COUNT_TO_SIX: [u32; 12] = [
    0x00020337, 0x00600393, 0x00032283, 0x00128293, 0x00532023, 0x407282b3, 0x00028663, 0x00000293,
    0xfe9ff06f, 0x05d00893, 0x00700513, 0x00000073,
];

/// Asks `getpid` and the clock until a second has passed, then `exit(7)`.
const WAIT_A_SECOND: [u32; 12] = [
    0x00020337, 0x0ac00893, 0x00000073, 0x19300893, 0x00100513, 0x00030593, 0x00000073, 0x00032283,
    0xfe0282e3, 0x05d00893, 0x00700513, 0x00000073,
];

/// Loads two words of one line, then `exit(7)`.
const LOAD_A_LINE: [u32; 6] = [
    0x00020337, 0x00032283, 0x00432283, 0x05d00893, 0x00700513, 0x00000073,
];

/// Calls to depth 3, returns and calls again, then `exit(7)`.
const CALL_DEEP: [u32; 14] = [
    0x014000ef, 0x030000ef, 0x05d00893, 0x00700513, 0x00000073, 0x00008413, 0x00c000ef, 0x00040093,
    0x00008067, 0x00008493, 0x00c000ef, 0x00048093, 0x00008067, 0x00008067,
];

/// Maps 100 pages and writes one word to each, then `exit(7)`.
const WRITE_PAGES: [u32; 14] = [
    0x000645b7, 0x00300613, 0x02200693, 0x0de00893, 0x00000073, 0x00001337, 0x06400393, 0x00652023,
    0x00650533, 0xfff38393, 0xfe039ae3, 0x05d00893, 0x00700513, 0x00000073,
];

// A program, its words and pacer, the writes that fail, and what is left. It has a second segment of 0x2000 zeros at 0x20000
// where `data` is true.
struct Row {
    code: &'static [u32],
    data: bool,
    words: &'static [&'static str],
    pacer: &'static [bool],
    failing: &'static [u64],
    answer: Wanted,
    cuts: &'static [u64],
    out: &'static [u8],
    report: &'static [u8],
}

const ADDS: Row = Row {
    code: &ADD_TWICE,
    data: false,
    words: &["run", "--poll", "1", "--tool", "blocks", "f"],
    pacer: &[false, true],
    failing: &[],
    answer: Wanted::Status(7),
    cuts: &[2],
    out: b"",
    report: b"block 0x00010054 5 1 -\nend exit 7\n",
};

const COUNTS: Row = Row {
    code: &COUNT_TO_SIX,
    data: true,
    words: &["run", "--poll", "23", "--slices", "f"],
    pacer: &[true],
    cuts: &[23],
    report: b"icount 45\nend exit 7\nslice 0 23 0 4 4 4 1\nslice 1 22 0 0 0 0 0\n",
    ..ADDS
};

const HELLO_CUT: Row = Row {
    code: &HELLO,
    words: &["run", "--poll", "1", "--slices", "f"],
    pacer: &[true; 8],
    answer: Wanted::Status(0),
    cuts: &[1, 2, 3, 4, 5, 6, 7, 8],
    out: b"hello\n",
    report: b"icount 9\nend exit 0\n\
        slice 0 1 0 1 1 1 1\nslice 1 1 0 1 1 1 1\nslice 2 1 0 1 1 1 1\n\
        slice 3 1 0 1 1 1 1\nslice 4 1 0 1 1 1 1\nslice 5 1 1 1 1 1 1\n\
        slice 6 1 0 1 1 1 1\nslice 7 1 0 1 1 1 1\nslice 8 1 0 0 0 0 0\n",
    ..ADDS
};

const ROWS: [Row; 15] = [
    ADDS,
    Row {
        words: &["run", "--poll", "1", "--tool", "bcount", "f"],
        report: b"bcount 1 5\nend exit 7\n",
        ..ADDS
    },
    COUNTS,
    Row {
        words: &["run", "--poll", "23", "--limit", "1", "f"],
        report: b"icount 45\nend exit 7\n",
        ..COUNTS
    },
    Row {
        words: &["run", "--poll", "23", "--budget", "30", "f"],
        answer: Wanted::Refusal(Refusal::BudgetSpent { n: 30 }),
        cuts: &[],
        report: b"superpin: 7 budget 30 spent\n",
        ..COUNTS
    },
    Row {
        code: &WAIT_A_SECOND,
        words: &["run", "--poll", "25", "--slices", "f"],
        cuts: &[25],
        report: b"icount 36\nend exit 7\nslice 0 25 6 1 1 1 1\nslice 1 11 2 0 0 0 0\n",
        ..COUNTS
    },
    HELLO_CUT,
    Row {
        words: &["run", "--poll", "1", "f"],
        report: b"icount 9\nend exit 0\n",
        ..HELLO_CUT
    },
    Row {
        words: &["run", "--poll", "1", "f"],
        failing: &[3],
        answer: Wanted::Refusal(Refusal::OutputFault { port: Port::Out }),
        cuts: &[],
        out: b"he",
        report: b"superpin: 9 output fault Out\n",
        ..HELLO_CUT
    },
    Row {
        code: &LOAD_A_LINE,
        data: true,
        words: &["run", "--poll", "1", "--tool", "cache:2:16", "f"],
        report: b"cache 2 16 accesses 2 hits 1 misses 1\nend exit 7\n",
        ..ADDS
    },
    Row {
        code: &CALL_DEEP,
        words: &["run", "--poll", "5", "--tool", "calls", "f"],
        pacer: &[true],
        cuts: &[5],
        report: b"call 0 0x00010054 0x00010068 -\ncall 1 0x0001006c 0x00010078 -\n\
            call 2 0x0001007c 0x00010088 -\ncall 0 0x00010058 0x00010088 -\nend exit 7\n",
        ..ADDS
    },
    Row {
        code: &STORE_RESERVED,
        data: true,
        words: &["run", "--poll", "1", "f"],
        report: b"icount 8\nend exit 7\n",
        ..ADDS
    },
    Row {
        code: &STORE_RESERVED,
        data: true,
        words: &["run", "--poll", "1", "--tool", "cache:2:16", "f"],
        pacer: &[true; 7],
        cuts: &[1, 2, 3, 4, 5, 6, 7],
        report: b"cache 2 16 accesses 2 hits 1 misses 1\nend exit 7\n",
        ..ADDS
    },
    Row {
        code: &CALL_BETWEEN,
        data: true,
        words: &["run", "--poll", "4", "f"],
        pacer: &[true],
        cuts: &[4],
        report: b"icount 9\nend exit 7\n",
        ..ADDS
    },
    Row {
        code: &WRITE_PAGES,
        words: &["run", "--frames", "64", "f"],
        pacer: &[],
        cuts: &[136, 268, 400],
        report: b"icount 410\nend exit 7\n",
        ..ADDS
    },
];

// Whether that is the answer.
fn is_answered(answer: &Answer, row: &Row) -> bool {
    match row.answer {
        Wanted::Status(status) => is_cut(answer, status, row.cuts),
        Wanted::Refusal(refusal) => is_refused(answer, refusal),
    }
}

fn file_of(alloc: Global, row: &Row) -> Result<Vec<u8>, AllocError> {
    if row.data {
        two_segments(alloc, row.code)
    } else {
        one_segment(alloc, row.code)
    }
}

fn holds<R: Threads + Sync>(rt: &R, alloc: Global, row: &Row) -> Result<bool, Fail> {
    let most = if row.failing.is_empty() { 65_536 } else { 1 };
    let mut outside = outside_of(alloc, file_of(alloc, row)?, most);
    outside.moments = [0, 0, 0, 1_000_000_000].to_vec(alloc)?;
    outside.plan.out = row.failing.to_vec(alloc)?;
    let done = run_paced(rt, alloc, row.words, outside, row.pacer)?;
    Ok(is_answered(&done.answer, row) && are(&done.out, row.out) && are(&done.report, row.report))
}

#[test]
fn runs_by_windows(rt: HostRuntime) -> Result<(), Fail> {
    for (k, row) in ROWS.iter().enumerate() {
        assert!(rt; holds(&rt, rt.alloc(), row)?, "row {k}");
    }
    Ok(())
}

const DEMO_7: &[u8] = b"demo 7 file 2640\nicount 77553\nbcount 9065 77553\n\
    cache 64 32 accesses 11078 hits 1007 misses 10071\nend exit 0\ncuts 18\n\
    matches 971 18 18 18\nequal\n";

#[test]
fn a_program_is_demonstrated(rt: HostRuntime) -> Result<(), Fail> {
    let alloc = rt.alloc();
    let outside = outside_of(alloc, Vec::new(alloc), 65_536);
    let done = run_paced(&rt, alloc, &["demo", "7"], outside, &[])?;
    assert!(rt; is_cut(&done.answer, 0, &[]) && has_no_line(&done.answer));
    assert!(rt; are(&done.out, DEMO_7) && done.err.is_empty() && done.report.is_empty());
    Ok(())
}
