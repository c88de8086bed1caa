// Runs that end. Each count is of the manual's instructions by hand, and each result of a call that
// of Linux.
use crate::outside::{
    CALL_BETWEEN, HELLO, READ_TWICE, SERIAL, STORE_RESERVED, are, has_one_line, is_ended,
    outside_of, run,
};
use sample_files::{EXIT_7, LOAD_PAST_DATA, one_segment, two_segments};
use std::alloc::{AllocError, Global};
use std::test::Fail;
use std::thread::Threads;

// A program, what it meets, and what it leaves. It has a second segment of 0x2000 zeros at 0x20000
// where `data` is true.
struct Row {
    data: bool,
    code: &'static [u32],
    input: &'static [u8],
    moments: &'static [u64],
    out: &'static [u8],
    err: &'static [u8],
    report: &'static [u8],
    status: u8,
    // The instructions that were tried, and the calls that went on.
    steps: u64,
    calls: u64,
}

const QUIET: Row = Row {
    data: false,
    code: &EXIT_7,
    input: b"",
    moments: &[],
    out: b"",
    err: b"",
    report: b"icount 3\nend exit 7\n",
    status: 7,
    steps: 3,
    calls: 0,
};

fn program(alloc: Global, row: &Row) -> Result<Vec<u8>, AllocError> {
    if row.data {
        two_segments(alloc, row.code)
    } else {
        one_segment(alloc, row.code)
    }
}

fn holds<R: Threads + Sync>(rt: &R, alloc: Global, row: &Row) -> Result<bool, Fail> {
    let mut outside = outside_of(alloc, program(alloc, row)?, 65_536);
    outside.input = row.input.to_vec(alloc)?;
    outside.moments = row.moments.to_vec(alloc)?;
    let done = run(rt, alloc, &SERIAL, outside)?;
    Ok(
        is_ended(&done.answer, row.status)
            && has_one_line(&done.answer, row.steps, row.calls)
            && are(&done.out, row.out)
            && are(&done.err, row.err)
            && are(&done.report, row.report),
    )
}

const EXITS: [Row; 5] = [
    QUIET,
    Row {
        code: &HELLO,
        out: b"hello\n",
        report: b"icount 9\nend exit 0\n",
        steps: 9,
        calls: 1,
        status: 0,
        ..QUIET
    },
    // The same to the standard error.
    Row {
        code: &[
            0x04000893, 0x00200513, 0x000105b7, 0x07858593, 0x00600613, 0x00000073, 0x05d00893,
            0x00000513, 0x00000073, 0x6c6c6568, 0x00000a6f,
        ],
        err: b"hello\n",
        report: b"icount 9\nend exit 0\n",
        steps: 9,
        calls: 1,
        status: 0,
        ..QUIET
    },
    // jalr to an odd address, whose lowest bit is cleared.
    Row {
        code: &[
            0x000102b7, 0x061280e7, 0, 0x05d00893, 0x00700513, 0x00000073,
        ],
        report: b"icount 5\nend exit 7\n",
        steps: 5,
        ..QUIET
    },
    // `lr.w` and `sc.w`, and an instruction more where that stored.
    Row {
        data: true,
        code: &STORE_RESERVED,
        report: b"icount 8\nend exit 7\n",
        steps: 8,
        ..QUIET
    },
];

#[test]
fn programs_exit(rt: HostRuntime) -> Result<(), Fail> {
    for (k, row) in EXITS.iter().enumerate() {
        let holds = holds(&rt, rt.alloc(), row)?;
        assert!(rt; holds, "row {k}");
    }
    Ok(())
}

const CALLS: [Row; 7] = [
    // A write to descriptor 3 is EBADF, of a byte that is not mapped EFAULT, of no bytes 0: the
    // exit shows the result.
    Row {
        code: &[
            0x04000893, 0x00300513, 0x00100613, 0x00000073, 0x05d00893, 0x00000073,
        ],
        report: b"icount 6\nend exit 247\n",
        steps: 6,
        calls: 1,
        status: 247,
        ..QUIET
    },
    Row {
        code: &[
            0x04000893, 0x00100513, 0x300005b7, 0x00100613, 0x00000073, 0x05d00893, 0x00000073,
        ],
        report: b"icount 7\nend exit 242\n",
        steps: 7,
        calls: 1,
        status: 242,
        ..QUIET
    },
    Row {
        code: &[
            0x04000893, 0x00100513, 0x300005b7, 0x00000613, 0x00000073, 0x05d00893, 0x00000073,
        ],
        report: b"icount 7\nend exit 0\n",
        steps: 7,
        calls: 1,
        status: 0,
        ..QUIET
    },
    Row {
        data: true,
        code: &READ_TWICE,
        input: b"ab",
        report: b"icount 10\nend exit 7\n",
        steps: 10,
        calls: 2,
        ..QUIET
    },
    // getpid and clock_gettime64 in turn, until a second is stored at 0x20000.
    Row {
        data: true,
        code: &[
            0x00020337, 0x0ac00893, 0x00000073, 0x19300893, 0x00100513, 0x00030593, 0x00000073,
            0x00032283, 0xfe0282e3, 0x05d00893, 0x00700513, 0x00000073,
        ],
        moments: &[0, 0, 0, 1_000_000_000],
        report: b"icount 36\nend exit 7\n",
        steps: 36,
        calls: 8,
        ..QUIET
    },
    // mmap2 of 100 pages, in each of which a word is stored.
    Row {
        code: &[
            0x000645b7, 0x00300613, 0x02200693, 0x0de00893, 0x00000073, 0x00001337, 0x06400393,
            0x00652023, 0x00650533, 0xfff38393, 0xfe039ae3, 0x05d00893, 0x00700513, 0x00000073,
        ],
        report: b"icount 410\nend exit 7\n",
        steps: 410,
        calls: 1,
        ..QUIET
    },
    // `lr.w`, getpid, and `sc.w`, which does not store behind a call.
    Row {
        data: true,
        code: &CALL_BETWEEN,
        report: b"icount 9\nend exit 7\n",
        steps: 9,
        calls: 1,
        ..QUIET
    },
];

#[test]
fn programs_call(rt: HostRuntime) -> Result<(), Fail> {
    for (k, row) in CALLS.iter().enumerate() {
        let holds = holds(&rt, rt.alloc(), row)?;
        assert!(rt; holds, "row {k}");
    }
    Ok(())
}

const SIGNALS: [Row; 6] = [
    // jalr to an address that is no multiple of 4.
    Row {
        code: &[0x000102b7, 0x002280e7],
        report: b"icount 2\nend signal 7 at 0x00010058\n",
        steps: 2,
        status: 135,
        ..QUIET
    },
    // An atomic at an address that is no multiple of 4: addi x5, x0, 2, and amoadd.w x7, x6, (x5).
    Row {
        code: &[0x00200293, 0x0062a3af],
        report: b"icount 2\nend signal 7 at 0x00010058\n",
        steps: 2,
        status: 135,
        ..QUIET
    },
    // A store into code, and a load of four bytes of which two are behind the second segment.
    Row {
        code: &[0x000102b7, 0x0002a023],
        report: b"icount 2\nend signal 11 at 0x00010058\n",
        steps: 2,
        status: 139,
        ..QUIET
    },
    Row {
        data: true,
        code: &LOAD_PAST_DATA,
        report: b"icount 2\nend signal 11 at 0x00010078\n",
        steps: 2,
        status: 139,
        ..QUIET
    },
    // A word of no instruction is not in the trace, and an ebreak is.
    Row {
        code: &[0x00000013, 0],
        report: b"icount 1\nend signal 4 at 0x00010058\n",
        steps: 1,
        status: 132,
        ..QUIET
    },
    Row {
        code: &[0x00000013, 0x00100073],
        report: b"icount 2\nend signal 5 at 0x00010058\n",
        steps: 2,
        status: 133,
        ..QUIET
    },
];

#[test]
fn programs_fault(rt: HostRuntime) -> Result<(), Fail> {
    for (k, row) in SIGNALS.iter().enumerate() {
        let holds = holds(&rt, rt.alloc(), row)?;
        assert!(rt; holds, "row {k}");
    }
    Ok(())
}

// A program whose segment ends within its last word: two bytes follow the words of code, and the
// page's zeros follow them.
struct Cut {
    code: &'static [u32],
    tail: [u8; 2],
    report: &'static [u8],
    status: u8,
}

const CUTS: [Cut; 2] = [
    // nop, then half of a nop.
    Cut {
        code: &[0x00000013],
        tail: [0x13, 0x00],
        report: b"icount 1\nend signal 4 at 0x0001005c\n",
        status: 132,
    },
    // A loop of three turns by `jalr x0, 0(x1)`, half of which is behind the end.
    Cut {
        code: &[
            0x00300293, 0x004000ef, 0x00028663, 0xfff28293, 0x0100006f, 0x05d00893, 0x00700513,
            0x00000073,
        ],
        tail: [0x67, 0x80],
        report: b"icount 15\nend exit 7\n",
        status: 7,
    },
];

// The sizes of the segment, in the file and in memory, have their low bytes at 68 and 72.
fn cut_program(alloc: Global, row: &Cut) -> Result<Vec<u8>, AllocError> {
    let mut bytes = one_segment(alloc, row.code)?;
    bytes.extend_from_slice(&row.tail)?;
    let size = (bytes.len() % 256) as u8;
    for place in [68, 72] {
        if let Some(byte) = bytes.get_mut(place) {
            *byte = size;
        }
    }
    Ok(bytes)
}

#[test]
fn a_cut_word_runs_and_is_not_counted(rt: HostRuntime) -> Result<(), Fail> {
    let alloc = rt.alloc();
    for (k, row) in CUTS.iter().enumerate() {
        let done = run(
            &rt,
            alloc,
            &SERIAL,
            outside_of(alloc, cut_program(alloc, row)?, 65_536),
        )?;
        assert!(rt; is_ended(&done.answer, row.status), "row {k}");
        assert!(rt; are(&done.report, row.report), "row {k}");
    }
    Ok(())
}
