// Calls of the outside that fail.
use crate::outside::{HELLO, Outside, READ_TWICE, SERIAL, Wanted, are, is_wanted, outside_of, run};
use sample_files::{one_segment, two_segments};
use sp_host::Port;
use std::alloc::{AllocError, Global};
use std::test::Fail;
use superpin_top::Refusal;

// Which call fails.
#[derive(Clone, Copy)]
enum Failing {
    File(u64),
    Input(u64),
    Out(u64),
    Err(u64),
    Report(u64),
}

// Which program runs.
#[derive(Clone, Copy)]
enum Program {
    Hello,
    HelloToError,
    ReadTwice,
}

// A program, the words, the most bytes that a call moves, the call that fails, and what is left.
struct Row {
    program: Program,
    words: &'static [&'static str],
    most: usize,
    failing: Failing,
    answer: Wanted,
    out: &'static [u8],
    err: &'static [u8],
    report: &'static [u8],
}

const FILE_FAULT: Row = Row {
    program: Program::Hello,
    words: &SERIAL,
    most: 1,
    failing: Failing::File(1),
    answer: Wanted::Refusal(Refusal::FileFault),
    out: b"",
    err: b"",
    report: b"superpin: 2 file fault\n",
};

const HELLO_ENDS: Row = Row {
    answer: Wanted::Status(0),
    out: b"hello\n",
    report: b"icount 9\nend exit 0\n",
    ..FILE_FAULT
};

const ROWS: [Row; 12] = [
    FILE_FAULT,
    Row {
        failing: Failing::File(129),
        ..FILE_FAULT
    },
    // A file that is not there.
    Row {
        words: &["run", "--by", "serial", "g"],
        most: 65_536,
        ..FILE_FAULT
    },
    Row {
        failing: Failing::File(130),
        ..HELLO_ENDS
    },
    Row {
        program: Program::ReadTwice,
        failing: Failing::Input(2),
        answer: Wanted::Refusal(Refusal::InputFault),
        report: b"superpin: 8 input fault\n",
        ..FILE_FAULT
    },
    Row {
        program: Program::ReadTwice,
        most: 65_536,
        failing: Failing::Input(2),
        answer: Wanted::Refusal(Refusal::InputFault),
        report: b"superpin: 8 input fault\n",
        ..FILE_FAULT
    },
    Row {
        program: Program::ReadTwice,
        failing: Failing::Input(3),
        answer: Wanted::Status(7),
        report: b"icount 10\nend exit 7\n",
        ..FILE_FAULT
    },
    Row {
        failing: Failing::Out(3),
        answer: Wanted::Refusal(Refusal::OutputFault { port: Port::Out }),
        out: b"he",
        report: b"superpin: 9 output fault Out\n",
        ..FILE_FAULT
    },
    Row {
        failing: Failing::Out(7),
        ..HELLO_ENDS
    },
    Row {
        program: Program::HelloToError,
        failing: Failing::Err(3),
        answer: Wanted::Refusal(Refusal::OutputFault { port: Port::Err }),
        err: b"he",
        report: b"superpin: 9 output fault Err\n",
        ..FILE_FAULT
    },
    Row {
        failing: Failing::Report(5),
        answer: Wanted::Refusal(Refusal::ReportFault),
        report: b"icou",
        ..HELLO_ENDS
    },
    Row {
        failing: Failing::Report(21),
        ..HELLO_ENDS
    },
];

fn file_of(alloc: Global, program: Program) -> Result<Vec<u8>, AllocError> {
    let mut to_error = HELLO;
    to_error[1] = 0x00200513;
    match program {
        Program::Hello => one_segment(alloc, &HELLO),
        Program::HelloToError => one_segment(alloc, &to_error),
        Program::ReadTwice => two_segments(alloc, &READ_TWICE),
    }
}

fn plan(outside: &mut Outside, failing: Failing) -> Result<(), Fail> {
    match failing {
        Failing::File(call) => outside.plan.file.push(call)?,
        Failing::Input(call) => outside.plan.input.push(call)?,
        Failing::Out(call) => outside.plan.out.push(call)?,
        Failing::Err(call) => outside.plan.err.push(call)?,
        Failing::Report(call) => outside.plan.report.push(call)?,
    }
    Ok(())
}

#[test]
fn faults_are_told(rt: HostRuntime) -> Result<(), Fail> {
    let alloc = rt.alloc();
    for (k, row) in ROWS.iter().enumerate() {
        let most = if row.most == 1 { 1 } else { 65_536 };
        let mut outside = outside_of(alloc, file_of(alloc, row.program)?, most);
        outside.input = b"ab".to_vec(alloc)?;
        plan(&mut outside, row.failing)?;
        outside.plan.most = most;
        let done = run(&rt, alloc, row.words, outside)?;
        assert!(rt; is_wanted(&done.answer, row.answer), "row {k}");
        assert!(rt;
            are(&done.out, row.out) && are(&done.err, row.err),
            "row {k}"
        );
        assert!(rt; are(&done.report, row.report), "row {k}");
    }
    Ok(())
}
