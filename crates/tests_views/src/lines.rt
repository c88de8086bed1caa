// The end line of a run, and the lines of refusals.
use elf_load::ElfFault;
use ordered_merge::SliceLine;
use rv_machine::{End, FaultKind};
use sp_host::Port;
use sp_report::{
    Answer, Cuts, Lines, OptionName, Refusal, UsageKind, end_line, exit_code, refusal_line,
    slice_lines,
};
use std::test::Fail;
use tool_law::Hits;

const LINES: [(Refusal, &str); 43] = [
    (
        Refusal::Usage(UsageKind::NoCommand),
        "superpin: 1 usage no command\n",
    ),
    (
        Refusal::Usage(UsageKind::UnknownCommand),
        "superpin: 1 usage unknown command\n",
    ),
    (Refusal::Usage(UsageKind::Form), "superpin: 1 usage form\n"),
    (
        Refusal::Usage(UsageKind::BadValue {
            option: OptionName::By,
        }),
        "superpin: 1 usage value of --by\n",
    ),
    (
        Refusal::Usage(UsageKind::BadValue {
            option: OptionName::Tool,
        }),
        "superpin: 1 usage value of --tool\n",
    ),
    (
        Refusal::Usage(UsageKind::BadValue {
            option: OptionName::Budget,
        }),
        "superpin: 1 usage value of --budget\n",
    ),
    (
        Refusal::Usage(UsageKind::BadValue {
            option: OptionName::Limit,
        }),
        "superpin: 1 usage value of --limit\n",
    ),
    (
        Refusal::Usage(UsageKind::BadValue {
            option: OptionName::Poll,
        }),
        "superpin: 1 usage value of --poll\n",
    ),
    (
        Refusal::Usage(UsageKind::BadValue {
            option: OptionName::Msec,
        }),
        "superpin: 1 usage value of --msec\n",
    ),
    (
        Refusal::Usage(UsageKind::BadValue {
            option: OptionName::Records,
        }),
        "superpin: 1 usage value of --records\n",
    ),
    (
        Refusal::Usage(UsageKind::BadValue {
            option: OptionName::Frames,
        }),
        "superpin: 1 usage value of --frames\n",
    ),
    (
        Refusal::Usage(UsageKind::BadValue {
            option: OptionName::Workers,
        }),
        "superpin: 1 usage value of --workers\n",
    ),
    (
        Refusal::Usage(UsageKind::BadValue {
            option: OptionName::N,
        }),
        "superpin: 1 usage value of N\n",
    ),
    (Refusal::FileFault, "superpin: 2 file fault\n"),
    (Refusal::FileTooLarge, "superpin: 3 file too large\n"),
    (
        Refusal::Elf(ElfFault::TooShort),
        "superpin: 4 elf 1 TooShort\n",
    ),
    (Refusal::Elf(ElfFault::NotElf), "superpin: 4 elf 2 NotElf\n"),
    (
        Refusal::Elf(ElfFault::NotElf32Little),
        "superpin: 4 elf 3 NotElf32Little\n",
    ),
    (
        Refusal::Elf(ElfFault::NotExec),
        "superpin: 4 elf 4 NotExec\n",
    ),
    (
        Refusal::Elf(ElfFault::NotRiscv),
        "superpin: 4 elf 5 NotRiscv\n",
    ),
    (
        Refusal::Elf(ElfFault::Flags { value: 0xfedcba09 }),
        "superpin: 4 elf 6 Flags 0xfedcba09\n",
    ),
    (
        Refusal::Elf(ElfFault::HeaderSizes),
        "superpin: 4 elf 7 HeaderSizes\n",
    ),
    (
        Refusal::Elf(ElfFault::TableOutOfFile),
        "superpin: 4 elf 8 TableOutOfFile\n",
    ),
    (
        Refusal::Elf(ElfFault::Interpreter),
        "superpin: 4 elf 9 Interpreter\n",
    ),
    (
        Refusal::Elf(ElfFault::SegmentOutOfFile { k: 65_535 }),
        "superpin: 4 elf 10 SegmentOutOfFile 65535\n",
    ),
    (
        Refusal::Elf(ElfFault::BadSegment { k: 0 }),
        "superpin: 4 elf 11 BadSegment 0\n",
    ),
    (
        Refusal::Elf(ElfFault::SharedPage { k: 1 }),
        "superpin: 4 elf 12 SharedPage 1\n",
    ),
    (
        Refusal::Elf(ElfFault::WritableCode { k: 10 }),
        "superpin: 4 elf 13 WritableCode 10\n",
    ),
    (
        Refusal::Elf(ElfFault::OutsideUser { k: 31 }),
        "superpin: 4 elf 14 OutsideUser 31\n",
    ),
    (
        Refusal::Elf(ElfFault::TooManyPages),
        "superpin: 4 elf 15 TooManyPages\n",
    ),
    (
        Refusal::Elf(ElfFault::BadEntry),
        "superpin: 4 elf 16 BadEntry\n",
    ),
    (
        Refusal::Elf(ElfFault::BadSymbols),
        "superpin: 4 elf 17 BadSymbols\n",
    ),
    (
        Refusal::Elf(ElfFault::NoMemory),
        "superpin: 4 elf 18 NoMemory\n",
    ),
    (
        Refusal::ArgsTooLong { bytes: 65_537 },
        "superpin: 5 arguments 65537\n",
    ),
    (
        Refusal::ArgsTooLong { bytes: u64::MAX },
        "superpin: 5 arguments 18446744073709551615\n",
    ),
    (
        Refusal::UnsupportedCall {
            number: 4_294_967_295,
            pc: 0x1_0074,
        },
        "superpin: 6 unsupported call 4294967295 at 0x00010074\n",
    ),
    (
        Refusal::BudgetSpent {
            n: 1_099_511_627_776,
        },
        "superpin: 7 budget 1099511627776 spent\n",
    ),
    (Refusal::InputFault, "superpin: 8 input fault\n"),
    (
        Refusal::OutputFault { port: Port::Out },
        "superpin: 9 output fault Out\n",
    ),
    (
        Refusal::OutputFault { port: Port::Err },
        "superpin: 9 output fault Err\n",
    ),
    (
        Refusal::OutputFault { port: Port::Report },
        "superpin: 9 output fault Report\n",
    ),
    (Refusal::ReportFault, ""),
    (Refusal::NoMemory, "superpin: 11 no memory\n"),
];

#[test]
fn of_each_refusal(rt: HostRuntime) -> Result<(), Fail> {
    for (k, (refusal, line)) in LINES.iter().enumerate() {
        assert!(rt;
            refusal_line(refusal).as_slice() == line.as_bytes(),
            "row {k}"
        );
        assert!(rt; exit_code(&Answer::Refused(*refusal)) == 125, "row {k}");
    }
    Ok(())
}

// How a run ends, its line, and the exit status.
struct Row {
    end: End,
    line: &'static str,
    status: u8,
}

const ENDS: [Row; 7] = [
    Row {
        end: End::Exit(0),
        line: "end exit 0\n",
        status: 0,
    },
    Row {
        end: End::Exit(7),
        line: "end exit 7\n",
        status: 7,
    },
    Row {
        end: End::Exit(255),
        line: "end exit 255\n",
        status: 255,
    },
    Row {
        end: End::Signal {
            kind: FaultKind::Illegal,
            pc: 0x10078,
        },
        line: "end signal 4 at 0x00010078\n",
        status: 132,
    },
    Row {
        end: End::Signal {
            kind: FaultKind::Break,
            pc: 0,
        },
        line: "end signal 5 at 0x00000000\n",
        status: 133,
    },
    Row {
        end: End::Signal {
            kind: FaultKind::Misaligned,
            pc: 0x1234abcd,
        },
        line: "end signal 7 at 0x1234abcd\n",
        status: 135,
    },
    Row {
        end: End::Signal {
            kind: FaultKind::Access,
            pc: 0xfffffffc,
        },
        line: "end signal 11 at 0xfffffffc\n",
        status: 139,
    },
];

#[test]
fn of_each_end(rt: HostRuntime) -> Result<(), Fail> {
    let alloc = rt.alloc();
    for (k, row) in ENDS.iter().enumerate() {
        let line = end_line(alloc, &row.end)?;
        assert!(rt; line.as_slice() == row.line.as_bytes(), "row {k}");
        let answer = Answer::Ended {
            status: row.end.status(),
            cuts: Cuts::none(alloc),
            lines: Lines::none(alloc),
        };
        assert!(rt; exit_code(&answer) == row.status, "row {k}");
    }
    Ok(())
}

// A line of a serial run, one of a slice, and the largest.
const SLICES: [SliceLine; 3] = [
    SliceLine {
        steps: 24,
        calls: 0,
        hits: Hits {
            quick: 0,
            registers: 0,
            stack: 0,
            whole: 0,
        },
    },
    SliceLine {
        steps: 7,
        calls: 3,
        hits: Hits {
            quick: 5,
            registers: 4,
            stack: 2,
            whole: 1,
        },
    },
    SliceLine {
        steps: 1_099_511_627_776,
        calls: 65_536,
        hits: Hits {
            quick: u64::MAX,
            registers: 100,
            stack: 10,
            whole: 9,
        },
    },
];

const SLICE_LINES: &str = "slice 0 24 0 0 0 0 0\n\
slice 1 7 3 5 4 2 1\n\
slice 2 1099511627776 65536 18446744073709551615 100 10 9\n";

#[test]
fn of_slices(rt: HostRuntime) -> Result<(), Fail> {
    let alloc = rt.alloc();
    assert!(rt; slice_lines(alloc, &[])?.is_empty());
    let text = slice_lines(alloc, &SLICES)?;
    assert!(rt; text.as_slice() == SLICE_LINES.as_bytes());
    Ok(())
}

// What an answer holds is what it was made of.
#[test]
fn of_an_answer(rt: HostRuntime) -> Result<(), Fail> {
    let alloc = rt.alloc();
    let mut positions = Vec::new(alloc);
    positions.push(9)?;
    positions.push(23)?;
    let cuts = Cuts::new(positions);
    assert!(rt; cuts.positions() == [9, 23].as_slice());
    let mut slices = Vec::new(alloc);
    slices.push(SLICES[1])?;
    let lines = Lines::new(slices);
    assert!(rt; lines.lines().len() == 1 && lines.lines()[0].steps == 7);
    let slices = lines.into_vec();
    assert!(rt; slices.len() == 1 && slices[0].calls == 3);
    assert!(rt; Lines::none(alloc).lines().is_empty());
    Ok(())
}
