// Calls of the outside that fail, each of which moves one byte. The file of the program that writes `hello` has 128 bytes, so
// 129 calls read it; what the run leaves is by hand.
use crate::programs::Program;
use crate::row::{FAULTLESS, Faults, Row, Wanted};
use sp_host::Port;
use sp_report::Refusal;

const HELLO: &[u8] = b"hello\n";

const REPORT: &[u8] = b"icount 9\nend exit 0\n";

// Nothing fails.
const HELLO_ENDS: Row<'static> = Row {
    program: Program::Hello,
    options: &[],
    faults: FAULTLESS,
    single: true,
    answer: Wanted::Status(0),
    cuts: &[],
    out: HELLO,
    report: REPORT,
};

/// The call on the file behind so many others fails, if there is one.
pub fn file_fault(before: u64) -> Row<'static> {
    let faults = Faults {
        file: before.wrapping_add(1),
        ..FAULTLESS
    };
    if before >= 129 {
        return Row {
            faults,
            ..HELLO_ENDS
        };
    }
    Row {
        faults,
        answer: Wanted::Refusal(Refusal::FileFault),
        out: b"",
        report: b"superpin: 2 file fault\n",
        ..HELLO_ENDS
    }
}

/// The write to the standard output behind so many bytes fails, if there is one. Where the run ends it was cut there.
pub fn out_fault<'a>(before: usize, options: &'a [&'a str], cuts: &'a [u64]) -> Row<'a> {
    let row = Row {
        options,
        faults: Faults {
            out: (before as u64).wrapping_add(1),
            ..FAULTLESS
        },
        cuts,
        ..HELLO_ENDS
    };
    match HELLO.get(..before) {
        Some(out) if before < HELLO.len() => Row {
            answer: Wanted::Refusal(Refusal::OutputFault { port: Port::Out }),
            out,
            report: b"superpin: 9 output fault Out\n",
            ..row
        },
        _ => row,
    }
}

/// The write to the port of reports behind so many bytes fails, if there is one.
pub fn report_fault(before: usize) -> Row<'static> {
    let row = Row {
        faults: Faults {
            report: (before as u64).wrapping_add(1),
            ..FAULTLESS
        },
        ..HELLO_ENDS
    };
    match REPORT.get(..before) {
        Some(report) if before < REPORT.len() => Row {
            answer: Wanted::Refusal(Refusal::ReportFault),
            report,
            ..row
        },
        _ => row,
    }
}

/// The third byte of the standard output fails, and the fifth of the refusal's line.
pub const OUT_AND_REPORT_FAIL: Row<'static> = Row {
    faults: Faults {
        out: 3,
        report: 5,
        ..FAULTLESS
    },
    answer: Wanted::Refusal(Refusal::OutputFault { port: Port::Out }),
    out: b"he",
    report: b"supe",
    ..HELLO_ENDS
};

/// The second read of the input fails.
pub const INPUT_FAILS: Row<'static> = Row {
    program: Program::ReadTwice,
    faults: Faults {
        input: 2,
        ..FAULTLESS
    },
    answer: Wanted::Refusal(Refusal::InputFault),
    out: b"",
    report: b"superpin: 8 input fault\n",
    ..HELLO_ENDS
};

/// The third would.
pub const INPUT_LASTS: Row<'static> = Row {
    program: Program::ReadTwice,
    faults: Faults {
        input: 3,
        ..FAULTLESS
    },
    answer: Wanted::Status(7),
    out: b"",
    report: b"icount 10\nend exit 7\n",
    ..HELLO_ENDS
};
