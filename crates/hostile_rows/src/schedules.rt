// Runs that are cut at hostile places. The steps and the cuts are of the manual's instructions and the rules of cuts, by hand.
use crate::programs::Program;
use crate::row::{FAULTLESS, Row, Wanted};
use sp_report::Refusal;
use std::alloc::{AllocError, Global};

const COUNTED: Row<'static> = Row {
    program: Program::CountToSix,
    options: &[],
    faults: FAULTLESS,
    single: false,
    answer: Wanted::Status(7),
    cuts: &[],
    out: b"",
    report: b"",
};

/// The counter, cut after each step but the last: these are its cuts, and the report with a line for each slice.
pub fn each_step_cut(alloc: Global) -> Result<(Vec<u64>, Vec<u8>), AllocError> {
    let mut cuts = Vec::new(alloc);
    let mut report = b"icount 45\nend exit 7\n".to_vec(alloc)?;
    for slice in 0..44u64 {
        cuts.push(slice + 1)?;
        let line = format!(in alloc; "slice {slice} 1 0 1 1 1 1\n")?;
        report.extend_from_slice(line.as_bytes())?;
    }
    report.extend_from_slice(b"slice 44 1 0 0 0 0 0\n")?;
    Ok((cuts, report))
}

/// What a tool reports of the counter, however it is cut.
pub struct ToolText {
    pub tool: &'static str,
    pub report: &'static str,
}

/// Each tool.
pub const TEXTS: [ToolText; 6] = [
    ToolText {
        tool: "icount",
        report: "icount 45\nend exit 7\n",
    },
    ToolText {
        tool: "bcount",
        report: "bcount 12 45\nend exit 7\n",
    },
    ToolText {
        tool: "mix",
        report: "mix lui 1\nmix jal 5\nmix beq 6\nmix lw 6\nmix sw 6\nmix addi 14\nmix sub 6\nmix ecall 1\nend exit 7\n",
    },
    ToolText {
        tool: "blocks",
        report: "block 0x00010074 7 1 -\nblock 0x0001007c 5 5 -\nblock 0x00010090 2 5 -\nblock 0x00010098 3 1 -\nend exit 7\n",
    },
    // It makes no calls.
    ToolText {
        tool: "calls",
        report: "end exit 7\n",
    },
    // Six loads and six stores of one word.
    ToolText {
        tool: "cache",
        report: "cache 64 32 accesses 12 hits 11 misses 1\nend exit 7\n",
    },
];

/// The answers of a pacer that grants only the ask behind so many others.
pub fn one_answer(alloc: Global, before: usize) -> Result<Vec<bool>, AllocError> {
    let mut answers = Vec::new(alloc);
    answers.resize(before, false)?;
    answers.push(true)?;
    Ok(answers)
}

/// The counter by these options, with these cuts and this report.
pub fn once_cut<'a>(options: &'a [&'a str], cuts: &'a [u64], report: &'a [u8]) -> Row<'a> {
    Row {
        options,
        cuts,
        report,
        ..COUNTED
    }
}

/// Stores across pages with the fewest frames. 33 pages are written by 32 stores, and then by 32 stores more.
pub const ACROSS_PAGES: Row<'static> = Row {
    program: Program::AcrossPages,
    options: &["--frames", "64"],
    cuts: &[133, 261, 389],
    report: b"icount 407\nend exit 7\n",
    ..COUNTED
};

/// A jump to itself, cut at each step, up to the budget.
pub const TURNS_FOR_EVER: Row<'static> = Row {
    program: Program::TurnForEver,
    options: &["--budget", "100", "--poll", "1"],
    answer: Wanted::Refusal(Refusal::BudgetSpent { n: 100 }),
    report: b"superpin: 7 budget 100 spent\n",
    ..COUNTED
};
