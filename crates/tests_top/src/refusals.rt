// Runs and files that are refused.
use crate::outside::{HELLO, SERIAL, Wanted, are, is_refused, is_wanted, outside_of, run};
use elf_load::ElfFault;
use sample_files::{EXIT_7, one_segment};
use std::test::Fail;
use superpin_top::Refusal;

// Words, the code of the file, and what they leave.
struct Row {
    words: &'static [&'static str],
    code: &'static [u32],
    out: &'static [u8],
    answer: Wanted,
    report: &'static [u8],
}

const ROWS: [Row; 4] = [
    // `hello`, with another call in the place of its exit.
    Row {
        words: &SERIAL,
        code: &[
            0x04000893, 0x00100513, 0x000105b7, 0x07858593, 0x00600613, 0x00000073, 0x00100893,
            0x00000513, 0x00000073, 0x6c6c6568, 0x00000a6f,
        ],
        out: b"hello\n",
        answer: Wanted::Refusal(Refusal::UnsupportedCall {
            number: 1,
            pc: 0x10074,
        }),
        report: b"superpin: 6 unsupported call 1 at 0x00010074\n",
    },
    Row {
        words: &["run", "--by", "serial", "--budget", "8", "f"],
        code: &HELLO,
        out: b"hello\n",
        answer: Wanted::Refusal(Refusal::BudgetSpent { n: 8 }),
        report: b"superpin: 7 budget 8 spent\n",
    },
    Row {
        words: &["run", "--budget", "9", "--by", "serial", "f"],
        code: &HELLO,
        out: b"hello\n",
        answer: Wanted::Status(0),
        report: b"icount 9\nend exit 0\n",
    },
    // A loop that never ends.
    Row {
        words: &["run", "--by", "serial", "--budget", "1000", "f"],
        code: &[0x0000006f],
        out: b"",
        answer: Wanted::Refusal(Refusal::BudgetSpent { n: 1000 }),
        report: b"superpin: 7 budget 1000 spent\n",
    },
];

#[test]
fn runs_are_refused(rt: HostRuntime) -> Result<(), Fail> {
    let alloc = rt.alloc();
    for (k, row) in ROWS.iter().enumerate() {
        let outside = outside_of(alloc, one_segment(alloc, row.code)?, 65_536);
        let done = run(&rt, alloc, row.words, outside)?;
        assert!(rt; is_wanted(&done.answer, row.answer), "row {k}");
        assert!(rt; are(&done.out, row.out), "row {k}");
        assert!(rt; are(&done.report, row.report), "row {k}");
    }
    Ok(())
}

// The file of exit(7) with the byte `value` at `place`, in `size` bytes.
struct File {
    place: usize,
    value: u8,
    size: usize,
    refusal: Refusal,
    report: &'static [u8],
}

const FILES: [File; 5] = [
    File {
        place: 0,
        value: 0x7f,
        size: 0,
        refusal: Refusal::Elf(ElfFault::TooShort),
        report: b"superpin: 4 elf 1 TooShort\n",
    },
    File {
        place: 18,
        value: 62,
        size: 96,
        refusal: Refusal::Elf(ElfFault::NotRiscv),
        report: b"superpin: 4 elf 5 NotRiscv\n",
    },
    File {
        place: 36,
        value: 0x21,
        size: 96,
        refusal: Refusal::Elf(ElfFault::Flags { value: 0x21 }),
        report: b"superpin: 4 elf 6 Flags 0x00000021\n",
    },
    File {
        place: 0,
        value: 0x7f,
        size: 95,
        refusal: Refusal::Elf(ElfFault::SegmentOutOfFile { k: 0 }),
        report: b"superpin: 4 elf 10 SegmentOutOfFile 0\n",
    },
    File {
        place: 0,
        value: 0x7f,
        size: 33_554_433,
        refusal: Refusal::FileTooLarge,
        report: b"superpin: 3 file too large\n",
    },
];

#[test]
fn files_are_refused(rt: HostRuntime) -> Result<(), Fail> {
    let alloc = rt.alloc();
    for (k, row) in FILES.iter().enumerate() {
        let mut bytes = one_segment(alloc, &EXIT_7)?;
        bytes.resize(row.size, 0)?;
        if let Some(byte) = bytes.get_mut(row.place) {
            *byte = row.value;
        }
        let done = run(&rt, alloc, &SERIAL, outside_of(alloc, bytes, 65_536))?;
        assert!(rt; is_refused(&done.answer, row.refusal), "row {k}");
        assert!(rt; are(&done.report, row.report), "row {k}");
        assert!(rt; done.out.is_empty() && done.err.is_empty(), "row {k}");
    }
    Ok(())
}

// The size of an argument, beside the name `f` and a zero byte each, and the answer.
struct Argument {
    size: usize,
    answer: Wanted,
    report: &'static [u8],
}

const ARGUMENTS: [Argument; 2] = [
    Argument {
        size: 65_533,
        answer: Wanted::Status(7),
        report: b"icount 3\nend exit 7\n",
    },
    Argument {
        size: 65_534,
        answer: Wanted::Refusal(Refusal::ArgsTooLong { bytes: 65_537 }),
        report: b"superpin: 5 arguments 65537\n",
    },
];

#[test]
fn strings_are_counted(rt: HostRuntime) -> Result<(), Fail> {
    let alloc = rt.alloc();
    for (k, row) in ARGUMENTS.iter().enumerate() {
        let mut argument = String::new(alloc);
        for _i in 0..row.size {
            argument.push('x')?;
        }
        let words = ["run", "--by", "serial", "f", argument.as_str()];
        let done = run(
            &rt,
            alloc,
            &words,
            outside_of(alloc, one_segment(alloc, &EXIT_7)?, 65_536),
        )?;
        assert!(rt; is_wanted(&done.answer, row.answer), "row {k}");
        assert!(rt; are(&done.report, row.report), "row {k}");
    }
    Ok(())
}
