// Command words.
use crate::outside::{SERIAL, are, host_of, is_ended, is_refused, outside_of, owned, run};
use sample_files::{EXIT_7, one_segment};
use sp_host::{ListPacer, Port};
use sp_report::{OptionName, UsageKind};
use std::test::Fail;
use superpin_top::{Refusal, answer_words};

const RUNS: [&[&str]; 5] = [
    &["run", "--by", "serial", "f", "-a", ""],
    &["run", "--budget=1099511627776", "--by", "windows", "f"],
    &["run", "f"],
    &[
        "run",
        "--limit",
        "1",
        "--records",
        "1",
        "--frames",
        "64",
        "--",
        "f",
        "--by",
    ],
    &[
        "run", "--msec", "1", "--poll", "1", "--budget", "3", "--tool", "icount", "f",
    ],
];

#[test]
fn words_are_read(rt: HostRuntime) -> Result<(), Fail> {
    let alloc = rt.alloc();
    for (k, words) in RUNS.iter().enumerate() {
        let done = run(
            &rt,
            alloc,
            words,
            outside_of(alloc, one_segment(alloc, &EXIT_7)?, 65_536),
        )?;
        assert!(rt; is_ended(&done.answer, 7), "row {k}");
        assert!(rt; are(&done.report, b"icount 3\nend exit 7\n"), "row {k}");
    }
    Ok(())
}

// Words, and what they are refused for, with its line.
struct Row {
    words: &'static [&'static str],
    kind: UsageKind,
    report: &'static [u8],
}

const REFUSED: [Row; 6] = [
    Row {
        words: &[],
        kind: UsageKind::NoCommand,
        report: b"superpin: 1 usage no command\n",
    },
    Row {
        words: &["walk"],
        kind: UsageKind::UnknownCommand,
        report: b"superpin: 1 usage unknown command\n",
    },
    Row {
        words: &["run"],
        kind: UsageKind::Form,
        report: b"superpin: 1 usage form\n",
    },
    Row {
        words: &["view", "f", "g"],
        kind: UsageKind::Form,
        report: b"superpin: 1 usage form\n",
    },
    Row {
        words: &["run", "--limit", "33", "a"],
        kind: UsageKind::BadValue {
            option: OptionName::Limit,
        },
        report: b"superpin: 1 usage value of --limit\n",
    },
    Row {
        words: &["demo", "x"],
        kind: UsageKind::BadValue {
            option: OptionName::N,
        },
        report: b"superpin: 1 usage value of N\n",
    },
];

#[test]
fn other_words_are_refused(rt: HostRuntime) -> Result<(), Fail> {
    let alloc = rt.alloc();
    for (k, row) in REFUSED.iter().enumerate() {
        let done = run(
            &rt,
            alloc,
            row.words,
            outside_of(alloc, one_segment(alloc, &EXIT_7)?, 65_536),
        )?;
        assert!(rt;
            is_refused(&done.answer, Refusal::Usage(row.kind)),
            "row {k}"
        );
        assert!(rt; are(&done.report, row.report), "row {k}");
    }
    Ok(())
}

#[test]
fn words_are_answered(rt: HostRuntime) -> Result<(), Fail> {
    let alloc = rt.alloc();
    let mut pacer = ListPacer::new(Vec::new(alloc));
    let mut host = host_of(
        alloc,
        outside_of(alloc, one_segment(alloc, &EXIT_7)?, 65_536),
    )?;
    let status = answer_words(
        &rt,
        alloc,
        Ok(owned(alloc, &SERIAL)?),
        &mut host,
        &mut pacer,
    );
    assert!(rt; status == 7);
    assert!(rt; are(host.written(Port::Report), b"icount 3\nend exit 7\n"));
    let mut host = host_of(alloc, outside_of(alloc, Vec::new(alloc), 65_536))?;
    let status = answer_words(&rt, alloc, Err(Refusal::NoMemory), &mut host, &mut pacer);
    assert!(rt; status == 125);
    assert!(rt; are(host.written(Port::Report), b"superpin: 11 no memory\n"));
    Ok(())
}
