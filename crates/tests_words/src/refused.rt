// Words that are no command.
use crate::words::owned;
use sp_report::{OptionName, UsageKind};
use sp_words::{WordFault, read_live_words, read_words};
use std::test::Fail;

// Of a program that runs serially or by windows.
const REFUSED: [(&[&str], UsageKind); 76] = [
    (&[], UsageKind::NoCommand),
    (&[""], UsageKind::UnknownCommand),
    (&["runs", "f"], UsageKind::UnknownCommand),
    (&["Run", "f"], UsageKind::UnknownCommand),
    (&["--by", "serial", "run", "f"], UsageKind::UnknownCommand),
    (&["--", "run", "f"], UsageKind::UnknownCommand),
    (&["-h"], UsageKind::UnknownCommand),
    (&["help"], UsageKind::UnknownCommand),
    (&["run"], UsageKind::Form),
    (&["run", "--"], UsageKind::Form),
    (&["run", "--by", "serial"], UsageKind::Form),
    (&["run", "--by", "f"], UsageKind::Form),
    (&["run", "--by"], UsageKind::Form),
    (&["run", "--slices", "--by", "f"], UsageKind::Form),
    (&["run", "--by", "--limit=3", "f"], UsageKind::Form),
    (&["run", "--budget", "-5", "f"], UsageKind::Form),
    (&["run", "--by", "--", "f"], UsageKind::Form),
    (&["run", "--slices=", "f"], UsageKind::Form),
    (&["run", "--slices=x", "f"], UsageKind::Form),
    (&["run", "-", "f"], UsageKind::Form),
    (&["run", "-h", "f"], UsageKind::Form),
    (&["run", "-V", "f"], UsageKind::Form),
    (&["run", "--help", "x", "f"], UsageKind::Form),
    (&["run", "--version=", "f"], UsageKind::Form),
    (&["run", "--lim", "3", "f"], UsageKind::Form),
    (&["run", "--workers", "3", "f"], UsageKind::Form),
    (
        &["run", "--by", "serial", "--by", "serial", "f"],
        UsageKind::Form,
    ),
    (&["run", "--limit=3", "--limit", "4", "f"], UsageKind::Form),
    (&["run", "--slices", "--slices", "f"], UsageKind::Form),
    (&["run", "--by", "x", "-q", "f"], UsageKind::Form),
    (&["run", "--limit", "0"], UsageKind::Form),
    (
        &["run", "--by=", "f"],
        UsageKind::BadValue {
            option: OptionName::By,
        },
    ),
    (
        &["run", "--by", "-", "f"],
        UsageKind::BadValue {
            option: OptionName::By,
        },
    ),
    (
        &["run", "--by", "Serial", "f"],
        UsageKind::BadValue {
            option: OptionName::By,
        },
    ),
    (
        &["run", "--by", "", "f"],
        UsageKind::BadValue {
            option: OptionName::By,
        },
    ),
    (
        &["run", "--tool", "cache:", "f"],
        UsageKind::BadValue {
            option: OptionName::Tool,
        },
    ),
    (
        &["run", "--tool", "cache:64", "f"],
        UsageKind::BadValue {
            option: OptionName::Tool,
        },
    ),
    (
        &["run", "--tool", "cache:64:32:1", "f"],
        UsageKind::BadValue {
            option: OptionName::Tool,
        },
    ),
    (
        &["run", "--tool", "cache:0:32", "f"],
        UsageKind::BadValue {
            option: OptionName::Tool,
        },
    ),
    (
        &["run", "--tool", "cache:3:32", "f"],
        UsageKind::BadValue {
            option: OptionName::Tool,
        },
    ),
    (
        &["run", "--tool", "cache:8192:32", "f"],
        UsageKind::BadValue {
            option: OptionName::Tool,
        },
    ),
    (
        &["run", "--tool", "cache:64:2", "f"],
        UsageKind::BadValue {
            option: OptionName::Tool,
        },
    ),
    (
        &["run", "--tool", "cache:64:8192", "f"],
        UsageKind::BadValue {
            option: OptionName::Tool,
        },
    ),
    (
        &["run", "--tool", "cache:064:32", "f"],
        UsageKind::BadValue {
            option: OptionName::Tool,
        },
    ),
    (
        &["run", "--tool", "icount:1:4", "f"],
        UsageKind::BadValue {
            option: OptionName::Tool,
        },
    ),
    (
        &["run", "--tool", "Mix", "f"],
        UsageKind::BadValue {
            option: OptionName::Tool,
        },
    ),
    (
        &["run", "--budget", "0", "f"],
        UsageKind::BadValue {
            option: OptionName::Budget,
        },
    ),
    (
        &["run", "--budget", "1099511627777", "f"],
        UsageKind::BadValue {
            option: OptionName::Budget,
        },
    ),
    (
        &["run", "--budget", "18446744073709551617", "f"],
        UsageKind::BadValue {
            option: OptionName::Budget,
        },
    ),
    (
        &["run", "--budget=-5", "f"],
        UsageKind::BadValue {
            option: OptionName::Budget,
        },
    ),
    (
        &["run", "--limit", "08", "f"],
        UsageKind::BadValue {
            option: OptionName::Limit,
        },
    ),
    (
        &["run", "--limit", "+8", "f"],
        UsageKind::BadValue {
            option: OptionName::Limit,
        },
    ),
    (
        &["run", "--limit", "0", "f"],
        UsageKind::BadValue {
            option: OptionName::Limit,
        },
    ),
    (
        &["run", "--limit", "33", "f"],
        UsageKind::BadValue {
            option: OptionName::Limit,
        },
    ),
    (
        &["run", "--limit", "8x", "f"],
        UsageKind::BadValue {
            option: OptionName::Limit,
        },
    ),
    (
        &["run", "--limit", " 8", "f"],
        UsageKind::BadValue {
            option: OptionName::Limit,
        },
    ),
    (
        &["run", "--poll", "1048577", "f"],
        UsageKind::BadValue {
            option: OptionName::Poll,
        },
    ),
    (
        &["run", "--msec", "60001", "f"],
        UsageKind::BadValue {
            option: OptionName::Msec,
        },
    ),
    (
        &["run", "--records", "65537", "f"],
        UsageKind::BadValue {
            option: OptionName::Records,
        },
    ),
    (
        &["run", "--frames", "63", "f"],
        UsageKind::BadValue {
            option: OptionName::Frames,
        },
    ),
    (
        &["run", "--frames", "4097", "f"],
        UsageKind::BadValue {
            option: OptionName::Frames,
        },
    ),
    (
        &["run", "--limit", "0", "--by", "x", "f"],
        UsageKind::BadValue {
            option: OptionName::By,
        },
    ),
    (
        &["run", "--frames", "1", "--budget", "0", "--tool", "x", "f"],
        UsageKind::BadValue {
            option: OptionName::Tool,
        },
    ),
    (
        &["run", "--records", "0", "--msec", "0", "f"],
        UsageKind::BadValue {
            option: OptionName::Msec,
        },
    ),
    (&["view"], UsageKind::Form),
    (&["view", "a", "b"], UsageKind::Form),
    (&["view", "--slices", "f"], UsageKind::Form),
    (&["view", "--by", "serial", "f"], UsageKind::Form),
    (&["view", "-x", "f"], UsageKind::Form),
    (&["demo"], UsageKind::Form),
    (&["demo", "1", "2"], UsageKind::Form),
    (&["demo", "-1"], UsageKind::Form),
    (
        &["demo", "--", "-1"],
        UsageKind::BadValue {
            option: OptionName::N,
        },
    ),
    (
        &["demo", "4294967296"],
        UsageKind::BadValue {
            option: OptionName::N,
        },
    ),
    (
        &["demo", "07"],
        UsageKind::BadValue {
            option: OptionName::N,
        },
    ),
    (
        &["demo", ""],
        UsageKind::BadValue {
            option: OptionName::N,
        },
    ),
];

// Of a program with workers.
const LIVE_REFUSED: [(&[&str], UsageKind); 11] = [
    (&[], UsageKind::NoCommand),
    (&["view", "f"], UsageKind::UnknownCommand),
    (&["demo", "1"], UsageKind::UnknownCommand),
    (&["run"], UsageKind::Form),
    (&["run", "--by", "serial", "f"], UsageKind::Form),
    (&["run", "--by=windows", "f"], UsageKind::Form),
    (
        &["run", "--workers", "2", "--workers", "2", "f"],
        UsageKind::Form,
    ),
    (
        &["run", "--workers", "0", "f"],
        UsageKind::BadValue {
            option: OptionName::Workers,
        },
    ),
    (
        &["run", "--workers", "17", "f"],
        UsageKind::BadValue {
            option: OptionName::Workers,
        },
    ),
    (
        &["run", "--workers", "01", "f"],
        UsageKind::BadValue {
            option: OptionName::Workers,
        },
    ),
    (
        &["run", "--workers", "0", "--frames", "0", "f"],
        UsageKind::BadValue {
            option: OptionName::Frames,
        },
    ),
];

#[test]
fn words_are_refused(rt: HostRuntime) -> Result<(), Fail> {
    let alloc = rt.alloc();
    for (k, (words, kind)) in REFUSED.iter().enumerate() {
        let words = owned(alloc, words)?;
        let fault = read_words(alloc, &words).err();
        assert!(rt; fault == Some(WordFault::Usage(*kind)), "row {k}");
    }
    Ok(())
}

#[test]
fn live_words_are_refused(rt: HostRuntime) -> Result<(), Fail> {
    let alloc = rt.alloc();
    for (k, (words, kind)) in LIVE_REFUSED.iter().enumerate() {
        let words = owned(alloc, words)?;
        let fault = read_live_words(alloc, &words).err();
        assert!(rt; fault == Some(WordFault::Usage(*kind)), "row {k}");
    }
    Ok(())
}
