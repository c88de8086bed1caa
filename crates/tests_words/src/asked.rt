// Words that are a command.
use crate::words::owned;
use sp_words::{Asked, By, RunAsked, ToolName, read_live_words, read_words};
use std::test::Fail;

// What is read of `run`.
#[derive(Clone, Copy)]
struct Run {
    by: By,
    tool: ToolName,
    budget: u64,
    limit: u32,
    poll: u32,
    msec: u32,
    records: u32,
    frames: u32,
    workers: u32,
    slices: bool,
    file: &'static str,
    args: &'static [&'static str],
}

// What is read where no option is given.
const PLAIN: Run = Run {
    by: By::Windows,
    tool: ToolName::Icount,
    budget: 1_000_000_000,
    limit: 8,
    poll: 64,
    msec: 50,
    records: 1_024,
    frames: 4_096,
    workers: 4,
    slices: false,
    file: "f",
    args: &[],
};

// Of a program that runs serially or by windows.
const RUNS: [(&[&str], Run); 21] = [
    (&["run", "f"], PLAIN),
    (&["run", "--", "f"], PLAIN),
    (
        &["run", "--", "-x", "f"],
        Run {
            file: "-x",
            args: &["f"],
            ..PLAIN
        },
    ),
    (
        &["run", "--", "--", "f"],
        Run {
            file: "--",
            args: &["f"],
            ..PLAIN
        },
    ),
    (
        &["run", "f", "--by", "x"],
        Run {
            args: &["--by", "x"],
            ..PLAIN
        },
    ),
    (
        &["run", "f", "--", "-h", ""],
        Run {
            args: &["--", "-h", ""],
            ..PLAIN
        },
    ),
    (
        &["run", "", "a"],
        Run {
            file: "",
            args: &["a"],
            ..PLAIN
        },
    ),
    (
        &["run", "--slices", "x"],
        Run {
            slices: true,
            file: "x",
            ..PLAIN
        },
    ),
    (
        &["run", "--by=serial", "f"],
        Run {
            by: By::Serial,
            ..PLAIN
        },
    ),
    (
        &["run", "--by", "serial", "--limit", "1", "f"],
        Run {
            by: By::Serial,
            limit: 1,
            ..PLAIN
        },
    ),
    (&["run", "--by", "windows", "f"], PLAIN),
    (&["run", "--tool", "icount", "f"], PLAIN),
    (
        &["run", "--tool=bcount", "f"],
        Run {
            tool: ToolName::Bcount,
            ..PLAIN
        },
    ),
    (
        &["run", "--tool", "mix", "f"],
        Run {
            tool: ToolName::Mix,
            ..PLAIN
        },
    ),
    (
        &["run", "--tool", "blocks", "f"],
        Run {
            tool: ToolName::Blocks,
            ..PLAIN
        },
    ),
    (
        &["run", "--tool", "calls", "f"],
        Run {
            tool: ToolName::Calls,
            ..PLAIN
        },
    ),
    (
        &["run", "--tool", "cache", "f"],
        Run {
            tool: ToolName::Cache { sets: 64, line: 32 },
            ..PLAIN
        },
    ),
    (
        &["run", "--tool", "cache:1:4", "f"],
        Run {
            tool: ToolName::Cache { sets: 1, line: 4 },
            ..PLAIN
        },
    ),
    (
        &["run", "--tool", "cache:4096:4096", "f"],
        Run {
            tool: ToolName::Cache {
                sets: 4_096,
                line: 4_096,
            },
            ..PLAIN
        },
    ),
    (
        &[
            "run",
            "--budget",
            "1",
            "--limit",
            "1",
            "--poll",
            "1",
            "--msec",
            "1",
            "--records",
            "1",
            "--frames",
            "64",
            "f",
        ],
        Run {
            budget: 1,
            limit: 1,
            poll: 1,
            msec: 1,
            records: 1,
            frames: 64,
            ..PLAIN
        },
    ),
    (
        &[
            "run",
            "--frames=4096",
            "--records=65536",
            "--msec=60000",
            "--poll=1048576",
            "--limit=32",
            "--budget=1099511627776",
            "--slices",
            "f",
            "a",
        ],
        Run {
            budget: 1_099_511_627_776,
            limit: 32,
            poll: 1_048_576,
            msec: 60_000,
            records: 65_536,
            slices: true,
            args: &["a"],
            ..PLAIN
        },
    ),
];

// Of a program with workers.
const LIVE_RUNS: [(&[&str], Run); 3] = [
    (&["run", "f"], PLAIN),
    (
        &["run", "--workers", "1", "f"],
        Run {
            workers: 1,
            ..PLAIN
        },
    ),
    (
        &["run", "--slices", "--workers=16", "--", "f", "a"],
        Run {
            workers: 16,
            slices: true,
            args: &["a"],
            ..PLAIN
        },
    ),
];

fn has_args(asked: &RunAsked, run: &Run) -> bool {
    let args = asked.args.words();
    if args.len() != run.args.len() {
        return false;
    }
    for (at, arg) in args.iter().enumerate() {
        if arg.as_str() != run.args[at] {
            return false;
        }
    }
    true
}

fn has_bounds(asked: &RunAsked, run: &Run) -> bool {
    let limits = asked.limits;
    limits.budget == run.budget
        && limits.limit == run.limit
        && limits.poll == run.poll
        && limits.records == run.records
        && limits.frames == run.frames
        && asked.msec == run.msec
}

fn is_run(asked: &Asked, run: &Run) -> bool {
    match asked {
        Asked::Run(asked) => {
            asked.by == run.by
                && asked.tool == run.tool
                && asked.workers == run.workers
                && asked.slices == run.slices
                && asked.file.as_str() == run.file
                && has_bounds(asked, run)
                && has_args(asked, run)
        }
        _ => false,
    }
}

#[test]
fn runs_are_asked(rt: HostRuntime) -> Result<(), Fail> {
    let alloc = rt.alloc();
    for (k, (words, run)) in RUNS.iter().enumerate() {
        let words = owned(alloc, words)?;
        let asked = read_words(alloc, &words)?;
        assert!(rt; is_run(&asked, run), "row {k}");
    }
    Ok(())
}

#[test]
fn live_runs_are_asked(rt: HostRuntime) -> Result<(), Fail> {
    let alloc = rt.alloc();
    for (k, (words, run)) in LIVE_RUNS.iter().enumerate() {
        let words = owned(alloc, words)?;
        let asked = read_live_words(alloc, &words)?;
        assert!(rt; is_run(&asked, run), "row {k}");
    }
    Ok(())
}

const VIEWS: [(&[&str], &str); 3] = [
    (&["view", "f"], "f"),
    (&["view", "--", "--slices"], "--slices"),
    (&["view", ""], ""),
];

#[test]
fn views_are_asked(rt: HostRuntime) -> Result<(), Fail> {
    let alloc = rt.alloc();
    for (k, (words, name)) in VIEWS.iter().enumerate() {
        let words = owned(alloc, words)?;
        match read_words(alloc, &words)? {
            Asked::View { file } => {
                let file = file.into_string();
                assert!(rt; file.as_str() == *name, "row {k}");
            }
            _ => assert!(rt; false, "row {k}"),
        }
    }
    Ok(())
}

const NUMBERS: [(&[&str], u32); 3] = [
    (&["demo", "0"], 0),
    (&["demo", "7"], 7),
    (&["demo", "--", "4294967295"], 4_294_967_295),
];

#[test]
fn programs_are_asked(rt: HostRuntime) -> Result<(), Fail> {
    let alloc = rt.alloc();
    for (k, (words, number)) in NUMBERS.iter().enumerate() {
        let words = owned(alloc, words)?;
        match read_words(alloc, &words)? {
            Asked::Demo { n } => assert!(rt; n == *number, "row {k}"),
            _ => assert!(rt; false, "row {k}"),
        }
    }
    Ok(())
}
