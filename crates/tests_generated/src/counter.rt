// The program that counts words, run each way. Each count is of the input, by hand.
ghost use Rattle.std.specs.Prelude.{◌<◌};

use prog_gen::word_counter;
use sp_host::{EveryPacer, FaultPlan, FreeGate, MemoryHost, Port};
use std::alloc::Global;
use std::sync::Wait;
use std::test::Fail;
use std::thread::Threads;
use superpin_live_top::superpin_live;
use superpin_top::{exit_code, superpin};

/// How a run is made.
#[derive(Clone, Copy)]
enum Way {
    Serial,
    Windows,
    Live,
}

/// What a run left.
#[derive(Drop, PartialEq)]
struct Left {
    status: u8,
    out: Vec<u8>,
    report: Vec<u8>,
}

/// An input: so often `ab cd` and a line end, and then a word without one; and what is printed of it.
#[derive(Clone, Copy)]
struct Row {
    lines: u32,
    word: &'static str,
    out: &'static str,
}

/// 200,000 bytes.
const LARGEST: Row = Row {
    lines: 33_333,
    word: "xy",
    out: "33333 66667 200000\n10 33333\n32 33333\n97 33333\n98 33333\n99 33333\n100 33333\n120 1\n121 1\n",
};

const ROWS: [Row; 3] = [
    Row {
        lines: 0,
        word: "",
        out: "0 0 0\n",
    },
    Row {
        lines: 0,
        word: "hello",
        out: "0 1 5\n101 1\n104 1\n108 2\n111 1\n",
    },
    LARGEST,
];

const TOOLS: [&str; 6] = ["icount", "bcount", "mix", "blocks", "calls", "cache"];

// A host in memory with the counter as the file `f`, and the input of a row.
fn host_of(alloc: Global, row: &Row) -> Result<MemoryHost, Fail> {
    let mut input = Vec::new(alloc);
    for _ in 0..row.lines {
        input.extend_from_slice(b"ab cd\n")?;
    }
    input.extend_from_slice(row.word.as_bytes())?;
    let mut files = Vec::new(alloc);
    files.push(("f".to_string(alloc)?, word_counter(alloc)?))?;
    let plan = FaultPlan::new(alloc, 65_536, 65_536);
    Ok(MemoryHost::new(alloc, files, input, Vec::new(alloc), plan)?)
}

// The counter's run under a tool, with a pacer that grants each 64th ask.
fn run<R: Threads + Wait + Sync>(
    rt: &R,
    alloc: Global,
    way: Way,
    tool: &str,
    row: &Row,
) -> Result<Left, Fail> {
    let mut host = host_of(alloc, row)?;
    let mut words = Vec::new(alloc);
    words.push("run".to_string(alloc)?)?;
    if let Way::Serial = way {
        words.push("--by=serial".to_string(alloc)?)?;
    }
    for word in ["--tool", tool, "f"] {
        words.push(word.to_string(alloc)?)?;
    }
    let mut pacer = EveryPacer::new(64);
    let answer = match way {
        Way::Live => superpin_live(rt, alloc, &words, &mut host, &mut pacer, &FreeGate),
        Way::Serial | Way::Windows => superpin(rt, alloc, &words, &mut host, &mut pacer),
    };
    Ok(Left {
        status: exit_code(&answer),
        out: host.written(Port::Out).to_vec(alloc)?,
        report: host.written(Port::Report).to_vec(alloc)?,
    })
}

#[test]
fn words_are_counted(rt: HostRuntime) -> Result<(), Fail> {
    for (k, row) in ROWS.iter().enumerate() {
        let serial = run(&rt, rt.alloc(), Way::Serial, "icount", row)?;
        assert!(rt;
            serial.status == 0 && serial.out.as_slice() == row.out.as_bytes(),
            "row {k}"
        );
        let windows = run(&rt, rt.alloc(), Way::Windows, "icount", row)?;
        assert!(rt; windows == serial, "row {k}, by windows");
        let live = run(&rt, rt.alloc(), Way::Live, "icount", row)?;
        assert!(rt; live == serial, "row {k}, live");
    }
    Ok(())
}

// It takes a second or two as it is built, and minutes in an interpreter.
#[test]
fn each_tool_reports_the_same(rt: HostRuntime) -> Result<(), Fail> {
    for tool in TOOLS {
        let serial = run(&rt, rt.alloc(), Way::Serial, tool, &LARGEST)?;
        assert!(rt; serial.status == 0 && !serial.report.is_empty(), "{tool}");
        let windows = run(&rt, rt.alloc(), Way::Windows, tool, &LARGEST)?;
        assert!(rt; windows == serial, "{tool}, by windows");
        let live = run(&rt, rt.alloc(), Way::Live, tool, &LARGEST)?;
        assert!(rt; live == serial, "{tool}, live");
    }
    Ok(())
}
