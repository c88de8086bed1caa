// What stops a run, with several jobs outstanding: a cut is at each step.
use crate::programs::{Program, file_of, talk};
use crate::setting::{BOUNDS, Bounds, NOTHING, Outside, host_of, pacer_of, run};
use sp_host::{EveryPacer, MemoryHost, Pacer, Port};
use std::alloc::Global;
use std::process::Abort;
use std::test::Fail;
use std::thread::Threads;
use syscall_layer::RunFault;
use tool_counts::InsCount;

// What the talking program meets, and what stands on its standard output when it is stopped so.
#[derive(Clone, Copy)]
struct Row {
    outside: Outside,
    budget: u64,
    fault: Option<RunFault>,
    out: &'static [u8],
}

const READ_FAILS: Row = Row {
    outside: Outside {
        failing_input: 1,
        ..NOTHING
    },
    budget: 1_000_000,
    fault: Some(RunFault::InputFault),
    out: b"ELFELF",
};

const WRITE_FAILS: Row = Row {
    outside: NOTHING,
    fault: Some(RunFault::OutputFault { port: Port::Out }),
    ..READ_FAILS
};

const ROWS: [Row; 11] = [
    READ_FAILS,
    // there is no second read
    Row {
        outside: Outside {
            failing_input: 2,
            ..NOTHING
        },
        fault: None,
        out: b"ELFELFELF",
        ..READ_FAILS
    },
    Row {
        outside: Outside {
            failing_out: 1,
            ..NOTHING
        },
        out: b"",
        ..WRITE_FAILS
    },
    Row {
        outside: Outside {
            failing_out: 3,
            ..NOTHING
        },
        ..WRITE_FAILS
    },
    Row {
        outside: Outside {
            failing_out: 4,
            ..NOTHING
        },
        fault: None,
        out: b"ELFELFELF",
        ..WRITE_FAILS
    },
    // by single bytes
    Row {
        outside: Outside {
            failing_out: 5,
            single: true,
            ..NOTHING
        },
        out: b"ELFE",
        ..WRITE_FAILS
    },
    Row {
        outside: Outside {
            failing_out: 7,
            single: true,
            ..NOTHING
        },
        ..WRITE_FAILS
    },
    Row {
        outside: Outside {
            failing_out: 9,
            single: true,
            ..NOTHING
        },
        out: b"ELFELFEL",
        ..WRITE_FAILS
    },
    // 47 steps end the run
    Row {
        outside: NOTHING,
        budget: 47,
        fault: None,
        out: b"ELFELFELF",
    },
    Row {
        outside: NOTHING,
        budget: 46,
        fault: Some(RunFault::BudgetSpent { n: 46 }),
        out: b"ELFELFELF",
    },
    Row {
        outside: NOTHING,
        budget: 43,
        fault: Some(RunFault::BudgetSpent { n: 43 }),
        out: b"ELFELF",
    },
];

// The fault of the run of a file, or None where it ended.
fn fault_of<P: Pacer + Send, R: Threads + Sync>(
    rt: &R,
    alloc: Global,
    file: &[u8],
    bounds: &Bounds,
    host: &mut MemoryHost,
    pacer: &mut P,
) -> Result<Option<RunFault>, Fail> {
    let run = run(rt, alloc, &InsCount, file, bounds, host, pacer)?;
    Ok(run.err())
}

// Whether the talking program is stopped as a row says.
fn holds<R: Threads + Sync>(rt: &R, alloc: Global, file: &[u8], row: &Row) -> Result<bool, Fail> {
    let bounds = Bounds {
        budget: row.budget,
        ..BOUNDS
    };
    let mut host = host_of(alloc, &row.outside)?;
    let mut pacer = EveryPacer::new(1);
    let fault = fault_of(rt, alloc, file, &bounds, &mut host, &mut pacer)?;
    Ok(fault == row.fault && host.written(Port::Out) == row.out)
}

// Tries these rows.
fn expect<R: Abort + AllocGlobal + Threads + Sync>(rt: &R, rows: &[Row]) -> Result<(), Fail> {
    let file = talk(rt.alloc())?;
    for (k, row) in rows.iter().enumerate() {
        let holds = holds(rt, rt.alloc(), &file, row)?;
        assert!(rt; holds, "row {k}");
    }
    Ok(())
}

#[test]
fn faults_and_what_was_written(rt: HostRuntime) -> Result<(), Fail> {
    expect(&rt, &ROWS)
}

// The budget is spent in the second slice.
#[test]
fn budget_spent_behind_a_cut(rt: HostRuntime) -> Result<(), Fail> {
    let alloc = rt.alloc();
    let file = file_of(alloc, Program::CountToSix)?;
    let bounds = Bounds {
        budget: 30,
        poll: 23,
        ..BOUNDS
    };
    let mut host = host_of(alloc, &NOTHING)?;
    let mut pacer = pacer_of(alloc, &[true])?;
    let fault = fault_of(&rt, alloc, &file, &bounds, &mut host, &mut pacer)?;
    assert!(rt; fault == Some(RunFault::BudgetSpent { n: 30 }));
    Ok(())
}

// The call comes behind a cut.
#[test]
fn a_call_without_a_row(rt: HostRuntime) -> Result<(), Fail> {
    let alloc = rt.alloc();
    let file = file_of(alloc, Program::HelloAndMore)?;
    let mut host = host_of(alloc, &NOTHING)?;
    let mut pacer = EveryPacer::new(1);
    let fault = fault_of(&rt, alloc, &file, &BOUNDS, &mut host, &mut pacer)?;
    let wanted = RunFault::Unsupported {
        number: 1,
        pc: 0x10074,
    };
    assert!(rt; fault == Some(wanted));
    assert!(rt; host.written(Port::Out) == b"hello\n".as_slice());
    Ok(())
}
