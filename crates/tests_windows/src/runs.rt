// Where runs are cut, and their lines. The steps are of the manual's instructions, by hand; so are the cuts, by the rule that
// a cut is where the pacer grants it, or where since the last one there were so many calls, 4,194,304 bytes that calls stored,
// or more pages written than all frames but 32.
use crate::programs::{Program, file_of};
use crate::setting::{BOUNDS, Bounds, NOTHING, Outside, host_of, pacer_of, run};
use ordered_merge::{Finished, SliceLine};
use rv_machine::End;
use sp_host::{Pacer, TimePacer};
use std::alloc::Global;
use std::process::Abort;
use std::test::Fail;
use std::thread::Threads;
use tool_counts::InsCount;

// A program, its bounds, and the answers of its pacer. Where it is cut, and the steps and the calls of each slice;
// how many positions of each slice but the last one pass each test. No position of the last one is tested.
#[derive(Clone, Copy)]
struct Row {
    program: Program,
    bounds: Bounds,
    answers: &'static [bool],
    cuts: &'static [u64],
    lines: &'static [(u64, u64)],
    hits: [u64; 4],
}

const ADDED: Row = Row {
    program: Program::AddTwice,
    bounds: BOUNDS,
    answers: &[false, true],
    cuts: &[2],
    lines: &[(2, 0), (3, 0)],
    hits: [1, 1, 1, 1],
};

const WAITED: Row = Row {
    program: Program::WaitASecond,
    bounds: Bounds { poll: 25, ..BOUNDS },
    answers: &[true],
    cuts: &[25],
    lines: &[(25, 6), (11, 2)],
    ..ADDED
};

const ROWS: [Row; 12] = [
    ADDED,
    // it is asked after the first four steps, for the fifth ends the run
    Row {
        answers: &[true, true, true, true, true],
        cuts: &[1, 2, 3, 4],
        lines: &[(1, 0), (1, 0), (1, 0), (1, 0), (1, 0)],
        ..ADDED
    },
    // the same in windows of one job
    Row {
        bounds: Bounds { limit: 1, ..BOUNDS },
        answers: &[true, true, true, true, true],
        cuts: &[1, 2, 3, 4],
        lines: &[(1, 0), (1, 0), (1, 0), (1, 0), (1, 0)],
        ..ADDED
    },
    // no cut is due
    Row {
        answers: &[],
        cuts: &[],
        lines: &[(5, 0)],
        ..ADDED
    },
    // three positions before the cut pass all but the whole test
    Row {
        program: Program::CountToSix,
        bounds: Bounds { poll: 23, ..BOUNDS },
        answers: &[true],
        cuts: &[23],
        lines: &[(23, 0), (22, 0)],
        hits: [4, 4, 4, 1],
        ..ADDED
    },
    WAITED,
    // a cut between `lr.w` and `sc.w`
    Row {
        program: Program::StoreReserved,
        lines: &[(2, 0), (6, 0)],
        ..ADDED
    },
    // a cut at each step
    Row {
        program: Program::StoreReserved,
        answers: &[true; 7],
        cuts: &[1, 2, 3, 4, 5, 6, 7],
        lines: &[(1, 0); 8],
        ..ADDED
    },
    // a cut behind a call, which ends the reservation
    Row {
        program: Program::CallBetween,
        bounds: Bounds { poll: 4, ..BOUNDS },
        answers: &[true],
        cuts: &[4],
        lines: &[(4, 1), (5, 0)],
        ..ADDED
    },
    // two calls make a cut
    Row {
        bounds: Bounds {
            records: 2,
            ..BOUNDS
        },
        answers: &[],
        cuts: &[7, 15, 23, 31],
        lines: &[(7, 2), (8, 2), (8, 2), (8, 2), (5, 0)],
        ..WAITED
    },
    // 64 reads of 65,536 bytes make one
    Row {
        program: Program::ReadAll,
        answers: &[],
        cuts: &[390],
        lines: &[(390, 65), (16, 2)],
        ..ADDED
    },
    // 33 pages make one
    Row {
        program: Program::WritePages,
        bounds: Bounds {
            frames: 64,
            ..BOUNDS
        },
        answers: &[],
        cuts: &[136, 268, 400],
        lines: &[(136, 1), (132, 0), (132, 0), (10, 0)],
        ..ADDED
    },
];

// What a program meets: to one a clock that shows a second at the fourth look, to one an input of 64 times 65,536 bytes and ten.
fn outside_of(program: Program) -> Outside {
    match program {
        Program::WaitASecond => Outside {
            moments: &[0, 0, 0, 1_000_000_000],
            ..NOTHING
        },
        Program::ReadAll => Outside {
            input: 4_194_314,
            ..NOTHING
        },
        _ => NOTHING,
    }
}

// Whether a line is this.
fn is_line(line: &SliceLine, steps: u64, calls: u64, hits: [u64; 4]) -> bool {
    let told = [
        line.hits.quick,
        line.hits.registers,
        line.hits.stack,
        line.hits.whole,
    ];
    line.steps == steps && line.calls == calls && told == hits
}

// Whether the lines are those of a row.
fn are_lines(lines: &[SliceLine], row: &Row) -> bool {
    if lines.len() != row.lines.len() {
        return false;
    }
    for (k, (line, wanted)) in lines.iter().zip(row.lines).enumerate() {
        let is_last = k.wrapping_add(1) == lines.len();
        let hits = if is_last { [0, 0, 0, 0] } else { row.hits };
        if !is_line(line, wanted.0, wanted.1, hits) {
            return false;
        }
    }
    true
}

// The sum of the steps, each of which the tool counts.
fn steps_of(lines: &[(u64, u64)]) -> u64 {
    let mut sum = 0u64;
    for (steps, _) in lines {
        sum = sum.wrapping_add(*steps);
    }
    sum
}

// What the run of a row gives.
fn finished_of<R: Threads + Sync>(
    rt: &R,
    alloc: Global,
    row: &Row,
) -> Result<Finished<InsCount>, Fail> {
    let file = file_of(alloc, row.program)?;
    let mut host = host_of(alloc, &outside_of(row.program))?;
    let mut pacer = pacer_of(alloc, row.answers)?;
    let run = run(
        rt,
        alloc,
        &InsCount,
        &file,
        &row.bounds,
        &mut host,
        &mut pacer,
    )?;
    Ok(run.ok().ok_or("the run has no end")?)
}

// Whether the run of a row is cut so, and counts each step.
fn holds<R: Threads + Sync>(rt: &R, alloc: Global, row: &Row) -> Result<bool, Fail> {
    let finished = finished_of(rt, alloc, row)?;
    Ok(
        finished.cuts.as_slice() == row.cuts
            && are_lines(&finished.lines, row)
            && finished.shared == steps_of(row.lines)
            && finished.end == End::Exit(7),
    )
}

// Tries these rows.
fn expect<R: Abort + AllocGlobal + Threads + Sync>(rt: &R, rows: &[Row]) -> Result<(), Fail> {
    for (k, row) in rows.iter().enumerate() {
        let holds = holds(rt, rt.alloc(), row)?;
        assert!(rt; holds, "row {k}");
    }
    Ok(())
}

#[test]
fn cuts_and_lines(rt: HostRuntime) -> Result<(), Fail> {
    expect(&rt, &ROWS)
}

// Where the counter is cut that asks the pacer once, behind the 23rd of its 45 steps.
fn cuts_by_time<R: Threads + Sync>(
    rt: &R,
    alloc: Global,
    pacer: &mut TimePacer,
) -> Result<Vec<u64>, Fail> {
    let file = file_of(alloc, Program::CountToSix)?;
    let mut host = host_of(alloc, &NOTHING)?;
    let bounds = Bounds { poll: 23, ..BOUNDS };
    let run = run(rt, alloc, &InsCount, &file, &bounds, &mut host, pacer)?;
    let finished = run.ok().ok_or("the run has no end")?;
    Ok(finished.cuts)
}

// A pacer by the system's clock, which tells nothing: a period of 0 has always passed, and a minute has not.
#[test]
fn cuts_by_the_clock(rt: HostRuntime) -> Result<(), Fail> {
    let alloc = rt.alloc();
    let mut pacer = TimePacer::new(rt);
    assert!(rt; cuts_by_time(&rt, alloc, &mut pacer)?.as_slice() == [23].as_slice());
    let mut pacer = TimePacer::new(rt);
    pacer.period(60_000);
    assert!(rt; cuts_by_time(&rt, alloc, &mut pacer)?.is_empty());
    Ok(())
}
