// What slices of jobs give.
ghost use Rattle.std.specs.Prelude.{◌≡◌, IfOk};

use crate::cuts::{
    ADD_TWICE, CALL_BETWEEN, Cut, FOUR_TURNS, RESERVED_ONCE, STORE_RESERVED, THREE_TURNS, parts_of,
};
use boundary_verify::Job;
use elf_load::load;
use ins_views::Views;
use ordered_merge::Merger;
use sample_files::two_segments;
use slice_runner::{checked_job, open_slice, run_slice};
use std::alloc::Global;
use std::test::Fail;
use tool_counts::{BlockProfile, InsCount};
use tool_law::{Piece, Tool, make_plan};

// The views of some code.
fn views_of(alloc: Global, code: &[u32]) -> Result<Views, Fail> {
    let file = two_segments(alloc, code)?;
    let image = load(alloc, &file).ok().ok_or("refused")?;
    Ok(Views::new(alloc, &image)?)
}

// The job of a piece.
fn job_of(alloc: Global, index: u64, cut: &Cut) -> Result<Job, Fail>
    ensures { IfOk result (λ job. job.index ≡ index) }
{
    let parts = parts_of(alloc, cut)?;
    let job = checked_job(
        alloc,
        index,
        parts.start,
        parts.position,
        parts.records,
        parts.end,
        1,
        100,
    );
    Ok(job.ok().ok_or("no job")?)
}

// The piece of a slice.
fn piece_of<T: Tool>(alloc: Global, tool: &T, index: u64, cut: &Cut) -> Result<Piece<T>, Fail>
    ensures { IfOk result (λ piece. piece.index ≡ index) }
{
    let views = views_of(alloc, cut.code)?;
    let plan = make_plan(alloc, &views, tool)?;
    let job = job_of(alloc, index, cut)?;
    let slice = open_slice(alloc, &plan, job, tool)?;
    Ok(run_slice(&plan, tool, slice)?)
}

// A piece: its steps and calls, and how many positions pass each test.
struct Row {
    cut: Cut,
    steps: u64,
    calls: u64,
    hits: [u64; 4],
}

const ROWS: [Row; 7] = [
    // three positions before the last one pass all but the whole test
    Row {
        cut: FOUR_TURNS,
        steps: 23,
        calls: 0,
        hits: [4, 4, 4, 1],
    },
    Row {
        cut: Cut {
            from: 23,
            steps: None,
            ..FOUR_TURNS
        },
        steps: 22,
        calls: 0,
        hits: [0, 0, 0, 0],
    },
    // two positions before the last one have its whole state, with other record positions
    Row {
        cut: THREE_TURNS,
        steps: 25,
        calls: 6,
        hits: [1, 1, 1, 1],
    },
    Row {
        cut: Cut {
            from: 25,
            calls: 6,
            steps: None,
            ..THREE_TURNS
        },
        steps: 11,
        calls: 2,
        hits: [0, 0, 0, 0],
    },
    // from a head to the next one, whose registers are the same: the position at which it starts is not tested
    Row {
        cut: Cut {
            from: 9,
            steps: Some(7),
            ..FOUR_TURNS
        },
        steps: 7,
        calls: 0,
        hits: [1, 1, 1, 1],
    },
    // the reservation alone tells one position from the end
    Row {
        cut: Cut {
            code: &RESERVED_ONCE,
            steps: Some(5),
            ..FOUR_TURNS
        },
        steps: 5,
        calls: 0,
        hits: [2, 2, 2, 1],
    },
    // from a call on, behind which nothing is reserved
    Row {
        cut: Cut {
            code: &CALL_BETWEEN,
            from: 4,
            calls: 1,
            steps: None,
            ahead: 0,
        },
        steps: 5,
        calls: 0,
        hits: [0, 0, 0, 0],
    },
];

#[test]
fn steps_calls_and_hits(rt: HostRuntime) -> Result<(), Fail> {
    let alloc = rt.alloc();
    for (k, row) in ROWS.iter().enumerate() {
        let piece = piece_of(alloc, &InsCount, 3, &row.cut)?;
        let hits = [
            piece.hits.quick,
            piece.hits.registers,
            piece.hits.stack,
            piece.hits.whole,
        ];
        assert!(rt; piece.index == 3 && piece.local == row.steps, "row {k}");
        assert!(rt;
            piece.steps == row.steps && piece.calls == row.calls,
            "row {k}"
        );
        assert!(rt; hits == row.hits, "row {k}");
    }
    Ok(())
}

// What is reserved goes over each cut: the two pieces have the steps of the whole.
#[test]
fn a_reservation_that_is_cut(rt: HostRuntime) -> Result<(), Fail> {
    let alloc = rt.alloc();
    for k in 1..8 {
        let first = Cut {
            code: &STORE_RESERVED,
            steps: Some(k),
            ..FOUR_TURNS
        };
        let last = Cut {
            from: k,
            steps: None,
            ..first
        };
        let before = piece_of(alloc, &InsCount, 0, &first)?;
        let behind = piece_of(alloc, &InsCount, 1, &last)?;
        assert!(rt; before.steps == k && behind.steps == 8 - k, "cut {k}");
    }
    Ok(())
}

// A block that is cut in two is counted once, by the slice in which it begins.
#[test]
fn a_block_that_is_cut(rt: HostRuntime) -> Result<(), Fail> {
    let alloc = rt.alloc();
    let first = Cut {
        code: &ADD_TWICE,
        steps: Some(2),
        ..FOUR_TURNS
    };
    let last = Cut {
        from: 2,
        steps: None,
        ..first
    };
    let views = views_of(alloc, &ADD_TWICE)?;
    let mut merger = Merger::create(alloc, &BlockProfile, &views)?;
    merger.put(&BlockProfile, piece_of(alloc, &BlockProfile, 0, &first)?)?;
    merger.put(&BlockProfile, piece_of(alloc, &BlockProfile, 1, &last)?)?;
    let (counts, lines) = merger.finish();
    assert!(rt; counts.len() == 1 && counts.get(&0x10074) == Some(&1));
    assert!(rt; lines[0].steps == 2 && lines[1].steps == 3);
    Ok(())
}
