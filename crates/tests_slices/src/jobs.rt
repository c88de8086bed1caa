// Which parts make a job, and what else is answered.
use crate::cuts::{
    COUNT_TO_SIX, Cut, FOUR_TURNS, LOAD_PAST_DATA, THREE_TURNS, WAIT_A_SECOND, parts_of,
};
use slice_runner::{JobFault, checked_job};
use std::alloc::Global;
use std::process::Abort;
use std::test::Fail;

// A piece, how many pages it may write, and how many steps are tried. Where `record` is Some, that record gets this number.
// The fault, or None for a job.
#[derive(Clone, Copy)]
struct Row {
    cut: Cut,
    peak: u32,
    within: u32,
    record: Option<(usize, u32)>,
    fault: Option<JobFault>,
}

const COUNTED: Row = Row {
    cut: FOUR_TURNS,
    peak: 1,
    within: 100,
    record: None,
    fault: None,
};

const WAITED: Row = Row {
    cut: THREE_TURNS,
    ..COUNTED
};

// The last steps of both.
const LAST_COUNTED: Cut = Cut {
    from: 23,
    steps: None,
    ..FOUR_TURNS
};

const LAST_WAITED: Cut = Cut {
    code: &WAIT_A_SECOND,
    from: 25,
    calls: 6,
    steps: None,
    ahead: 0,
};

const ROWS: [Row; 16] = [
    COUNTED,
    // the boundary is met at the last step that may be made
    Row {
        within: 23,
        ..COUNTED
    },
    Row {
        within: 22,
        fault: Some(JobFault::NotReached { steps: 22 }),
        ..COUNTED
    },
    Row {
        within: 0,
        fault: Some(JobFault::NotReached { steps: 0 }),
        ..COUNTED
    },
    Row {
        peak: 0,
        fault: Some(JobFault::Peak { pages: 1 }),
        ..COUNTED
    },
    // the page is written by the fifth step, with which the piece ends: there are too many pages, and the end is met
    Row {
        cut: Cut {
            steps: Some(5),
            ..FOUR_TURNS
        },
        peak: 0,
        fault: Some(JobFault::Peak { pages: 1 }),
        ..COUNTED
    },
    // the state is met at the four heads, and the record position never
    Row {
        cut: Cut {
            ahead: 1,
            ..FOUR_TURNS
        },
        within: 30,
        fault: Some(JobFault::NotReached { steps: 30 }),
        ..COUNTED
    },
    // no step is made behind the exit, the 45th
    Row {
        cut: Cut {
            ahead: 1,
            ..FOUR_TURNS
        },
        fault: Some(JobFault::NotReached { steps: 45 }),
        ..COUNTED
    },
    // the end of the piece lies behind the fault, which is the second step
    Row {
        cut: Cut {
            code: &LOAD_PAST_DATA,
            steps: Some(1),
            ahead: 1,
            ..FOUR_TURNS
        },
        fault: Some(JobFault::NotReached { steps: 2 }),
        ..COUNTED
    },
    // up to the fault
    Row {
        cut: Cut {
            code: &LOAD_PAST_DATA,
            steps: None,
            ..FOUR_TURNS
        },
        ..COUNTED
    },
    Row {
        cut: LAST_COUNTED,
        within: 22,
        ..COUNTED
    },
    WAITED,
    Row {
        record: Some((0, 178)),
        fault: Some(JobFault::BadRecord { index: 0 }),
        ..WAITED
    },
    Row {
        record: Some((5, 64)),
        fault: Some(JobFault::BadRecord { index: 5 }),
        ..WAITED
    },
    Row {
        cut: LAST_WAITED,
        ..COUNTED
    },
    // the place is that in the list, whatever the record position is
    Row {
        cut: LAST_WAITED,
        record: Some((1, 178)),
        fault: Some(JobFault::BadRecord { index: 1 }),
        ..COUNTED
    },
];

// Whether a row holds.
fn holds(alloc: Global, row: &Row) -> Result<bool, Fail> {
    let mut parts = parts_of(alloc, &row.cut)?;
    if let Some((k, number)) = row.record {
        let record = parts.records.get_mut(k).ok_or("no record")?;
        record.number = number;
    }
    let made = checked_job(
        alloc,
        7,
        parts.start,
        parts.position,
        parts.records,
        parts.end,
        row.peak,
        u64::from(row.within),
    );
    Ok(match made {
        Ok(job) => row.fault.is_none() && job.index == 7 && job.peak == row.peak,
        Err(fault) => row.fault == Some(fault),
    })
}

// Tries these rows.
fn expect(rt: &(impl Abort + AllocGlobal), rows: &[Row]) -> Result<(), Fail> {
    for (k, row) in rows.iter().enumerate() {
        let holds = holds(rt.alloc(), row)?;
        assert!(rt; holds, "row {k}");
    }
    Ok(())
}

#[test]
fn jobs_and_faults(rt: HostRuntime) -> Result<(), Fail> {
    expect(&rt, &ROWS)
}

// A record that is left over: with a piece that ends with the run it is no end, with others it does not matter.
#[test]
fn a_record_left_over(rt: HostRuntime) -> Result<(), Fail> {
    let alloc = rt.alloc();
    let waited = parts_of(alloc, &THREE_TURNS)?;
    let mut counted = parts_of(alloc, &FOUR_TURNS)?;
    let faulted = parts_of(
        alloc,
        &Cut {
            code: &LOAD_PAST_DATA,
            steps: None,
            ..FOUR_TURNS
        },
    )?;
    let left = checked_job(
        alloc,
        0,
        faulted.start,
        0,
        waited.records,
        faulted.end,
        1,
        100,
    );
    assert!(rt; matches!(left, Err(JobFault::NotReached { steps: 2 })));
    counted.records = parts_of(alloc, &THREE_TURNS)?.records;
    let made = checked_job(
        alloc,
        0,
        counted.start,
        0,
        counted.records,
        counted.end,
        1,
        100,
    );
    assert!(rt; made.is_ok());
    Ok(())
}
