// Live runs in which something outside fails while slices are outstanding, and such as are cut at hostile places.
use crate::call::withstands;
use hostile_rows::{
    ACROSS_PAGES, INPUT_FAILS, TEXTS, TURNS_FOR_EVER, each_step_cut, once_cut, one_answer,
    out_fault,
};
use sp_host::{EveryPacer, ListPacer};
use std::test::Fail;

/// The words of a run that is asked for a cut after each step, and has more slices than workers.
const OFTEN: [&str; 7] = ["run", "--poll", "1", "--limit", "8", "--workers", "2"];

#[test]
fn outputs_fail(rt: HostRuntime) -> Result<(), Fail> {
    for before in 0..7 {
        let row = out_fault(before, &[], &[1, 2, 3, 4, 5, 6, 7, 8]);
        let mut pacer = EveryPacer::new(1);
        assert!(rt;
            withstands(&rt, rt.alloc(), &OFTEN, &row, &mut pacer)?,
            "behind {before}"
        );
    }
    Ok(())
}

#[test]
fn the_input_fails(rt: HostRuntime) -> Result<(), Fail> {
    let mut pacer = EveryPacer::new(1);
    assert!(rt; withstands(&rt, rt.alloc(), &OFTEN, &INPUT_FAILS, &mut pacer)?);
    Ok(())
}

#[test]
fn each_step_is_cut(rt: HostRuntime) -> Result<(), Fail> {
    let alloc = rt.alloc();
    let (cuts, report) = each_step_cut(alloc)?;
    let row = once_cut(&["--poll", "1", "--slices"], &cuts, &report);
    let mut pacer = EveryPacer::new(1);
    assert!(rt; withstands(&rt, alloc, &["run"], &row, &mut pacer)?);
    Ok(())
}

#[test]
fn each_tool_is_cut(rt: HostRuntime) -> Result<(), Fail> {
    let alloc = rt.alloc();
    for text in &TEXTS {
        let options = ["--poll", "1", "--tool", text.tool];
        let row = once_cut(&options, &[23], text.report.as_bytes());
        let mut pacer = ListPacer::new(one_answer(alloc, 22)?);
        assert!(rt;
            withstands(&rt, alloc, &["run"], &row, &mut pacer)?,
            "{}",
            text.tool
        );
    }
    Ok(())
}

#[test]
fn pages_are_few(rt: HostRuntime) -> Result<(), Fail> {
    let mut pacer = ListPacer::new(Vec::new(rt.alloc()));
    let words = ["run", "--limit", "1", "--workers", "1"];
    assert!(rt; withstands(&rt, rt.alloc(), &words, &ACROSS_PAGES, &mut pacer)?);
    Ok(())
}

#[test]
fn a_run_never_ends(rt: HostRuntime) -> Result<(), Fail> {
    let mut pacer = EveryPacer::new(1);
    let words = ["run", "--limit", "4", "--workers", "2"];
    assert!(rt; withstands(&rt, rt.alloc(), &words, &TURNS_FOR_EVER, &mut pacer)?);
    Ok(())
}
