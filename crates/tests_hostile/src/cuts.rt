// A cut at each step, at each single place under each tool, at the fewest frames, and of a run that only its budget ends.
use crate::run::holds;
use hostile_rows::{ACROSS_PAGES, Row, TEXTS, TURNS_FOR_EVER, each_step_cut, once_cut, one_answer};
use sp_host::{EveryPacer, ListPacer};
use std::alloc::Global;
use std::test::Fail;
use std::thread::Threads;

#[test]
fn at_each_step(rt: HostRuntime) -> Result<(), Fail> {
    let (cuts, report) = each_step_cut(rt.alloc())?;
    let row = once_cut(&["--poll", "1", "--slices"], &cuts, &report);
    let mut pacer = EveryPacer::new(1);
    assert!(rt; holds(&rt, rt.alloc(), &row, &mut pacer)?);
    Ok(())
}

// Whether the counter is cut behind so many steps and one more, and each tool reports what it must. None: of each it does. Some:
// the tool of which it does not.
fn wrong_tool<R: Threads + Sync>(
    rt: &R,
    alloc: Global,
    before: usize,
) -> Result<Option<&'static str>, Fail> {
    let cuts = [(before as u64).wrapping_add(1)];
    for text in &TEXTS {
        let options = ["--poll", "1", "--tool", text.tool];
        let row = once_cut(&options, &cuts, text.report.as_bytes());
        let mut pacer = ListPacer::new(one_answer(alloc, before)?);
        if !holds(rt, alloc, &row, &mut pacer)? {
            return Ok(Some(text.tool));
        }
    }
    Ok(None)
}

#[test]
fn at_each_place(rt: HostRuntime) -> Result<(), Fail> {
    for before in 0..44 {
        assert!(rt;
            wrong_tool(&rt, rt.alloc(), before)?.is_none(),
            "behind {before}"
        );
    }
    Ok(())
}

#[test]
fn at_the_fewest_frames(rt: HostRuntime) -> Result<(), Fail> {
    let mut pacer = ListPacer::new(Vec::new(rt.alloc()));
    assert!(rt; holds(&rt, rt.alloc(), &ACROSS_PAGES, &mut pacer)?);
    let row = Row {
        options: &["--frames", "64", "--limit", "1"],
        ..ACROSS_PAGES
    };
    assert!(rt; holds(&rt, rt.alloc(), &row, &mut pacer)?);
    Ok(())
}

#[test]
fn up_to_the_budget(rt: HostRuntime) -> Result<(), Fail> {
    let mut pacer = EveryPacer::new(1);
    assert!(rt; holds(&rt, rt.alloc(), &TURNS_FOR_EVER, &mut pacer)?);
    Ok(())
}
