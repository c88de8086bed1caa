// The call that is tried.
use hostile_rows::{Row, host_of, is_met, words_of};
use sp_host::EveryPacer;
use std::alloc::Global;
use std::test::Fail;
use std::thread::Threads;
use superpin_top::superpin;

/// The words of a serial run.
pub(crate) const SERIALLY: [&str; 3] = ["run", "--by", "serial"];

/// The words of a run by windows that is asked for a cut after each step.
pub(crate) const BY_WINDOWS: [&str; 3] = ["run", "--poll", "1"];

/// Whether the run that these words and a row ask for leaves what it must. It is cut wherever the pacer is asked.
pub(crate) fn holds<R: Threads + Sync>(
    rt: &R,
    alloc: Global,
    first: &[&str],
    row: &Row,
) -> Result<bool, Fail> {
    let words = words_of(alloc, first, row)?;
    let mut host = host_of(alloc, row)?;
    let mut pacer = EveryPacer::new(1);
    let answer = superpin(rt, alloc, &words, &mut host, &mut pacer);
    Ok(is_met(row, &answer, &host))
}
