// The call that is tried.
use hostile_rows::{Row, host_of, is_met, words_of};
use sp_host::Pacer;
use std::alloc::Global;
use std::test::Fail;
use std::thread::Threads;
use superpin_top::superpin;

/// Whether the run by windows of a row leaves what it must.
pub(crate) fn holds<P: Pacer + Send, R: Threads + Sync>(
    rt: &R,
    alloc: Global,
    row: &Row,
    pacer: &mut P,
) -> Result<bool, Fail> {
    let words = words_of(alloc, &["run"], row)?;
    let mut host = host_of(alloc, row)?;
    let answer = superpin(rt, alloc, &words, &mut host, pacer);
    Ok(is_met(row, &answer, &host))
}
