// The call that is tried, over a host in memory.
use hostile_rows::{Row as Hostile, Wanted, host_of, is_met, words_of};
use sample_files::{one_segment, two_segments};
use sp_host::{FaultPlan, FreeGate, Gate, ListPacer, MemoryHost, Pacer, Port};
use std::alloc::{AllocError, Global};
use std::sync::Wait;
use std::test::Fail;
use std::thread::Threads;
use superpin_live_top::{Answer, superpin_live};

/// A program, which is the file `f`, with a second segment of zeros at 0x20000 where `data` is true; the words, the pacer's answers;
/// and what its run leaves: the answer, where it was cut if it ended, and the bytes on the standard output and on the port of reports.
#[derive(Clone, Copy)]
pub(crate) struct Row {
    pub(crate) code: &'static [u32],
    pub(crate) data: bool,
    pub(crate) words: &'static [&'static str],
    pub(crate) pacer: &'static [bool],
    pub(crate) answer: Wanted,
    pub(crate) cuts: &'static [u64],
    pub(crate) out: &'static [u8],
    pub(crate) report: &'static [u8],
}

// Whether that is the answer.
fn is_answered(answer: &Answer, row: &Row) -> bool {
    match (answer, row.answer) {
        (Answer::Ended { status, cuts, .. }, Wanted::Status(wanted)) => {
            *status == wanted && cuts.positions() == row.cuts
        }
        (Answer::Refused(refusal), Wanted::Refusal(wanted)) => *refusal == wanted,
        _ => false,
    }
}

fn file_of(alloc: Global, row: &Row) -> Result<Vec<u8>, AllocError> {
    if row.data {
        two_segments(alloc, row.code)
    } else {
        one_segment(alloc, row.code)
    }
}

/// Whether the live run of a row leaves what it must, with this gate. The input is `ab`, and the fourth moment is a second behind the
/// first.
pub(crate) fn holds<G: Gate + Sync, R: Threads + Wait + Sync>(
    rt: &R,
    alloc: Global,
    row: &Row,
    gate: &G,
) -> Result<bool, Fail> {
    let mut words = Vec::new(alloc);
    for word in row.words {
        words.push(word.to_string(alloc)?)?;
    }
    let mut files = Vec::new(alloc);
    files.push(("f".to_string(alloc)?, file_of(alloc, row)?))?;
    let plan = FaultPlan::new(alloc, 65_536, 65_536);
    let input = b"ab".to_vec(alloc)?;
    let moments = [0, 0, 0, 1_000_000_000].to_vec(alloc)?;
    let mut host = MemoryHost::new(alloc, files, input, moments, plan)?;
    let mut pacer = ListPacer::new(row.pacer.to_vec(alloc)?);
    let answer = superpin_live(rt, alloc, &words, &mut host, &mut pacer, gate);
    Ok(
        is_answered(&answer, row)
            && host.written(Port::Out) == row.out
            && host.written(Port::Err).is_empty()
            && host.written(Port::Report) == row.report,
    )
}

/// Whether the live run of a hostile row leaves what it must, with these words before its options.
pub(crate) fn withstands<P: Pacer + Send, R: Threads + Wait + Sync>(
    rt: &R,
    alloc: Global,
    first: &[&str],
    row: &Hostile,
    pacer: &mut P,
) -> Result<bool, Fail> {
    let words = words_of(alloc, first, row)?;
    let mut host = host_of(alloc, row)?;
    let answer = superpin_live(rt, alloc, &words, &mut host, pacer, &FreeGate);
    Ok(is_met(row, &answer, &host))
}
