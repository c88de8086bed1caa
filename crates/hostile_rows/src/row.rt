// What a run meets, and what it leaves.
use crate::programs::{Program, file_of};
use sp_host::{FaultPlan, MemoryHost, Port};
use sp_report::{Answer, Refusal};
use std::alloc::{AllocError, Global};

/// Which call of each kind fails, the first of a kind with number 1; 0 for none.
#[derive(Clone, Copy)]
pub struct Faults {
    pub file: u64,
    pub input: u64,
    pub out: u64,
    pub report: u64,
}

/// No call fails.
pub const FAULTLESS: Faults = Faults {
    file: 0,
    input: 0,
    out: 0,
    report: 0,
};

/// What is answered: a status, or a refusal.
#[derive(Clone, Copy)]
pub enum Wanted {
    Status(u8),
    Refusal(Refusal),
}

/// A run: its program, which is the file `f`, the options before that name, the calls that fail, and whether a call moves only one
/// byte. The input is `ab`. And what the run leaves: the answer, where it was cut if it ended, and the bytes on the standard output
/// and on the port of reports; the standard error stays empty.
#[derive(Clone, Copy)]
pub struct Row<'a> {
    pub program: Program,
    pub options: &'a [&'a str],
    pub faults: Faults,
    pub single: bool,
    pub answer: Wanted,
    pub cuts: &'a [u64],
    pub out: &'a [u8],
    pub report: &'a [u8],
}

/// The words of a row: first these, as `run` and `--by` with a way, then its options and `f`.
pub fn words_of(alloc: Global, first: &[&str], row: &Row) -> Result<Vec<String>, AllocError> {
    let mut words = Vec::new(alloc);
    for word in first.iter().chain(row.options) {
        words.push(word.to_string(alloc)?)?;
    }
    words.push("f".to_string(alloc)?)?;
    Ok(words)
}

/// A host in memory with what the run of a row meets.
pub fn host_of(alloc: Global, row: &Row) -> Result<MemoryHost, AllocError> {
    let most = if row.single { 1 } else { 65_536 };
    let mut plan = FaultPlan::new(alloc, most, 65_536);
    plan.file = [row.faults.file].to_vec(alloc)?;
    plan.input = [row.faults.input].to_vec(alloc)?;
    plan.out = [row.faults.out].to_vec(alloc)?;
    plan.report = [row.faults.report].to_vec(alloc)?;
    let mut files = Vec::new(alloc);
    files.push(("f".to_string(alloc)?, file_of(alloc, row.program)?))?;
    let input = b"ab".to_vec(alloc)?;
    MemoryHost::new(alloc, files, input, Vec::new(alloc), plan)
}

// Whether that is the answer.
fn is_answered(answer: &Answer, row: &Row) -> bool {
    match (answer, row.answer) {
        (Answer::Ended { status, cuts, .. }, Wanted::Status(wanted)) => {
            *status == wanted && cuts.positions() == row.cuts
        }
        (Answer::Refused(refusal), Wanted::Refusal(wanted)) => *refusal == wanted,
        _ => false,
    }
}

/// Whether a run that answered so over a host of its row left what it must.
pub fn is_met(row: &Row, answer: &Answer, host: &MemoryHost) -> bool {
    is_answered(answer, row)
        && host.written(Port::Out) == row.out
        && host.written(Port::Err).is_empty()
        && host.written(Port::Report) == row.report
}
