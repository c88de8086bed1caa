// What the program meets outside, and what stands there after a call.
ghost use Rattle.std.specs.Prelude.{◌≡◌, ◌<◌};

use sp_host::{FaultPlan, ListPacer, MemoryHost, Port};
use std::alloc::Global;
use std::test::Fail;
use std::thread::Threads;
use superpin_top::{Answer, Refusal, exit_code, superpin};

/// The words of a serial run of the file `f`.
pub(crate) const SERIAL: [&str; 4] = ["run", "--by", "serial", "f"];

/// `write(1, 0x10078, 6)`, `exit(0)`, then `hello` and a line end.
pub(crate) const HELLO: [u32; 11] = [
    0x04000893, 0x00100513, 0x000105b7, 0x07858593, 0x00600613, 0x00000073, 0x05d00893, 0x00000513,
    0x00000073, 0x6c6c6568, 0x00000a6f,
];

/// Two reads of one byte to 0x20000, then `exit(7)`.
pub(crate) const READ_TWICE: [u32; 10] = [
    0x000205b7, 0x03f00893, 0x00000513, 0x00100613, 0x00000073, 0x00000513, 0x00000073, 0x05d00893,
    0x00700513, 0x00000073,
];

/// `lr.w` of the word at 0x20000 and `sc.w`, over an instruction where that did not store, then `exit(7)`.
pub(crate) const STORE_RESERVED: [u32; 8] = [
    0x00020337, 0x100322af, 0x185323af, 0x00039463, 0x00100293, 0x05d00893, 0x00700513, 0x00000073,
];

/// The same with a `getpid` between.
pub(crate) const CALL_BETWEEN: [u32; 10] = [
    0x00020337, 0x100322af, 0x0ac00893, 0x00000073, 0x185323af, 0x00039463, 0x00100293, 0x05d00893,
    0x00700513, 0x00000073,
];

/// The file `f`, an input, moments, and a plan of faults.
#[derive(Drop)]
pub(crate) struct Outside {
    pub(crate) file: Vec<u8>,
    pub(crate) input: Vec<u8>,
    pub(crate) moments: Vec<u64>,
    pub(crate) plan: FaultPlan,
}

/// What a call answered, and the bytes of each port.
#[derive(Drop)]
pub(crate) struct Done {
    pub(crate) answer: Answer,
    pub(crate) out: Vec<u8>,
    pub(crate) err: Vec<u8>,
    pub(crate) report: Vec<u8>,
}

/// The file, no input, no moments and no faults, each call moving at most `most` bytes.
pub(crate) fn outside_of(alloc: Global, file: Vec<u8>, most: usize) -> Outside
    requires { 0 < most }
    ensures { result.plan.most ≡ most }
{
    Outside {
        file,
        input: Vec::new(alloc),
        moments: Vec::new(alloc),
        plan: FaultPlan::new(alloc, most, 65_536),
    }
}

/// A host in memory with this outside.
pub(crate) fn host_of(alloc: Global, outside: Outside) -> Result<MemoryHost, Fail>
    requires { 0 < outside.plan.most }
{
    let mut files = Vec::new(alloc);
    files.push(("f".to_string(alloc)?, outside.file))?;
    Ok(MemoryHost::new(alloc, files, outside.input, outside.moments, outside.plan)?)
}

/// The words as strings.
pub(crate) fn owned(alloc: Global, words: &[&str]) -> Result<Vec<String>, Fail> {
    let mut all = Vec::new(alloc);
    for word in words {
        all.push(word.to_string(alloc)?)?;
    }
    Ok(all)
}

/// Calls the program with these words, and a pacer that grants nothing.
pub(crate) fn run<R: Threads + Sync>(
    rt: &R,
    alloc: Global,
    words: &[&str],
    outside: Outside,
) -> Result<Done, Fail>
    requires { 0 < outside.plan.most }
{
    run_paced(rt, alloc, words, outside, &[])
}

/// Calls the program with these words, and a pacer that gives these answers.
pub(crate) fn run_paced<R: Threads + Sync>(
    rt: &R,
    alloc: Global,
    words: &[&str],
    outside: Outside,
    answers: &[bool],
) -> Result<Done, Fail>
    requires { 0 < outside.plan.most }
{
    let mut host = host_of(alloc, outside)?;
    let words = owned(alloc, words)?;
    let mut pacer = ListPacer::new(answers.to_vec(alloc)?);
    let answer = superpin(rt, alloc, &words, &mut host, &mut pacer);
    Ok(Done {
        answer,
        out: host.written(Port::Out).to_vec(alloc)?,
        err: host.written(Port::Err).to_vec(alloc)?,
        report: host.written(Port::Report).to_vec(alloc)?,
    })
}

/// Whether the bytes are these.
pub(crate) fn are(bytes: &[u8], wanted: &[u8]) -> bool {
    bytes.len() == wanted.len() && bytes.starts_with(wanted)
}

/// Whether the run ended with this status, cut at these positions.
pub(crate) fn is_cut(answer: &Answer, wanted: u8, positions: &[u64]) -> bool {
    match answer {
        Answer::Ended { status, cuts, .. } => {
            *status == wanted && exit_code(answer) == wanted && cuts.positions() == positions
        }
        Answer::Refused(_) => false,
    }
}

/// Whether the run ended with this status and without a cut.
pub(crate) fn is_ended(answer: &Answer, wanted: u8) -> bool {
    is_cut(answer, wanted, &[])
}

/// Whether the run ended with one line, of so many instructions, so many calls and four zeros.
pub(crate) fn has_one_line(answer: &Answer, steps: u64, calls: u64) -> bool {
    let Answer::Ended { lines, .. } = answer else {
        return false;
    };
    match lines.lines() {
        [line] => {
            let hits = line.hits;
            line.steps == steps
                && line.calls == calls
                && hits.quick == 0
                && hits.registers == 0
                && hits.stack == 0
                && hits.whole == 0
        }
        _ => false,
    }
}

/// Whether there is no line.
pub(crate) fn has_no_line(answer: &Answer) -> bool {
    match answer {
        Answer::Ended { lines, .. } => lines.lines().is_empty(),
        Answer::Refused(_) => true,
    }
}

/// Whether it was refused so.
pub(crate) fn is_refused(answer: &Answer, wanted: Refusal) -> bool {
    match answer {
        Answer::Ended { .. } => false,
        Answer::Refused(refusal) => *refusal == wanted && exit_code(answer) == 125,
    }
}

/// What is answered: a status, or a refusal.
#[derive(Clone, Copy)]
pub(crate) enum Wanted {
    Status(u8),
    Refusal(Refusal),
}

/// Whether that is the answer.
pub(crate) fn is_wanted(answer: &Answer, wanted: Wanted) -> bool {
    match wanted {
        Wanted::Status(status) => is_ended(answer, status),
        Wanted::Refusal(refusal) => is_refused(answer, refusal),
    }
}
