// Runs by windows.
use elf_load::load;
use ins_views::Views;
use master_run::Limits;
use ordered_merge::Finished;
use rv_machine::Guest;
use sp_host::{FaultPlan, ListPacer, MemoryHost, Pacer};
use std::alloc::{AllocError, Global};
use std::test::Fail;
use std::thread::Threads;
use syscall_layer::RunFault;
use tool_law::{Tool, make_plan};
use window_run::run_windows;

// What bounds a run and makes its cuts due.
#[derive(Clone, Copy)]
pub struct Bounds {
    pub budget: u64,
    pub limit: u32,
    pub poll: u32,
    pub records: u32,
    pub frames: u32,
}

// The pacer is asked after each step, and the other rules are as far off as they can be.
pub const BOUNDS: Bounds = Bounds {
    budget: 1_000_000,
    limit: 8,
    poll: 1,
    records: 65_536,
    frames: 4_096,
};

// The limits, where each is in its range.
pub fn limits_of(bounds: &Bounds) -> Option<Limits> {
    let Bounds {
        budget,
        limit,
        poll,
        records,
        frames,
    } = *bounds;
    let steps = 1 <= budget && budget <= 1_099_511_627_776;
    let jobs = 1 <= limit && limit <= 32;
    let asks = 1 <= poll && poll <= 1_048_576;
    let calls = 1 <= records && records <= 65_536;
    let pages = 64 <= frames && frames <= 4_096;
    if steps && jobs && asks && calls && pages {
        return Some(Limits {
            budget,
            limit,
            poll,
            records,
            frames,
        });
    }
    None
}

// What a program meets.
#[derive(Clone, Copy)]
pub struct Outside {
    // how many zeros can be read
    pub input: usize,
    pub moments: &'static [u64],
    // which read of the input and which write to the standard output fails; 0 for none
    pub failing_input: u64,
    pub failing_out: u64,
    // whether a call moves only one byte
    pub single: bool,
}

// No input, no moments, and no failing call.
pub const NOTHING: Outside = Outside {
    input: 0,
    moments: &[],
    failing_input: 0,
    failing_out: 0,
    single: false,
};

// A host in memory with this outside.
pub fn host_of(alloc: Global, outside: &Outside) -> Result<MemoryHost, AllocError> {
    let most = if outside.single { 1 } else { 65_536 };
    let mut plan = FaultPlan::new(alloc, most, 65_536);
    plan.input = [outside.failing_input].to_vec(alloc)?;
    plan.out = [outside.failing_out].to_vec(alloc)?;
    let mut input = Vec::new(alloc);
    input.resize(outside.input, 0)?;
    let moments = outside.moments.to_vec(alloc)?;
    MemoryHost::new(alloc, Vec::new(alloc), input, moments, plan)
}

// A pacer with these answers.
pub fn pacer_of(alloc: Global, answers: &[bool]) -> Result<ListPacer, AllocError> {
    Ok(ListPacer::new(answers.to_vec(alloc)?))
}

// Runs a file by windows, with a tool.
pub fn run<T: Tool, P: Pacer + Send, R: Threads + Sync>(
    rt: &R,
    alloc: Global,
    tool: &T,
    file: &[u8],
    bounds: &Bounds,
    host: &mut MemoryHost,
    pacer: &mut P,
) -> Result<Result<Finished<T>, RunFault>, Fail> {
    let limits = limits_of(bounds).ok_or("no limits")?;
    let image = load(alloc, file).ok().ok_or("refused")?;
    let views = Views::new(alloc, &image)?;
    let plan = make_plan(alloc, &views, tool)?;
    let guest = Guest::load(alloc, &image, &[], limits.frames)
        .ok()
        .ok_or("no guest")?;
    Ok(run_windows(rt, alloc, &plan, &views, guest, &limits, tool, host, pacer))
}
