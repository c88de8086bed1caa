// Pieces of runs of programs written by hand: their snapshots and their records.
ghost use Rattle.std.specs.Prelude.{◌≡◌, ◌≤◌, ◌^◌, IfOk};
ghost use Rattle.guest_mem.specs.Memory.{all_bytes};
ghost use Rattle.boundary_verify.specs.Job.{IsNear};

use boundary_verify::Boundary;
use call_record::Record;
use rv_machine::{Guest, Snapshot, Stepped};
use sample_files::{guest_of, two_segments};
use sp_host::{FaultPlan, MemoryHost};
use std::alloc::{AllocError, Global};
use std::test::Fail;
use syscall_layer::{Served, serve};

// li x5, 1; x5 += 1; exit with 7.
pub const ADD_TWICE: [u32; 5] = [0x00100293, 0x00128293, 0x05d00893, 0x00700513, 0x00000073];

// Counts to 6 in the word at 0x20000, and exits with 7. At the head of the loop, positions 2, 9, 16, 23, 30 and 37, all
// registers are the same.
pub const COUNT_TO_SIX: [u32; 12] = [
    0x00020337, 0x00600393, 0x00032283, 0x00128293, 0x00532023, 0x407282b3, 0x00028663, 0x00000293,
    0xfe9ff06f, 0x05d00893, 0x00700513, 0x00000073,
];

// getpid and clock_gettime64 in turn, until a second is stored at 0x20000, and exit with 7. At positions 9, 17 and 25 the
// whole state is the same.
pub const WAIT_A_SECOND: [u32; 12] = [
    0x00020337, 0x0ac00893, 0x00000073, 0x19300893, 0x00100513, 0x00030593, 0x00000073, 0x00032283,
    0xfe0282e3, 0x05d00893, 0x00700513, 0x00000073,
];

// Loads four bytes across the end of the data.
pub const LOAD_PAST_DATA: [u32; 2] = [0x000222b7, 0xffe2a303];

// Reserves the word at 0x20000 by `lr.w`, stores there by `sc.w`, adds an instruction where that was done, and exits with 7, in 8
// steps.
pub const STORE_RESERVED: [u32; 8] = [
    0x00020337, 0x100322af, 0x185323af, 0x00039463, 0x00100293, 0x05d00893, 0x00700513, 0x00000073,
];

// The same with a getpid between, behind which nothing is reserved, in 9 steps.
pub const CALL_BETWEEN: [u32; 10] = [
    0x00020337, 0x100322af, 0x0ac00893, 0x00000073, 0x185323af, 0x00039463, 0x00100293, 0x05d00893,
    0x00700513, 0x00000073,
];

// Reserves the word at 0x20000, and stores zeros there by `sc.w` again and again, in a loop of two steps. At positions 3, 5 and so
// on all is the same but the reservation, which is there at the first alone.
pub const RESERVED_ONCE: [u32; 5] = [0x00020337, 0x1003202f, 0x0040006f, 0x1803202f, 0xffdff06f];

// A piece of a run: it begins behind so many steps and calls, and has so many steps, or lasts to the end of the run.
#[derive(Clone, Copy)]
pub struct Cut {
    pub code: &'static [u32],
    pub from: u64,
    pub calls: u32,
    pub steps: Option<u64>,
    // by how much the record position of its end is given too high
    pub ahead: u32,
}

// The first 23 steps of the counter.
pub const FOUR_TURNS: Cut = Cut {
    code: &COUNT_TO_SIX,
    from: 0,
    calls: 0,
    steps: Some(23),
    ahead: 0,
};

// The first 25 steps of the program that waits.
pub const THREE_TURNS: Cut = Cut {
    code: &WAIT_A_SECOND,
    from: 0,
    calls: 0,
    steps: Some(25),
    ahead: 0,
};

// What a job needs of a piece.
#[derive(Drop)]
pub struct Parts {
    pub start: Snapshot,
    pub position: u64,
    pub records: Vec<Record>,
    pub end: Boundary,
}

// A host whose clock shows a second at the fourth look.
fn host(alloc: Global) -> Result<MemoryHost, AllocError> {
    let moments = [0, 0, 0, 1_000_000_000].to_vec(alloc)?;
    let plan = FaultPlan::new(alloc, 65_536, 65_536);
    MemoryHost::new(alloc, Vec::new(alloc), Vec::new(alloc), moments, plan)
}

// Makes one step, and keeps the record of a call. False where it ends the run.
fn advance_one(
    alloc: Global,
    guest: &mut Guest,
    host: &mut MemoryHost,
    records: &mut Vec<Record>,
) -> Result<bool, AllocError>
    requires { guest.old.frames.count ≡ 16384 }
    ensures frames { guest.new.frames.count ≡ 16384 }
    ensures origin { guest.new.origin ≡ guest.old.origin }
{
    match guest.step() {
        Stepped::Next => Ok(true),
        Stepped::Call => {
            let Ok(Served::Went(record)) = serve(alloc, guest, host) else {
                return Ok(false);
            };
            records.push(record)?;
            Ok(true)
        }
        Stepped::Fault(_) => Ok(false),
    }
}

// Makes so many steps, or those up to the end of the run.
fn advance(
    alloc: Global,
    guest: &mut Guest,
    host: &mut MemoryHost,
    records: &mut Vec<Record>,
    steps: u64,
) -> Result<(), AllocError>
    requires { guest.old.frames.count ≡ 16384 }
    ensures frames { guest.new.frames.count ≡ 16384 }
    ensures origin { guest.new.origin ≡ guest.old.origin }
{
    for _i in 0..steps {
        if !advance_one(alloc, guest, host, records)? {
            return Ok(());
        }
    }
    Ok(())
}

// The end of a piece at which the guest stands, behind so many calls.
fn end_of(guest: &mut Guest, base: &Snapshot, cut: &Cut, calls: u64) -> Result<Boundary, AllocError>
    requires base { guest.old.origin ≡ all_bytes base.now.machine.space }
    requires few { calls ≤ 2 ^ 63 }
    ensures { IfOk result (λ end. IsNear base.now end) }
{
    if cut.steps.is_none() {
        return Ok(Boundary::End);
    }
    let state = guest.snapshot()?;
    Ok(Boundary::At {
        state,
        position: calls + u64::from(cut.ahead),
    })
}

// The parts of a piece.
pub fn parts_of(alloc: Global, cut: &Cut) -> Result<Parts, Fail>
    ensures { IfOk result (λ parts. (parts.position ≤ 2 ^ 40) × IsNear parts.start parts.end) }
{
    let file = two_segments(alloc, cut.code)?;
    let mut guest = guest_of(alloc, &file, &[]).ok_or("no guest")?;
    let mut host = host(alloc)?;
    let mut earlier = Vec::new(alloc);
    advance(alloc, &mut guest, &mut host, &mut earlier, cut.from)?;
    let start = guest.snapshot()?;
    let mut records = Vec::new(alloc);
    let steps = cut.steps.unwrap_or(1000);
    advance(alloc, &mut guest, &mut host, &mut records, steps)?;
    let position = cut.calls as u64;
    let calls = position + records.len().min(1000) as u64;
    let end = end_of(&mut guest, &start, cut, calls)?;
    Ok(Parts {
        start,
        position,
        records,
        end,
    })
}
