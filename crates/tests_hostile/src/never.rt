// The first job of a run that never ends: its slice meets the state at the end of the job after one step.
ghost use Rattle.std.specs.Prelude.{◌≡◌, IfOk};
ghost use Rattle.guest_mem.specs.Frames.{free_frames};

use boundary_verify::Job;
use elf_load::load;
use hostile_rows::{Program, TURNS_FOR_EVER, file_of, host_of};
use ins_views::Views;
use master_run::{Limits, Master, Turn};
use rv_machine::Guest;
use slice_runner::{open_slice, run_slice};
use sp_host::EveryPacer;
use std::alloc::Global;
use std::test::Fail;
use tool_counts::InsCount;
use tool_law::{Piece, make_plan};

const LIMITS: Limits = Limits {
    budget: 100,
    limit: 8,
    poll: 5,
    records: 1_024,
    frames: 4_096,
};

// The jump to itself, with a frame for each page that a slice may write.
fn guest_of(alloc: Global, file: &[u8]) -> Result<Guest, Fail>
    ensures { IfOk result (λ guest. guest.frames ≡ free_frames 4096) }
{
    let image = load(alloc, file).ok().ok_or("refused")?;
    match Guest::load(alloc, &image, &[], 4_096) {
        Ok(guest) => Ok(guest),
        Err(_) => Err("no guest")?,
    }
}

// The first job, and how many cuts there are then, and where the first is.
fn first_job(alloc: Global, guest: Guest) -> Result<(Job, u64), Fail>
    requires { guest.frames ≡ free_frames 4096 }
{
    let mut master = Master::launch(alloc, guest, &LIMITS)?;
    let mut host = host_of(alloc, &TURNS_FOR_EVER)?;
    let mut pacer = EveryPacer::new(1);
    let turn = master.next_job(&mut host, &mut pacer).ok().ok_or("no job")?;
    match (turn, master.cuts()) {
        (Turn::Job(job), [cut]) => Ok((job, *cut)),
        _ => Err("another turn")?,
    }
}

// Its piece.
fn piece_of(alloc: Global, file: &[u8], job: Job) -> Result<Piece<InsCount>, Fail> {
    let image = load(alloc, file).ok().ok_or("refused")?;
    let views = Views::new(alloc, &image)?;
    let plan = make_plan(alloc, &views, &InsCount)?;
    let slice = open_slice(alloc, &plan, job, &InsCount)?;
    Ok(run_slice(&plan, &InsCount, slice)?)
}

#[test]
fn a_slice_stops_early(rt: HostRuntime) -> Result<(), Fail> {
    let alloc = rt.alloc();
    let file = file_of(alloc, Program::TurnForEver)?;
    let (job, cut) = first_job(alloc, guest_of(alloc, &file)?)?;
    assert!(rt; cut == 5 && job.index == 0);
    let piece = piece_of(alloc, &file, job)?;
    let hits = piece.hits;
    assert!(rt; piece.steps == 1 && piece.local == 1 && piece.calls == 0);
    assert!(rt; hits.quick == 1 && hits.registers == 1 && hits.stack == 1 && hits.whole == 1);
    Ok(())
}
