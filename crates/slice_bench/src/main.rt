//! Measures a slice beside the serial run: `slice_bench FILE FROM STEPS` runs a program for FROM steps, and then the next STEPS
//! of them, among which no call may be, both ways under the tool that counts instructions. Prints the processor time of each
//! in microseconds to the standard error. Without words nothing is done.
#![tactic(auto)]

ghost use Rattle.std.specs.Prelude.{◌≡◌, ◌≤◌, ◌^◌, IfSome};
ghost use Rattle.guest_mem.specs.Memory.{all_bytes};
ghost use Rattle.boundary_verify.specs.Job.{IsNear};

use boundary_verify::{Boundary, Job};
use elf_load::{Image, load};
use guest_model::platform::MOST_PAGES;
use ins_views::Views;
use insert_points::Plan;
use rv_machine::{Guest, Snapshot, Stepped};
use serial_run::run_serial;
use slice_runner::{MOST_STEPS, checked_job, open_slice, run_slice};
use sp_host::{FaultPlan, MemoryHost};
use std::alloc::{AllocError, Global};
use std::io;
use std::time::{CpuClock, Duration};
use tool_counts::InsCount;
use tool_law::make_plan;

/// A part of a run without calls: its start, and where it ends.
#[derive(Drop)]
struct Stretch {
    start: Snapshot,
    end: Boundary,
}

/// Makes so many steps. False where it comes to a call or a fault before.
fn advance(guest: &mut Guest, steps: u64) -> bool
    requires { guest.old.frames.count ≡ 16384 }
    ensures frames { guest.new.frames.count ≡ 16384 }
    ensures origin { guest.new.origin ≡ guest.old.origin }
{
    for _step in 0..steps {
        match guest.step() {
            Stepped::Next => {}
            Stepped::Call => return false,
            Stepped::Fault(_) => return false,
        }
    }
    true
}

/// The boundary at which a guest stands that was made from `base`.
fn end_of(guest: &mut Guest, base: &Snapshot) -> Option<Boundary>
    requires { guest.old.origin ≡ all_bytes base.now.machine.space }
    ensures { IfSome result (λ end. IsNear base.now end) }
{
    let state = guest.snapshot().ok()?;
    Some(Boundary::At { state, position: 0 })
}

/// The stretch of so many steps behind the first ones. None where calls or faults are among them, or memory is lacking.
fn stretch_of(alloc: Global, image: &Image, from: u64, steps: u64) -> Option<Stretch>
    ensures { IfSome result (λ stretch. IsNear stretch.start stretch.end) }
{
    let mut guest = Guest::load(alloc, image, &[], MOST_PAGES).ok()?;
    if !advance(&mut guest, from) {
        return None;
    }
    let start = guest.snapshot().ok()?;
    if !advance(&mut guest, steps) {
        return None;
    }
    let end = end_of(&mut guest, &start)?;
    Some(Stretch { start, end })
}

/// The job of a stretch, which may write all pages.
fn job_of(alloc: Global, stretch: Stretch, steps: u64) -> Option<Job>
    requires steps { steps ≤ 2 ^ 40 }
    requires near { IsNear stretch.start stretch.end }
{
    let Stretch { start, end } = stretch;
    checked_job(alloc, 0, start, 0, Vec::new(alloc), end, MOST_PAGES, steps).ok()
}

/// The time of the slice, and how many steps it has.
fn time_of_slice<R: CpuClock + AllocGlobal>(
    rt: &R,
    plan: &Plan,
    job: Job,
) -> io::Result<(Duration, u64)> {
    let from = rt.thread_cpu_time()?;
    let slice = open_slice(rt.alloc(), plan, job, &InsCount)?;
    let piece = run_slice(plan, &InsCount, slice)?;
    let spent = rt.thread_cpu_time()?.saturating_sub(from);
    Ok((spent, piece.steps))
}

/// Prints how long the slice and the serial run over its steps took.
fn measure<R: Eprint + CpuClock + AllocGlobal>(
    rt: &R,
    bytes: &[u8],
    from: u64,
    steps: u64,
) -> io::Result<()>
    requires { steps ≤ 2 ^ 40 }
{
    let alloc = rt.alloc();
    let Ok(image) = load(alloc, bytes) else {
        return eprintln!(rt; "this is no program that can be loaded");
    };
    let Some(stretch) = stretch_of(alloc, &image, from, steps) else {
        return eprintln!(rt; "a call or a fault is among these steps");
    };
    let views = Views::new(alloc, &image)?;
    let plan = make_plan(alloc, &views, &InsCount)?;
    let guest = Guest::from_snapshot(alloc, &stretch.start, MOST_PAGES)?;
    let plain = FaultPlan::new(alloc, 1, 0);
    let (files, input) = (Vec::new(alloc), Vec::new(alloc));
    let mut host = MemoryHost::new(alloc, files, input, Vec::new(alloc), plain)?;
    let begun = rt.thread_cpu_time()?;
    let _spent = run_serial(alloc, &plan, &views, guest, steps, &InsCount, &mut host);
    let serial = rt.thread_cpu_time()?.saturating_sub(begun);
    let Some(job) = job_of(alloc, stretch, steps) else {
        return eprintln!(rt; "no memory for the job");
    };
    let (slice, found) = time_of_slice(rt, &plan, job)?;
    let (serial, slice) = (serial.as_micros(), slice.as_micros());
    eprintln!(rt; "serial {serial} us, slice {slice} us of {found} steps")
}

fn main(rt: HostRuntime) -> io::Result<()> {
    let mut words = std::env::args(&rt)?.skip(1);
    let (file, from, steps) = (words.next(), words.next(), words.next());
    let Some(file) = file else {
        return Ok(());
    };
    let bytes = std::fs::read(&rt, &file)?;
    let from = from.as_deref().unwrap_or("").parse().unwrap_or(0);
    let steps: u64 = steps.as_deref().unwrap_or("").parse().unwrap_or(1000);
    measure(&rt, &bytes, from, steps.min(MOST_STEPS))
}
