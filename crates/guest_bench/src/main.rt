//! Runs a program without a tool, to measure how fast a guest goes: `guest_bench run FILE` by stretches of steps,
//! `guest_bench step FILE` step by step. Writes `icount N` to the standard error, where N is the number of steps. And `guest_bench
//! master FILE` runs it as the master of a run by windows does, with all defaults, and drops the jobs that it makes: that writes
//! `cuts N`. Without words nothing is done.
#![tactic(auto)]

ghost use Rattle.std.specs.Prelude.{◌≡◌, ◌≤◌, IfSome};
ghost use Rattle.guest_mem.specs.Frames.{free_frames};
ghost use Rattle.guest_model.specs.Effect.{Effect, effect_of};

use elf_load::load;
use guest_model::platform::MOST_PAGES;
use master_run::{Limits, Master, Turn};
use rv_machine::{Guest, Stepped};
use sp_host::{Host, Pacer, Port, StdHost, TimePacer, read_whole, write_whole};
use std::alloc::{AllocError, Global};
use std::process::ExitCode;
use syscall_layer::{Served, serve};

/// The steps that a stretch has at most.
const STRETCH: u64 = 1_000_000;

/// The steps, or stretches, that a run has at most.
const MOST: u64 = 1_000_000_000_000;

/// Answers the call at which the guest stands, and whether the program goes on.
fn goes_on<H: Host>(alloc: Global, host: &mut H, guest: &mut Guest) -> bool
    requires call { effect_of guest.old.machine ≡ Effect.Call }
    requires frames { MOST_PAGES ≤ guest.old.frames.count }
    ensures { guest.new.frames.count ≡ guest.old.frames.count }
{
    match serve(alloc, guest, host) {
        Ok(Served::Went(_)) => true,
        Ok(Served::Exit(_)) => false,
        Err(_) => false,
    }
}

/// Runs the guest by stretches, and answers how many steps it made.
fn by_stretches<H: Host>(alloc: Global, host: &mut H, guest: &mut Guest) -> u64
    requires { MOST_PAGES ≤ guest.old.frames.count }
{
    let mut steps = 0u64;
    for _stretch in 0..MOST {
        let ran = guest.run(STRETCH, MOST_PAGES);
        steps = steps.wrapping_add(ran.completed);
        match ran.last {
            Stepped::Next => {}
            Stepped::Call => {
                steps = steps.wrapping_add(1);
                if !goes_on(alloc, host, guest) {
                    return steps;
                }
            }
            Stepped::Fault(_) => return steps,
        }
    }
    steps
}

/// Runs the guest step by step, and answers how many it made.
fn by_steps<H: Host>(alloc: Global, host: &mut H, guest: &mut Guest) -> u64
    requires { MOST_PAGES ≤ guest.old.frames.count }
{
    for steps in 0..MOST {
        match guest.step() {
            Stepped::Next => {}
            Stepped::Call => {
                if !goes_on(alloc, host, guest) {
                    return steps + 1;
                }
            }
            Stepped::Fault(_) => return steps,
        }
    }
    MOST
}

/// What bounds the run of a master where nothing else is asked for, but that it may make more steps.
const USUAL: Limits = Limits {
    budget: 1_099_511_627_776,
    limit: 8,
    poll: 64,
    records: 1_024,
    frames: 4_096,
};

/// Runs the guest as a master, and answers how often the run was cut.
fn by_master<H: Host, P: Pacer>(alloc: Global, host: &mut H, pacer: &mut P, guest: Guest) -> usize
    requires { guest.frames ≡ free_frames 4096 }
{
    let Ok(mut master) = Master::launch(alloc, guest, &USUAL) else {
        return 0;
    };
    for _job in 0..MOST {
        match master.next_job(host, pacer) {
            Ok(Turn::Job(_)) => {}
            Ok(Turn::Last(_, _)) => return master.cuts().len(),
            Err(_) => return 0,
        }
    }
    0
}

/// The guest of a program file, with so many frames.
fn guest_of<H: Host>(alloc: Global, host: &mut H, file: &str, frames: u32) -> Option<Guest>
    ensures { IfSome result (λ guest. guest.frames ≡ free_frames frames) }
{
    let bytes = read_whole(alloc, host, file).ok()?;
    let image = load(alloc, &bytes).ok()?;
    Guest::load(alloc, &image, &[], frames).ok()
}

/// Runs a file as a master does, and writes how often the run was cut.
fn measure_master<H: Host, P: Pacer>(
    alloc: Global,
    host: &mut H,
    pacer: &mut P,
    file: &str,
) -> Result<(), AllocError> {
    let Some(guest) = guest_of(alloc, host, file, 4_096) else {
        return Ok(());
    };
    let cuts = by_master(alloc, host, pacer, guest);
    let line = format!(in alloc; "cuts {cuts}\n")?;
    let _written = write_whole(host, Port::Report, line.as_bytes());
    Ok(())
}

/// Runs a file so, and writes how many steps were made.
fn measure<H: Host>(alloc: Global, host: &mut H, way: &str, file: &str) -> Result<(), AllocError> {
    let Some(mut guest) = guest_of(alloc, host, file, MOST_PAGES) else {
        return Ok(());
    };
    let steps = match way {
        "run" => by_stretches(alloc, host, &mut guest),
        _ => by_steps(alloc, host, &mut guest),
    };
    let line = format!(in alloc; "icount {steps}\n")?;
    let _written = write_whole(host, Port::Report, line.as_bytes());
    Ok(())
}

fn main(rt: HostRuntime) -> ExitCode {
    let alloc = rt.alloc();
    let Ok(words) = std::env::args(&rt) else {
        return ExitCode::FAILURE;
    };
    let mut host = StdHost::new(rt);
    let mut words = words.skip(1);
    if let (Some(way), Some(file)) = (words.next(), words.next()) {
        let mut pacer = TimePacer::new(rt);
        pacer.period(50);
        let _measured = match way.as_str() {
            "master" => measure_master(alloc, &mut host, &mut pacer, &file),
            _ => measure(alloc, &mut host, &way, &file),
        };
    }
    ExitCode::SUCCESS
}
