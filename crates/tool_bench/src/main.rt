//! Measures a serial run under a tool: `tool_bench TOOL FILE STEPS` runs FILE for at most STEPS steps, with no input, under icount,
//! bcount, mix, blocks, calls or cache, or as far as its first call under no tool with `bare`. Writes the processor time of the run to
//! the standard error, in microseconds; under `bare` also the steps that it made. Without a FILE nothing is done.
#![tactic(auto)]

ghost use Rattle.std.specs.Prelude.{◌≡◌, ◌≤◌, ◌^◌};

use cache_tool::DirectCache;
use elf_load::{Image, load};
use guest_model::platform::MOST_PAGES;
use ins_views::Views;
use rv_machine::Guest;
use serial_run::{MOST_BUDGET, run_serial};
use sp_host::{FaultPlan, MemoryHost};
use std::io;
use std::time::CpuClock;
use tool_calls::CallTrace;
use tool_counts::{BlockCount, BlockProfile, InsCount, OpMix};
use tool_law::{Tool, make_plan};

// Runs under a tool, and writes how long that took.
fn with_tool<T: Tool, R: Eprint + CpuClock + AllocGlobal>(
    rt: &R,
    tool: &T,
    image: &Image,
    steps: u64,
) -> io::Result<()>
    requires { steps ≤ MOST_BUDGET }
{
    let alloc = rt.alloc();
    let views = Views::new(alloc, image)?;
    let plan = make_plan(alloc, &views, tool)?;
    let Ok(guest) = Guest::load(alloc, image, &[], MOST_PAGES) else {
        return eprintln!(rt; "no guest");
    };
    let plain = FaultPlan::new(alloc, 1, 0);
    let (files, input) = (Vec::new(alloc), Vec::new(alloc));
    let mut host = MemoryHost::new(alloc, files, input, Vec::new(alloc), plain)?;
    let begun = rt.thread_cpu_time()?;
    let _spent = run_serial(alloc, &plan, &views, guest, steps, tool, &mut host);
    let spent = rt.thread_cpu_time()?.saturating_sub(begun).as_micros();
    eprintln!(rt; "{spent} us")
}

// Runs under no tool, as far as the first call.
fn bare<R: Eprint + CpuClock + AllocGlobal>(rt: &R, image: &Image, steps: u64) -> io::Result<()> {
    let Ok(mut guest) = Guest::load(rt.alloc(), image, &[], MOST_PAGES) else {
        return eprintln!(rt; "no guest");
    };
    let begun = rt.thread_cpu_time()?;
    let ran = guest.run(steps, MOST_PAGES);
    let spent = rt.thread_cpu_time()?.saturating_sub(begun).as_micros();
    let made = ran.completed;
    eprintln!(rt; "{spent} us {made} steps")
}

fn main(rt: HostRuntime) -> io::Result<()> {
    let mut words = std::env::args(&rt)?.skip(1);
    let (tool, file, steps) = (words.next(), words.next(), words.next());
    let Some(file) = file else {
        return Ok(());
    };
    let bytes = std::fs::read(&rt, &file)?;
    let steps: u64 = steps.as_deref().unwrap_or("").parse().unwrap_or(1000);
    let steps = steps.min(MOST_BUDGET);
    let Ok(image) = load(rt.alloc(), &bytes) else {
        return eprintln!(rt; "this is no program that can be loaded");
    };
    match tool.as_deref().unwrap_or("") {
        "icount" => with_tool(&rt, &InsCount, &image, steps),
        "bcount" => with_tool(&rt, &BlockCount, &image, steps),
        "mix" => with_tool(&rt, &OpMix, &image, steps),
        "blocks" => with_tool(&rt, &BlockProfile, &image, steps),
        "calls" => with_tool(&rt, &CallTrace, &image, steps),
        "cache" => with_tool(&rt, &DirectCache::default(), &image, steps),
        _ => bare(&rt, &image, steps),
    }
}
