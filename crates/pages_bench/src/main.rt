//! Times of the calls of `cow_pages` (`measure`), and of freezes and forks of whole memories and guests (`spaces`).
//! `hold forks N`, `hold written N` and `hold empty N` make N memories and hold them, so that their own memory can be
//! measured from outside. Without an argument each is made a few times, and nothing is printed.
#![tactic(auto)]

mod spaces;

ghost use Rattle.std.specs.Prelude.{◌≡◌, ◌<◌, ◌≤◌, ◌^◌};

use crate::spaces::{hold_empty, hold_forks, measure_guests, measure_spaces};
use cow_pages::{Pages, Shared};
use std::alloc::{AllocError, Global};
use std::io;
use std::time::{CpuClock, Duration};

/// How many pages are written before the times are taken, half of them low and half where maps stand.
const PAGES: u32 = 16_000;

/// The number of the i-th of these pages.
fn page_number(i: u32) -> u32
    ensures { result < 2 ^ 20 }
{
    let k = i % PAGES;
    if k < PAGES / 2 { 16 + k } else { 262_144 + k }
}

/// Writes a byte to each of `n` pages that are `apart` pages from one another.
fn write_pages(pages: &mut Pages, from: u32, n: u32, apart: u32)
    ensures { pages.new.origin ≡ pages.old.origin }
{
    for i in 0..n {
        let at = from.wrapping_add(i.wrapping_mul(apart));
        if pages.free() > 0 {
            pages.write(page_number(at), i % 4096, &[(at % 251) as u8 + 1]);
        }
    }
}

/// Reads four bytes at one place after another.
fn reads(pages: &Pages, times: u32) -> u64 {
    let mut sum = 0u64;
    for i in 0..times {
        let place = i.wrapping_mul(2_654_435_761) >> 10;
        if let Some(bytes) = pages.slice(16 + place / 4096 % 1024, place % 1024 * 4, 4) {
            sum = sum.wrapping_add(u64::from(bytes[0]));
        }
    }
    sum
}

/// Writes four bytes at one place after another of eight pages.
fn writes(pages: &mut Pages, times: u32) {
    for i in 0..times {
        let place = i.wrapping_mul(2_654_435_761) >> 10;
        if pages.free() > 0 {
            pages.write(
                16 + place / 4096 % 8,
                place % 1024 * 4,
                &[(i % 251) as u8, 1, 2, 3],
            );
        }
    }
}

/// Ten pages are written, and all are frozen.
fn freezes(pages: &mut Pages, times: u32, apart: u32) -> Result<u64, AllocError> {
    let mut sum = 0u64;
    for i in 0..times {
        write_pages(pages, i, 10, apart);
        let shared = pages.freeze()?;
        sum = sum.wrapping_add(u64::from(shared.read(16, 0)));
    }
    Ok(sum)
}

fn forks(alloc: Global, shared: &Shared, times: u32, written: u32) -> Result<u64, AllocError> {
    let mut sum = 0u64;
    for i in 0..times {
        let mut fork = Pages::fork(alloc, shared, 10)?;
        write_pages(&mut fork, i, written, 97);
        sum = sum.wrapping_add(u64::from(fork.read(16, 0)));
    }
    Ok(sum)
}

/// A fork that writes what went on writes is found to be the same.
fn compares(alloc: Global, pages: &mut Pages, times: u32) -> Result<u64, AllocError> {
    let mut same = 0u64;
    for i in 0..times {
        if compared(alloc, pages, i)? {
            same = same.wrapping_add(1);
        }
    }
    Ok(same)
}

fn compared(alloc: Global, pages: &mut Pages, i: u32) -> Result<bool, AllocError> {
    let base = pages.freeze()?;
    let mut fork = Pages::fork(alloc, &base, 10)?;
    write_pages(pages, i, 10, 97);
    write_pages(&mut fork, i, 10, 97);
    let end = pages.freeze()?;
    Ok(fork.same_as(&base, &end))
}

/// Prints what was done, how often, and the processor time since `from`.
fn told_since<R: Eprint + CpuClock>(
    rt: &R,
    is_told: bool,
    what: &str,
    times: u32,
    from: Duration,
    sum: u64,
) -> io::Result<()> {
    let spent = rt.thread_cpu_time()?.saturating_sub(from);
    if is_told {
        eprintln!(rt; "{what}: {times} times in {spent:?} ({sum})")?;
    }
    Ok(())
}

fn run<R: Eprint + CpuClock + AllocGlobal>(
    rt: &R,
    is_told: bool,
    times: u32,
    many: u32,
) -> io::Result<()> {
    let alloc = rt.alloc();
    let mut pages = Pages::empty(alloc, 16_384)?;
    write_pages(&mut pages, 0, PAGES, 1);
    let from = rt.thread_cpu_time()?;
    let sum = reads(&pages, many);
    told_since(rt, is_told, "read of a frame", many, from, sum)?;
    let first = pages.freeze()?;
    let from = rt.thread_cpu_time()?;
    let sum = reads(&pages, many);
    told_since(rt, is_told, "read of a shared page", many, from, sum)?;
    let from = rt.thread_cpu_time()?;
    writes(&mut pages, many);
    told_since(rt, is_told, "write", many, from, 0)?;
    drop(pages.freeze()?);
    let from = rt.thread_cpu_time()?;
    let sum = freezes(&mut pages, times, 1)?;
    told_since(
        rt,
        is_told,
        "ten neighbouring pages written and a freeze",
        times,
        from,
        sum,
    )?;
    let from = rt.thread_cpu_time()?;
    let sum = freezes(&mut pages, times, 1607)?;
    told_since(
        rt,
        is_told,
        "ten pages far apart written and a freeze",
        times,
        from,
        sum,
    )?;
    let from = rt.thread_cpu_time()?;
    let sum = forks(alloc, &first, times, 0)?;
    told_since(rt, is_told, "fork", times, from, sum)?;
    let from = rt.thread_cpu_time()?;
    let sum = forks(alloc, &first, times, 10)?;
    told_since(rt, is_told, "fork that writes ten pages", times, from, sum)?;
    let from = rt.thread_cpu_time()?;
    let sum = compares(alloc, &mut pages, times)?;
    told_since(
        rt,
        is_told,
        "two freezes, a fork, ten pages written on both sides, and same_as",
        times,
        from,
        sum,
    )?;
    Ok(())
}

/// Prints what was done, how often, and the mean of the processor time that it took.
fn told<R: Eprint>(
    rt: &R,
    is_told: bool,
    what: &str,
    times: u32,
    spent: Duration,
) -> io::Result<()> {
    if is_told {
        let mean = spent.as_nanos() / u128::from(times.max(1));
        eprintln!(rt; "{what}: {times} times, {mean} ns each")?;
    }
    Ok(())
}

/// Makes memories and holds them until all are made.
fn hold(alloc: Global, kind: &str, count: u32) -> Result<(), AllocError> {
    match kind {
        "forks" => hold_forks(alloc, count, 0),
        "written" => hold_forks(alloc, count, 10),
        _ => hold_empty(alloc, count),
    }
}

fn main(rt: HostRuntime) -> io::Result<()> {
    let mut words = std::env::args(&rt)?.skip(1);
    let (first, second, third) = (words.next(), words.next(), words.next());
    match first.as_deref() {
        Some("spaces") => {
            measure_spaces(&rt, true, 10_000)?;
            measure_guests(&rt, true, 10_000)
        }
        Some("hold") => {
            let kind = second.as_deref().unwrap_or("empty");
            let count = third.as_deref().unwrap_or("").parse().unwrap_or(0);
            Ok(hold(rt.alloc(), kind, count)?)
        }
        Some(_) => run(&rt, true, 10_000, 100_000_000),
        None => {
            run(&rt, false, 2, 100)?;
            measure_spaces(&rt, false, 2)?;
            measure_guests(&rt, false, 2)
        }
    }
}
