// Freezes and forks of a guest's memory, and snapshots of a guest.
use crate::told;
use guest_mem::{FrozenSpace, Space};
use rv_machine::{Guest, Snapshot};
use sample_files::{EXIT_7, guest_of, one_segment};
use std::alloc::{AllocError, Global};
use std::io;
use std::time::{CpuClock, Duration};

/// How many pages are mapped and written before anything is measured, and where they start.
const PAGES: u32 = 16_000;

const MAP: u32 = 0x40000000;

/// How many pages are written between two freezes, and how many frames a fork has.
const FEW: u32 = 10;

fn put(space: &mut Space, at: u32, byte: u8) {
    if space.free() > 0 && space.writable(at, 1) {
        space.put(at, &[byte]);
    }
}

/// Writes a byte to each of `n` pages of the map that are `apart` pages from one another.
fn write_pages(space: &mut Space, from: u32, n: u32, apart: u32) {
    for i in 0..n {
        let page = from.wrapping_add(i.wrapping_mul(apart)) % PAGES;
        put(space, MAP + 4096 * page, (from % 251) as u8 + 1);
    }
}

/// A guest whose memory has 16,000 pages that are mapped and written.
fn written_guest(alloc: Global) -> Result<Guest, AllocError> {
    let file = one_segment(alloc, &EXIT_7)?;
    let Some(mut guest) = guest_of(alloc, &file, &[]) else {
        return Err(AllocError);
    };
    let _at = guest.space_mut().map(4096 * PAGES, 3, 0x22);
    write_pages(guest.space_mut(), 0, PAGES, 1);
    Ok(guest)
}

/// The time of freezes alone, before each of which a few pages are written.
fn freezes<R: CpuClock>(rt: &R, space: &mut Space, times: u32, apart: u32) -> io::Result<Duration> {
    let mut spent = Duration::ZERO;
    for i in 0..times {
        write_pages(space, i, FEW, apart);
        let from = rt.thread_cpu_time()?;
        let frozen = space.freeze()?;
        spent = spent.saturating_add(rt.thread_cpu_time()?.saturating_sub(from));
        drop(frozen);
    }
    Ok(spent)
}

/// The same of snapshots of a guest.
fn snapshots<R: CpuClock>(
    rt: &R,
    guest: &mut Guest,
    times: u32,
    apart: u32,
) -> io::Result<Duration> {
    let mut spent = Duration::ZERO;
    for i in 0..times {
        write_pages(guest.space_mut(), i, FEW, apart);
        let from = rt.thread_cpu_time()?;
        let snapshot = guest.snapshot()?;
        spent = spent.saturating_add(rt.thread_cpu_time()?.saturating_sub(from));
        drop(snapshot);
    }
    Ok(spent)
}

/// Makes forks one after another, each of which writes so many pages and ends.
fn forks(alloc: Global, from: &FrozenSpace, times: u32, written: u32) -> Result<(), AllocError> {
    for i in 0..times {
        let mut fork = Space::fork(alloc, from, FEW)?;
        write_pages(&mut fork, i, written, 97);
    }
    Ok(())
}

/// The same of guests.
fn guests(alloc: Global, from: &Snapshot, times: u32, written: u32) -> Result<(), AllocError> {
    for i in 0..times {
        let mut guest = Guest::from_snapshot(alloc, from, FEW)?;
        write_pages(guest.space_mut(), i, written, 97);
    }
    Ok(())
}

/// Measures freezes and forks of a memory.
pub fn measure_spaces<R: Eprint + CpuClock + AllocGlobal>(
    rt: &R,
    is_told: bool,
    times: u32,
) -> io::Result<()> {
    let mut guest = written_guest(rt.alloc())?;
    let space = guest.space_mut();
    let frozen = space.freeze()?;
    for apart in [1, 1607] {
        let spent = freezes(rt, space, times, apart)?;
        told(
            rt,
            is_told,
            "freeze of a memory, ten pages written before it",
            times,
            spent,
        )?;
    }
    for written in [0, FEW] {
        let from = rt.thread_cpu_time()?;
        forks(rt.alloc(), &frozen, times, written)?;
        let spent = rt.thread_cpu_time()?.saturating_sub(from);
        told(rt, is_told, "fork of a memory and its end", times, spent)?;
    }
    Ok(())
}

/// Measures snapshots of a guest and guests made from one.
pub fn measure_guests<R: Eprint + CpuClock + AllocGlobal>(
    rt: &R,
    is_told: bool,
    times: u32,
) -> io::Result<()> {
    let mut guest = written_guest(rt.alloc())?;
    let snapshot = guest.snapshot()?;
    for apart in [1, 1607] {
        let spent = snapshots(rt, &mut guest, times, apart)?;
        told(
            rt,
            is_told,
            "snapshot of a guest, ten pages written before it",
            times,
            spent,
        )?;
    }
    for written in [0, FEW] {
        let from = rt.thread_cpu_time()?;
        guests(rt.alloc(), &snapshot, times, written)?;
        let spent = rt.thread_cpu_time()?.saturating_sub(from);
        told(
            rt,
            is_told,
            "guest from a snapshot and its end",
            times,
            spent,
        )?;
    }
    Ok(())
}

/// Makes so many forks of one memory, of which each writes so many pages, and holds them all.
pub fn hold_forks(alloc: Global, count: u32, written: u32) -> Result<(), AllocError> {
    let mut guest = written_guest(alloc)?;
    let frozen = guest.space_mut().freeze()?;
    let mut held = Vec::new(alloc);
    for _i in 0..count {
        let mut fork = Space::fork(alloc, &frozen, FEW)?;
        write_pages(&mut fork, 0, written, 97);
        held.push(fork)?;
    }
    Ok(())
}

/// Makes so many memories without areas but the heap, with a frame for each page that can be
/// mapped, and holds them all.
pub fn hold_empty(alloc: Global, count: u32) -> Result<(), AllocError> {
    let mut held = Vec::new(alloc);
    for _i in 0..count {
        held.push(Space::empty(alloc, 0x20000, 16_384)?)?;
    }
    Ok(())
}
