//! `ring_bench JOBS WORKERS SLOTS` hands so many empty jobs to so many workers by a ring with so many slots, and
//! says how many pieces came back. With 0 workers the lead claims the jobs itself. It is timed from outside, by
//! bench/ring.sh.
#![tactic(auto)]

ghost use Rattle.std.specs.Prelude.{◌≡◌, ◌+◌, ◌<◌, ◌≤◌, ◌^◌, All, length, IfSome};
ghost use Rattle.slice_ring.specs.Seats.{IsOf, IsIdle, IsFresh, slots_of};

use ring_workers::{retire_all, run_beside};
use slice_ring::{LeadSeat, Numbered, Ring, WorkSeat};
use std::alloc::{AllocError, Global};
use std::process::ExitCode;
use std::sync::Wait;
use std::thread::Threads;
use std::{env, thread};

/// The most jobs, and the most workers beside the lead.
const MOST_JOBS: u64 = 1_000_000_000;

const MOST_WORKERS: u64 = 16;

const MOST_SLOTS: u64 = 32;

/// A job or a piece that says its number and nothing else.
#[derive(Drop)]
struct Empty {
    number: u64,
}

impl Numbered for Empty {
    type Topic = ();

    ghost ticket = { λ e. record { number = e.number; tag = (0, 0); topic = tt } };

    fn number(&self) -> u64 {
        self.number
    }

    fn tag(&self) -> (u64, u64) {
        (0, 0)
    }
}

type EmptyRing = Ring<Empty, Empty>;

type EmptyLead = LeadSeat<Empty, Empty>;

type EmptySeat = WorkSeat<Empty, Empty>;

/// What the words ask for.
#[derive(Drop)]
struct Asked {
    jobs: u64,
    workers: u32,
    slots: u32,
}

fn number(word: Option<String>, least: u64, most: u64) -> Option<u64>
    ensures { IfSome result (λ n. (least ≤ n) × (n ≤ most)) }
{
    let found = word?.as_str().parse::<u64>().ok()?;
    if found < least || found > most {
        return None;
    }
    Some(found)
}

fn read_words(rt: &HostRuntime) -> Option<Asked>
    ensures { IfSome result (λ a. (a.jobs ≤ MOST_JOBS) × (a.workers ≤ MOST_WORKERS) × (1 ≤ a.slots)
        × (a.slots ≤ MOST_SLOTS)) }
{
    let mut words = env::args(rt).ok()?.skip(1);
    let jobs = number(words.next(), 0, MOST_JOBS)?;
    let workers = number(words.next(), 0, MOST_WORKERS)? as u32;
    let slots = number(words.next(), 1, MOST_SLOTS)? as u32;
    Some(Asked {
        jobs,
        workers,
        slots,
    })
}

fn answer(job: Empty) -> Empty
    ensures { result ≡ job }
{
    job
}

// Publishes the jobs and collects their pieces. Where `helps`, it claims a job itself where no piece is done. It
// closes the ring and gives how many pieces came.
fn lead_all<R: Wait>(
    rt: &R,
    ring: &EmptyRing,
    lead: &mut EmptyLead,
    mine: &mut EmptySeat,
    jobs: u64,
    helps: bool,
) -> u64
    requires jobs { jobs ≤ MOST_JOBS }
    requires lead { IsOf ring.now lead.old × IsFresh lead.old }
    requires mine { IsIdle ring.now mine.old }
    ensures lead { IsOf ring.now lead.new }
    ensures mine { IsIdle ring.now mine.new }
{
    let slots = u64::from(ring.slots());
    for _turn in rt.forever() {
        if lead.merged() >= jobs {
            break;
        }
        if lead.published() < jobs && lead.outstanding() < slots {
            let number = lead.published();
            ring.publish(lead, Empty { number });
        } else if ring.collect(lead).is_some() {} else if helps
            && let Some(job) = ring.claim(mine)
        {
            ring.deposit(mine, answer(job));
        } else {
            thread::yield_now();
        }
    }
    ring.close(lead);
    lead.merged()
}

fn lead_beside<R: Threads + Wait + Sync>(
    rt: &R,
    ring: &EmptyRing,
    lead: &mut EmptyLead,
    mine: &mut EmptySeat,
    jobs: u64,
    seats: &mut [EmptySeat],
) -> u64
    requires jobs { jobs ≤ MOST_JOBS }
    requires lead { IsOf ring.now lead.old × IsFresh lead.old }
    requires mine { IsIdle ring.now mine.old }
    requires seats { (0 < length seats.old) × All (IsIdle ring.now) seats.old }
    ensures lead { IsOf ring.now lead.new }
    ensures mine { IsIdle ring.now mine.new }
    ensures seats { All (IsIdle ring.now) seats.new }
{
    run_beside(
        rt,
        ring,
        &answer,
        &mut || -> u64
            requires { (jobs ≤ MOST_JOBS) × IsOf ring.now lead.now × IsFresh lead.now
                × IsIdle ring.now mine.now }
            ensures { IsOf ring.entry.now lead.exit.now × IsIdle ring.entry.now mine.exit.now }
        { lead_all(rt, ring, lead, mine, jobs, false) },
        seats,
    )
}

// How many pieces came back.
fn run<R: Threads + Wait + Sync>(rt: &R, alloc: Global, asked: &Asked) -> Result<u64, AllocError>
    requires { (asked.now.jobs ≤ MOST_JOBS) × (asked.now.workers ≤ MOST_WORKERS)
        × (1 ≤ asked.now.slots) × (asked.now.slots ≤ MOST_SLOTS) }
{
    let (ring, mut lead, mut seats) = EmptyRing::create(
        alloc,
        asked.slots,
        asked.workers + 1,
        &(),
    )?;
    let Some(mut mine) = seats.pop() else {
        unreachable!()
    };
    let merged = if seats.is_empty() {
        lead_all(rt, &ring, &mut lead, &mut mine, asked.jobs, true)
    } else {
        lead_beside(
            rt,
            &ring,
            &mut lead,
            &mut mine,
            asked.jobs,
            seats.as_mut_slice(),
        )
    };
    ring.retire(&mut lead, mine);
    retire_all(&ring, &mut lead, seats);
    Ok(merged)
}

fn main(rt: HostRuntime) -> ExitCode {
    let Some(asked) = read_words(&rt) else {
        let _ = eprintln!(rt; "ring_bench: the words are JOBS WORKERS SLOTS");
        return ExitCode::from(2);
    };
    let Ok(merged) = run(&rt, rt.alloc(), &asked) else {
        let _ = eprintln!(rt; "ring_bench: no memory");
        return ExitCode::from(2);
    };
    if println!(rt; "jobs {} merged {merged}", asked.jobs).is_err() {
        return ExitCode::from(2);
    }
    ExitCode::SUCCESS
}
