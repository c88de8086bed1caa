// Workers in threads of their own, beside the lead.
ghost use Rattle.std.specs.Prelude.{◌≡◌, ◌+◌, ◌<◌, ◌≤◌, ◌^◌, All, length};
ghost use Rattle.slice_ring.specs.Seats.{IsOf, IsIdle, IsFresh, IsOver, published_by};

use crate::squares::{Job, SquareLead, SquareSeat, Squares, answer};
use ring_workers::{retire_all, run_beside};
use std::sync::Wait;
use std::test::Fail;
use std::thread;
use std::thread::Threads;

// What came of the jobs.
#[derive(Drop)]
struct Outcome {
    in_order: bool,
    sum: u64,
}

// Publishes so many jobs, collects their pieces, and closes the ring.
fn lead_all<R: Wait>(rt: &R, ring: &Squares, lead: &mut SquareLead, count: u64) -> Outcome
    requires count { count ≤ 2 ^ 16 }
    requires lead { IsOf ring.now lead.old × IsFresh lead.old }
    ensures { IsOf ring.now lead.new × IsOver lead.new × (published_by lead.new ≡ count) }
{
    let mut in_order = true;
    let mut sum = 0u64;
    for _turn in rt.forever() {
        if lead.merged() >= count {
            break;
        }
        if lead.published() < count && lead.outstanding() < u64::from(ring.slots()) {
            let number = lead.published();
            ring.publish(lead, Job { number });
            continue;
        }
        let merged = lead.merged();
        match ring.collect(lead) {
            Some(piece) => {
                in_order = in_order && piece.number == merged;
                sum = sum.wrapping_add(piece.value);
            }
            None => thread::yield_now(),
        }
    }
    ring.close(lead);
    Outcome { in_order, sum }
}

fn run_all<R: Threads + Wait + Sync>(
    rt: &R,
    ring: &Squares,
    lead: &mut SquareLead,
    seats: &mut [SquareSeat],
    count: u64,
) -> Outcome
    requires count { count ≤ 2 ^ 16 }
    requires lead { IsOf ring.now lead.old × IsFresh lead.old }
    requires seats { (0 < length seats.old) × All (IsIdle ring.now) seats.old }
    ensures lead { IsOf ring.now lead.new × IsOver lead.new × (published_by lead.new ≡ count) }
    ensures seats { All (IsIdle ring.now) seats.new }
{
    run_beside(
        rt,
        ring,
        &answer,
        &mut || -> Outcome
            requires { (count ≤ 2 ^ 16) × IsOf ring.now lead.now × IsFresh lead.now }
            ensures { IsOf ring.entry.now lead.exit.now × IsOver lead.exit.now
                × (published_by lead.exit.now ≡ count) }
        { lead_all(rt, ring, lead, count) },
        seats,
    )
}

#[test]
fn three_workers(rt: HostRuntime) -> Result<(), Fail> {
    let (ring, mut lead, mut seats) = Squares::create(rt.alloc(), 4, 3, &())?;
    let outcome = run_all(&rt, &ring, &mut lead, seats.as_mut_slice(), 1000);
    assert!(rt; outcome.in_order && outcome.sum == 332_834_500);
    assert!(rt; lead.published() == 1000 && lead.merged() == 1000);
    retire_all(&ring, &mut lead, seats);
    Ok(())
}

#[test]
fn one_slot_and_sixteen_workers(rt: HostRuntime) -> Result<(), Fail> {
    let (ring, mut lead, mut seats) = Squares::create(rt.alloc(), 1, 16, &())?;
    let outcome = run_all(&rt, &ring, &mut lead, seats.as_mut_slice(), 1000);
    assert!(rt; outcome.in_order && outcome.sum == 332_834_500);
    retire_all(&ring, &mut lead, seats);
    Ok(())
}
