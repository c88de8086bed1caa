// The calls of a ring by one thread, in turns.
ghost use Rattle.std.specs.Prelude.{◌≡◌, ◌+◌, ◌<◌, ◌^◌, IfSome};
ghost use Rattle.slice_ring.specs.Seats.{IsOf, IsIdle, IsOpen, published_by, merged_by, slots_of};

use crate::squares::{Job, SquareLead, SquareSeat, Squares, answer};
use std::test::Fail;

// What was seen on the way of a job through a ring with one slot: the slot's word when it was ready, taken and
// done, and the piece.
#[derive(Drop)]
struct Way {
    ready: u64,
    taken: u64,
    done: u64,
    number: u64,
    value: u64,
}

// The next job goes to the first seat. None where it does not, the second seat gets one too, or the piece is there
// too soon or not at all.
fn way_of_job(
    ring: &Squares,
    lead: &mut SquareLead,
    first: &mut SquareSeat,
    second: &mut SquareSeat,
) -> Option<Way>
    requires lead { IsOf ring.now lead.old × IsOpen lead.old
        × (merged_by lead.old ≡ published_by lead.old) × (published_by lead.old < 2 ^ 16) }
    requires ring { 0 < slots_of ring.now }
    requires seats { IsIdle ring.now first.old × IsIdle ring.now second.old }
    ensures lead { IfSome result (λ _. IsOf ring.now lead.new × IsOpen lead.new
        × (merged_by lead.new ≡ published_by lead.new)
        × (published_by lead.new ≡ published_by lead.old + 1)) }
    ensures seats { IfSome result (λ _. IsIdle ring.now first.new × IsIdle ring.now second.new) }
{
    let number = lead.published();
    ring.publish(lead, Job { number });
    let ready = ring.word(0);
    let job = ring.claim(first)?;
    let taken = ring.word(0);
    if ring.claim(second).is_some() || ring.collect(lead).is_some() {
        return None;
    }
    let number = job.number;
    ring.deposit(first, answer(job));
    let done = ring.word(0);
    let piece = ring.collect(lead)?;
    let value = piece.value;
    Some(Way {
        ready,
        taken,
        done,
        number,
        value,
    })
}

#[test]
fn one_slot_and_two_workers(rt: HostRuntime) -> Result<(), Fail> {
    let (ring, mut lead, mut seats) = Squares::create(rt.alloc(), 1, 2, &())?;
    let mut second = seats.pop().ok_or("no second seat")?;
    let mut first = seats.pop().ok_or("no first seat")?;
    let way = way_of_job(&ring, &mut lead, &mut first, &mut second).ok_or("job 0 is lost")?;
    let next = way_of_job(&ring, &mut lead, &mut second, &mut first).ok_or("job 1 is lost")?;
    assert!(rt; way.ready == 1 && way.taken == 2 && way.done == 3);
    assert!(rt; way.number == 0 && way.value == 1);
    assert!(rt; next.ready == 5 && next.number == 1 && next.value == 2);
    Ok(())
}

#[test]
fn an_empty_ring(rt: HostRuntime) -> Result<(), Fail> {
    let (ring, mut lead, mut seats) = Squares::create(rt.alloc(), 2, 1, &())?;
    let mut seat = seats.pop().ok_or("no seat")?;
    assert!(rt; ring.claim(&mut seat).is_none());
    let before = ring.is_closed(&mut seat);
    ring.close(&mut lead);
    let after = ring.is_closed(&mut seat);
    ring.retire(&mut lead, seat);
    assert!(rt; !before && after && ring.word(0) == 0);
    assert!(rt; ring.slots() == 2 && lead.published() == 0 && lead.merged() == 0);
    Ok(())
}

#[test]
fn the_largest_ring(rt: HostRuntime) -> Result<(), Fail> {
    let (ring, mut lead, mut seats) = Squares::create(rt.alloc(), 32, 17, &())?;
    let workers = seats.len();
    let mut seat = seats.pop().ok_or("no seat")?;
    ring.publish(&mut lead, Job { number: 0 });
    ring.publish(&mut lead, Job { number: 1 });
    let first = ring.claim(&mut seat).ok_or("no job")?;
    ring.deposit(&mut seat, answer(first));
    let second = ring.claim(&mut seat).ok_or("no second job")?;
    let piece = ring.collect(&mut lead).ok_or("no piece")?;
    assert!(rt; ring.slots() == 32 && workers == 17 && ring.word(1) == 6);
    assert!(rt; second.number == 1 && piece.number == 0 && lead.outstanding() == 1);
    Ok(())
}
