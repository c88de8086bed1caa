//! Workers at a ring, each in a thread of its own, beside its lead.
#![tactic(auto)]

ghost use Rattle.std.specs.Prelude.{◌≡◌, ◌+◌, ◌<◌, All, length};
ghost use Rattle.slice_ring.specs.Seats.{with_view, IsOf, IsIdle};
ghost use Rattle.ring_workers.specs.Answers.{Answers, HasSeenClose, IsSameBut};

use crossbeam_utils::Backoff;
use slice_ring::{LeadSeat, Numbered, Ring, WorkSeat};
use std::sync::Wait;
use std::thread::{Parker, Threads, for_each_mut, join_mut};
use std::time::Duration;

/// How long a worker sleeps that has found nothing for some turns, in microseconds.
const NAP: u64 = 200;

// Lets other threads run: it spins and yields at first, and sleeps where that went on for some turns.
fn back_off<R: Wait>(rt: &R, backoff: &Backoff, parker: &Parker) {
    if backoff.is_completed() {
        parker.park_timeout(rt, Duration::from_micros(NAP));
    } else {
        backoff.snooze();
    }
}

/// Answers jobs until the ring is closed. It returns if it is closed. While it finds none it backs off, so that it takes
/// little of the processors' time.
pub fn work<
    J: Numbered + Send + Drop,
    P: Numbered<Topic = J::Topic> + Send + Drop,
    W: Fn(J) -> P,
    R: Wait,
>(rt: &R, ring: &Ring<J, P>, seat: &mut WorkSeat<J, P>, answer: &W)
    requires seat { IsIdle ring.now seat.old }
    requires answers { Answers J.ticket P.ticket ring.now (W.pre answer.now) (W.post answer.now) }
    ensures idle { IsIdle ring.now seat.new }
    ensures closed { HasSeenClose seat.new }
{
    let backoff = Backoff::new();
    let parker = Parker::new();
    for _turn in rt.forever() {
        match ring.claim(seat) {
            Some(job) => {
                ring.deposit(seat, answer(job));
                backoff.reset();
            }
            None => {
                if ring.is_closed(seat) {
                    break;
                }
                back_off(rt, &backoff, &parker);
            }
        }
    }
}

/// Each seat answers jobs in a thread of its own, until the ring is closed.
pub fn work_all<
    J: Numbered + Send + Drop,
    P: Numbered<Topic = J::Topic> + Send + Drop,
    W: Fn(J) -> P + Sync,
    R: Threads + Wait + Sync,
>(rt: &R, ring: &Ring<J, P>, answer: &W, seats: &mut [WorkSeat<J, P>])
    requires some { 0 < length seats.old }
    requires idle { All (IsIdle ring.now) seats.old }
    requires answers { Answers J.ticket P.ticket ring.now (W.pre answer.now) (W.post answer.now) }
    ensures idle { All (IsIdle ring.now) seats.new }
    ensures closed { All HasSeenClose seats.new }
{
    let threads = seats.len();
    for_each_mut(
        rt,
        seats,
        threads,
        &|_, seat: &mut WorkSeat<J, P>|
            requires { IsIdle ring.now seat.now
                × Answers J.ticket P.ticket ring.now (W.pre answer.now) (W.post answer.now) }
            ensures { IsIdle ring.entry.now seat.exit.now × HasSeenClose seat.exit.now }
        { work(rt, ring, seat, answer) },
    );
}

/// Calls the lead's part once, while each seat answers jobs in a thread of its own. The lead's part is to close the
/// ring: the workers wait for that, and this call for them. A thread that cannot be started does its work after the lead's part,
/// when the ring is closed.
pub fn run_beside<
    'a,
    'b,
    J: Numbered + Send + Drop,
    P: Numbered<Topic = J::Topic> + Send + Drop,
    W: Fn(J) -> P + Sync,
    L: FnMut() -> X,
    X,
    R: Threads + Wait + Sync,
>(
    rt: &'a R,
    ring: &'a Ring<J, P>,
    answer: &'a W,
    lead: &'b mut L,
    seats: &'b mut [WorkSeat<J, P>],
) -> X
    requires some { 0 < length seats.old }
    requires idle { All (IsIdle ring.now) seats.old }
    requires answers { Answers J.ticket P.ticket ring.now (W.pre answer.now) (W.post answer.now) }
    requires lead { L.pre lead.old }
    ensures idle { All (IsIdle ring.now) seats.new }
    ensures closed { All HasSeenClose seats.new }
    ensures lead { L.step lead.old result lead.new }
{
    join_mut(
        rt,
        &mut ||
            requires { (0 < length seats.now) × All (IsIdle ring.now) seats.now
                × Answers J.ticket P.ticket ring.now (W.pre answer.now) (W.post answer.now) }
            ensures { All (IsIdle ring.entry.now) seats.exit.now × All HasSeenClose seats.exit.now }
        { work_all(rt, ring, answer, seats) },
        lead,
    )
    .1
}

/// Takes back the seats of the workers, which hold no job.
pub fn retire_all<J: Numbered + Send + Drop, P: Numbered<Topic = J::Topic> + Send + Drop>(
    ring: &Ring<J, P>,
    lead: &mut LeadSeat<J, P>,
    seats: Vec<WorkSeat<J, P>>,
)
    requires lead { IsOf ring.now lead.old }
    requires seats { All (IsIdle ring.now) seats.items }
    ensures { IsSameBut (length seats.items) lead.old lead.new }
{
    for seat in seats {
        ring.retire(lead, seat);
    }
}
