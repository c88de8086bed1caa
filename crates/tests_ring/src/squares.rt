// Jobs, each of which is answered by its square and one.
ghost use Rattle.std.specs.Prelude.{◌≡◌};

use slice_ring::{LeadSeat, Numbered, Ring, WorkSeat};

#[derive(Drop)]
pub(crate) struct Job {
    pub(crate) number: u64,
}

#[derive(Drop)]
pub(crate) struct Square {
    pub(crate) number: u64,
    pub(crate) value: u64,
}

impl Numbered for Job {
    type Topic = ();

    ghost ticket = { λ j. record { number = j.number; tag = (j.number, 7); topic = tt } };

    fn number(&self) -> u64 {
        self.number
    }

    fn tag(&self) -> (u64, u64) {
        (self.number, 7)
    }
}

impl Numbered for Square {
    type Topic = ();

    ghost ticket = { λ s. record { number = s.number; tag = (s.number, 7); topic = tt } };

    fn number(&self) -> u64 {
        self.number
    }

    fn tag(&self) -> (u64, u64) {
        (self.number, 7)
    }
}

pub(crate) type Squares = Ring<Job, Square>;

pub(crate) type SquareLead = LeadSeat<Job, Square>;

pub(crate) type SquareSeat = WorkSeat<Job, Square>;

pub(crate) fn answer(job: Job) -> Square
    ensures { result.number ≡ job.number }
{
    let number = job.number;
    Square {
        number,
        value: number.wrapping_mul(number).wrapping_add(1),
    }
}
