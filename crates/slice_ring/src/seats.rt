// The seats of a ring.
ghost use Rattle.std.specs.Prelude.{◌≡◌, ◌+◌, ◌≤◌};
ghost use Rattle.slice_ring.specs.Seats.{slots_of, published_by, merged_by};

use crate::table::TableSeat;
use crate::views::Numbered;
use std::marker::Model;

/// A worker's seat. It has no bytes, and can be moved to another thread. Contracts see it as a `SeatView`. The slot of the job
/// that a seat holds stays taken until the seat deposits the piece: where the seat is dropped first, that slice is never
/// done, and the lead waits for it in vain.
#[derive(Drop)]
pub struct WorkSeat<J: Numbered + Send + Drop, R: Numbered<Topic = J::Topic> + Send + Drop> {
    pub(crate) seat: TableSeat<J, R>,
}

impl<J: Numbered + Send + Drop, R: Numbered<Topic = J::Topic> + Send + Drop> Model
    for WorkSeat<J, R> {
    ghost use Rattle.slice_ring.specs.Seats.{SeatView, IsWorking};

    ghost Value = { SeatView J.Topic };

    ghost view = { λ w. record { table = w.seat.table_id; place = w.seat.id; view = w.seat.me.0 } };

    ghost invariant = { λ w. IsWorking w.seat.table_id.slots w.seat.me };
}

/// The lead's seat, which counts what it published and merged. Contracts see it as a `SeatView`. Where it is dropped before it
/// closed the ring, the ring stays open, and workers look for jobs in vain.
#[derive(Drop)]
pub struct LeadSeat<J: Numbered + Send + Drop, R: Numbered<Topic = J::Topic> + Send + Drop> {
    pub(crate) seat: TableSeat<J, R>,
    pub(crate) published: u64,
    pub(crate) merged: u64,
}

impl<J: Numbered + Send + Drop, R: Numbered<Topic = J::Topic> + Send + Drop> Model
    for LeadSeat<J, R> {
    ghost use Rattle.std.specs.Prelude.{◌≡◌, ◌+◌, ◌^◌, ◌≤◌, length};
    ghost use Rattle.slice_ring.specs.Seats.{SeatView, IsLeading};

    ghost Value = { SeatView J.Topic };

    ghost view = { λ l. record { table = l.seat.table_id; place = l.seat.id; view = l.seat.me.0 } };

    ghost invariant = { λ l. IsLeading l.seat.table_id.slots l.seat.me
        × (l.published ≡ length l.seat.me.0.lead.tags) × (l.merged ≡ l.seat.me.0.lead.merged)
        × (l.merged ≤ l.published) × (l.published ≤ l.merged + l.seat.table_id.slots)
        × (l.published ≤ 2 ^ 62) };
}

impl<J: Numbered + Send + Drop, R: Numbered<Topic = J::Topic> + Send + Drop> LeadSeat<J, R> {
    /// How many jobs were published.
    pub fn published(&self) -> u64
        ensures { result ≡ published_by self.now }
    {
        self.published
    }

    /// How many pieces were merged: those of the jobs below this number.
    pub fn merged(&self) -> u64
        ensures { result ≡ merged_by self.now }
    {
        self.merged
    }

    /// How many jobs are outstanding: published, and not merged yet.
    pub fn outstanding(&self) -> u64
        ensures count { published_by self.now ≡ merged_by self.now + result }
        ensures few { result ≤ self.now.table.slots }
    {
        self.published - self.merged
    }
}
