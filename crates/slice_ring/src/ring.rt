// The ring.
ghost use Rattle.std.specs.Prelude.{◌≡◌, ◌≢◌, ℕ, ◌+◌, ◌*◌, ◌%◌, ◌^◌, ◌<◌, ◌≤◌, ◌==◌, length, All, IfOk, IfSome, IfNone};
ghost use Rattle.slice_ring.specs.Seats.{slots_of, with_view, IsOf, IsIdle, IsFresh, IsOpen, HoldsNone, HoldsJob, published_by, merged_by, WasReady, WasMissed, IsAnswer};
ghost use Rattle.slice_ring.specs.Steps.{look_at, publishes, finishes, merges, glances, closes, takes_back};

use crate::seats::{LeadSeat, WorkSeat};
use crate::table::SlotTable;
use crate::views::Numbered;
use std::alloc::{AllocError, Global};
use std::marker::Model;

/// A ring of slots that the lead and the workers share. Contracts see it as a `RingId`, which never changes. Its
/// words, its slots and the views of its seats meet `RingHolds` between any two steps of any seats.
#[derive(Drop)]
pub struct Ring<J: Numbered + Send + Drop, R: Numbered<Topic = J::Topic> + Send + Drop> {
    slot_table: SlotTable<J, R>,
}

impl<J: Numbered + Send + Drop, R: Numbered<Topic = J::Topic> + Send + Drop> Model for Ring<J, R> {
    ghost use Rattle.slice_ring.specs.Seats.{RingId};

    ghost Value = { RingId J.Topic };

    ghost view = { λ r. record { table = r.slot_table.table.shared.table_id; topic = r.slot_table.table.shared.key.topic.value } };
}

impl<J: Numbered + Send + Drop, R: Numbered<Topic = J::Topic> + Send + Drop> Ring<J, R> {
    /// A ring about the topic, with 1 to 32 slots, its lead's seat, and 1 to 17 seats for workers. After this no
    /// call takes memory, and none waits. The topic is read by contracts alone.
    pub fn create(
        alloc: Global,
        slots: u32,
        workers: u32,
        topic: &J::Topic,
    ) -> Result<(Ring<J, R>, LeadSeat<J, R>, Vec<WorkSeat<J, R>>), AllocError>
        requires slots { (1 ≤ slots) × (slots ≤ 32) }
        requires workers { (1 ≤ workers) × (workers ≤ 17) }
        ensures ring { IfOk result (λ r. (slots_of r.0 ≡ slots) × (r.0.topic ≡ topic.now)) }
        ensures lead { IfOk result (λ r. IsOf r.0 r.1 × IsFresh r.1) }
        ensures seats { IfOk result (λ r. (length r.2.items ≡ workers)
            × All (IsIdle r.0) r.2.items) }
    {
        let (slot_table, seat) = SlotTable::create(alloc, slots as usize, topic)?;
        let ring = Ring { slot_table };
        let mut lead = LeadSeat {
            seat,
            published: 0,
            merged: 0,
        };
        let seats = ring.work_seats(alloc, &mut lead, workers)?;
        Ok((ring, lead, seats))
    }

    fn work_seat(&self, lead: &mut LeadSeat<J, R>) -> WorkSeat<J, R>
        requires { IsOf self.now lead.old }
        ensures lead { lead.new ≡ lead.old }
        ensures seat { IsIdle self.now result }
    {
        WorkSeat {
            seat: self.slot_table.work_seat(&mut lead.seat),
        }
    }

    fn work_seats(
        &self,
        alloc: Global,
        lead: &mut LeadSeat<J, R>,
        workers: u32,
    ) -> Result<Vec<WorkSeat<J, R>>, AllocError>
        requires { IsOf self.now lead.old }
        ensures lead { lead.new ≡ lead.old }
        ensures seats { IfOk result (λ v. (length v.items ≡ workers)
            × All (IsIdle self.now) v.items) }
    {
        let mut seats = Vec::new(alloc);
        for made in 0..workers {
            seats.push(self.work_seat(lead))?;
        }
        Ok(seats)
    }

    /// How many slots there are.
    pub fn slots(&self) -> u32
        ensures count { result ≡ slots_of self.now }
        ensures few { (1 ≤ result) × (result ≤ 32) }
    {
        self.slot_table.slots as u32
    }

    /// The word of a slot as a load finds it, which another step may change at once: so nothing is said of it. It
    /// is for tests.
    pub fn word(&self, slot: u32) -> u64
        requires { slot < slots_of self.now }
    {
        self.slot_table.table.shared.peek(3 * slot as usize + 1)
    }

    /// Publishes a job, for a worker to claim. It has the next number, counted from 0, and fewer than all slots are
    /// outstanding.
    pub fn publish(&self, lead: &mut LeadSeat<J, R>, job: J)
        requires of_ring { IsOf self.now lead.old }
        requires job { ((J.ticket job).number ≡ published_by lead.old)
            × ((J.ticket job).topic ≡ self.now.topic) }
        requires room { (published_by lead.old < merged_by lead.old + slots_of self.now)
            × (published_by lead.old < 2 ^ 62) }
        requires open_is { IsOpen lead.old }
        ensures { lead.new ≡ with_view lead.old (publishes (J.ticket job).tag lead.old.view) }
    {
        self.slot_table.publish(&mut lead.seat, job);
        lead.published += 1;
    }

    /// A job that was ready. None where each slot's word was not that of a ready job, or was that of one that
    /// another seat took first. It looks at each slot's word at most once, and makes at most one exchange on it.
    pub fn claim(&self, seat: &mut WorkSeat<J, R>) -> Option<J>
        requires { IsIdle self.now seat.old }
        ensures seat { IsOf self.now seat.new × (seat.new.place ≡ seat.old.place) }
        ensures some { IfSome result (λ job. HoldsJob (J.ticket job) seat.new
            × ((J.ticket job).topic ≡ self.now.topic)
            × WasReady (slots_of self.now) seat.old.view.looks (J.ticket job) seat.new.view) }
        ensures none { IfNone result (HoldsNone seat.new
            × ((i : ℕ) → i < slots_of self.now
            → WasMissed seat.old.view.looks (look_at i seat.new.view))) }
    {
        self.slot_table.claim(&mut seat.seat)
    }

    /// Puts back the piece that answers the job which the seat holds: it has the job's number and tag, and the
    /// ring's topic.
    pub fn deposit(&self, seat: &mut WorkSeat<J, R>, piece: R)
        requires of_ring { IsOf self.now seat.old }
        requires answers { HoldsJob (R.ticket piece) seat.old
            × ((R.ticket piece).topic ≡ self.now.topic) }
        ensures { seat.new ≡ with_view seat.old (finishes seat.old.view) }
    {
        self.slot_table.deposit(&mut seat.seat, piece)
    }

    /// The piece of the lowest outstanding job, of which there is one. None where the word of its slot was another
    /// than that of the done job.
    pub fn collect(&self, lead: &mut LeadSeat<J, R>) -> Option<R>
        requires of_ring { IsOf self.now lead.old }
        requires out { merged_by lead.old < published_by lead.old }
        ensures some { IfSome result (λ piece. (lead.new ≡ with_view lead.old
            (merges (3 * (merged_by lead.old % slots_of self.now) + 1) lead.old.view))
            × IsAnswer lead.old.view self.now.topic (R.ticket piece)) }
        ensures none { IfNone result ((word : ℕ) × (word ≢ 4 * merged_by lead.old + 3)
            × (lead.new ≡ with_view lead.old
            (glances (3 * (merged_by lead.old % slots_of self.now) + 1) word lead.old.view))) }
    {
        let piece = self.slot_table.collect(&mut lead.seat, lead.merged)?;
        lead.merged += 1;
        Some(piece)
    }

    /// Closes the ring, of which nothing is outstanding.
    pub fn close(&self, lead: &mut LeadSeat<J, R>)
        requires of_ring { IsOf self.now lead.old }
        requires settled { merged_by lead.old ≡ published_by lead.old }
        requires open_is { IsOpen lead.old }
        ensures { lead.new ≡ with_view lead.old (closes lead.old.view) }
    {
        self.slot_table.close(&mut lead.seat)
    }

    /// Whether the closing word, loaded in this call, was 1.
    pub fn is_closed(&self, seat: &mut WorkSeat<J, R>) -> bool
        requires { IsOf self.now seat.old }
        ensures { (word : ℕ) × (seat.new ≡ with_view seat.old (glances 0 word seat.old.view))
            × (result ≡ (word == 1)) }
    {
        self.slot_table.is_closed(&mut seat.seat)
    }

    /// Takes back the seat of a worker, which holds no job.
    pub fn retire(&self, lead: &mut LeadSeat<J, R>, seat: WorkSeat<J, R>)
        requires of_ring { IsOf self.now lead.old }
        requires seat { IsIdle self.now seat }
        ensures { lead.new ≡ with_view lead.old (takes_back lead.old.view) }
    {
        self.slot_table.retire(&mut lead.seat, seat.seat)
    }
}
