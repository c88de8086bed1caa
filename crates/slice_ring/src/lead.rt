// What the lead does at the table: publish, collect, close and retire. Each atomic step is a function of its own.
ghost use Rattle.std.specs.Prelude.{◌≡◌, ◌≢◌, ℕ, ◌+◌, ◌*◌, ◌%◌, ◌^◌, ◌<◌, ◌≤◌, ◌∷◌, length, Some, None, IfSome, IfNone, false};
ghost use Rattle.atomic_table.specs.Table.{rest};
ghost use Rattle.slice_ring.specs.declared.views.Content.TheVariants.{Job, Piece};
ghost use Rattle.slice_ring.specs.declared.views.Role.TheVariants.{Leads};
ghost use Rattle.slice_ring.specs.Ticket.{Tag};
ghost use Rattle.slice_ring.specs.Seats.{IsSame, IsLeading, IsWorking, IsAnswer};
ghost use Rattle.slice_ring.specs.Steps.{stores_first, stores_second, publishes, glances, merges, closes, takes_back};

use crate::plays::{Close, Collect, Engage, Publish, Retire, StoreFirst, StoreSecond};
use crate::table::{SlotTable, TableSeat};
use crate::views::{Content, Numbered};

impl<J: Numbered + Drop, R: Numbered<Topic = J::Topic> + Drop> SlotTable<J, R> {
    // Stores the first tag word of the slot i, which is that of the next job.
    fn store_first(&self, lead: &mut TableSeat<J, R>, i: usize, first: u64)
        requires seat { (lead.old.table_id ≡ self.now.table.shared.table_id)
            × (lead.old.me.0.role ≡ Leads) }
        requires slot { (i ≡ length lead.old.me.0.lead.tags % self.now.slots) × (i < self.now.slots)
            × (length lead.old.me.0.lead.tags < lead.old.me.0.lead.merged + self.now.slots) }
        ensures { IsSame lead.old lead.new
            × (lead.new.me ≡ (stores_first first lead.old.me.0, lead.old.me.1)) }
    {
        self.table
            .shared
            .store::<StoreFirst>(lead, 3 * i + 2, first)
    }

    // The same for the second tag word.
    fn store_second(&self, lead: &mut TableSeat<J, R>, i: usize, second: u64)
        requires seat { (lead.old.table_id ≡ self.now.table.shared.table_id)
            × (lead.old.me.0.role ≡ Leads) }
        requires slot { (i ≡ length lead.old.me.0.lead.tags % self.now.slots) × (i < self.now.slots)
            × (length lead.old.me.0.lead.tags < lead.old.me.0.lead.merged + self.now.slots) }
        ensures { IsSame lead.old lead.new
            × (lead.new.me ≡ (stores_second second lead.old.me.0, lead.old.me.1)) }
    {
        self.table
            .shared
            .store::<StoreSecond>(lead, 3 * i + 3, second)
    }

    // The job lies in the slot i, and its tag words are stored: now it is ready.
    fn store_ready(&self, lead: &mut TableSeat<J, R>, i: usize, ready: u64)
        requires seat { (lead.old.table_id ≡ self.now.table.shared.table_id)
            × (lead.old.me.0.role ≡ Leads) }
        requires slot { (i ≡ length lead.old.me.0.lead.tags % self.now.slots) × (i < self.now.slots)
            × (length lead.old.me.0.lead.tags < lead.old.me.0.lead.merged + self.now.slots) }
        requires few { (ready ≡ 4 * length lead.old.me.0.lead.tags + 1)
            × (length lead.old.me.0.lead.tags < 2 ^ 62) × (lead.old.me.0.lead.closed ≡ false) }
        requires job { (x : J) × (lead.old.me.1 ≡ (i, Some (Job x)) ∷ rest lead.old.me.1)
            × ((J.ticket x).number ≡ length lead.old.me.0.lead.tags)
            × ((J.ticket x).topic ≡ self.now.table.shared.key.topic.value)
            × (lead.old.me.0.lead.first ≡ Some (J.ticket x).tag.0)
            × (lead.old.me.0.lead.second ≡ Some (J.ticket x).tag.1) }
        ensures same { IsSame lead.old lead.new }
        ensures published { (tag : Tag) → lead.old.me.0.lead.first ≡ Some tag.0
            → lead.old.me.0.lead.second ≡ Some tag.1
            → lead.new.me ≡ (publishes tag lead.old.me.0, rest lead.old.me.1) }
    {
        self.table.shared.store::<Publish>(lead, 3 * i + 1, ready)
    }

    /// Puts the job into its slot, stores its tag, and makes it ready.
    pub(crate) fn publish(&self, lead: &mut TableSeat<J, R>, job: J)
        requires seat { (lead.old.table_id ≡ self.now.table.shared.table_id)
            × IsLeading self.now.slots lead.old.me }
        requires job { ((J.ticket job).number ≡ length lead.old.me.0.lead.tags)
            × ((J.ticket job).topic ≡ self.now.table.shared.key.topic.value) }
        requires room { (length lead.old.me.0.lead.tags < lead.old.me.0.lead.merged + self.now.slots)
            × (length lead.old.me.0.lead.tags < 2 ^ 62)
            × (lead.old.me.0.lead.closed ≡ false) }
        ensures same { IsSame lead.old lead.new }
        ensures leads { IsLeading self.now.slots lead.new.me }
        ensures published { lead.new.me.0 ≡ publishes (J.ticket job).tag lead.old.me.0 }
    {
        let number = job.number();
        let (first, second) = job.tag();
        let i = (number % self.slots as u64) as usize;
        let _ = self.table.shared.exchange(lead, i, Some(Content::Job(job)));
        self.store_first(lead, i, first);
        self.store_second(lead, i, second);
        self.store_ready(lead, i, 4 * number + 1);
    }

    // The word of the slot i, which is that of the next piece. Where it is done, the lead has the slot's turn.
    fn load_done(&self, lead: &mut TableSeat<J, R>, i: usize) -> u64
        requires seat { (lead.old.table_id ≡ self.now.table.shared.table_id)
            × (lead.old.me.0.role ≡ Leads)
            × (lead.old.me.0.topic ≡ Some self.now.table.shared.key.topic.value) }
        requires out { (lead.old.me.0.lead.merged < length lead.old.me.0.lead.tags)
            × (lead.old.me.0.lead.opened ≡ self.now.slots) }
        requires slot { (i ≡ lead.old.me.0.lead.merged % self.now.slots) × (i < self.now.slots) }
        ensures same { IsSame lead.old lead.new }
        ensures done { result ≡ 4 * lead.old.me.0.lead.merged + 3
            → (y : R) × (lead.new.me ≡ (merges (3 * i + 1) lead.old.me.0, (i, Some (Piece y)) ∷ lead.old.me.1))
            × IsAnswer lead.old.me.0 self.now.table.shared.key.topic.value (R.ticket y) }
        ensures other { result ≢ 4 * lead.old.me.0.lead.merged + 3
            → lead.new.me ≡ (glances (3 * i + 1) result lead.old.me.0, lead.old.me.1) }
    {
        self.table.shared.load::<Collect>(lead, 3 * i + 1)
    }

    /// The piece of the next job to be merged, if it is done. So many are merged.
    pub(crate) fn collect(&self, lead: &mut TableSeat<J, R>, merged: u64) -> Option<R>
        requires seat { (lead.old.table_id ≡ self.now.table.shared.table_id)
            × (lead.old.me.0.topic ≡ Some self.now.table.shared.key.topic.value)
            × IsLeading self.now.slots lead.old.me }
        requires out { (merged ≡ lead.old.me.0.lead.merged)
            × (merged < length lead.old.me.0.lead.tags) × (merged < 2 ^ 62)
            × (length lead.old.me.0.lead.tags ≤ merged + self.now.slots) }
        ensures same { IsSame lead.old lead.new }
        ensures leads { IsLeading self.now.slots lead.new.me }
        ensures some { IfSome result (λ y. (lead.new.me.0
            ≡ merges (3 * (merged % self.now.slots) + 1) lead.old.me.0)
            × IsAnswer lead.old.me.0 self.now.table.shared.key.topic.value (R.ticket y)) }
        ensures none { IfNone result ((word : ℕ) × (word ≢ 4 * merged + 3)
            × (lead.new.me.0 ≡ glances (3 * (merged % self.now.slots) + 1) word lead.old.me.0)) }
    {
        let i = (merged % self.slots as u64) as usize;
        if self.load_done(lead, i) != 4 * merged + 3 {
            return None;
        }
        let content = self.table.shared.exchange(lead, i, None);
        lead.turn();
        match content {
            Some(Content::Piece(piece)) => Some(piece),
            Some(Content::Job(_)) => unreachable!(),
            None => unreachable!(),
        }
    }

    /// Nothing is outstanding.
    pub(crate) fn close(&self, lead: &mut TableSeat<J, R>)
        requires seat { (lead.old.table_id ≡ self.now.table.shared.table_id)
            × IsLeading self.now.slots lead.old.me }
        requires settled { lead.old.me.0.lead.merged ≡ length lead.old.me.0.lead.tags }
        ensures same { IsSame lead.old lead.new }
        ensures leads { IsLeading self.now.slots lead.new.me }
        ensures closed { lead.new.me.0 ≡ closes lead.old.me.0 }
    {
        self.table.shared.store::<Close>(lead, 0, 1)
    }

    /// The seat holds no job.
    pub(crate) fn retire(&self, lead: &mut TableSeat<J, R>, seat: TableSeat<J, R>)
        requires lead { (lead.old.table_id ≡ self.now.table.shared.table_id)
            × IsLeading self.now.slots lead.old.me }
        requires seat { (seat.table_id ≡ self.now.table.shared.table_id)
            × IsWorking self.now.slots seat.me × (seat.me.0.work.held ≡ None) }
        ensures { IsSame lead.old lead.new
            × (lead.new.me ≡ (takes_back lead.old.me.0, lead.old.me.1)) }
    {
        self.table.shared.join_seat::<Retire>(lead, seat)
    }

    /// A new worker's seat, which holds no job.
    pub(crate) fn work_seat(&self, lead: &mut TableSeat<J, R>) -> TableSeat<J, R>
        requires lead { (lead.old.table_id ≡ self.now.table.shared.table_id)
            × IsLeading self.now.slots lead.old.me }
        ensures lead { IsSame lead.old lead.new × (lead.new.me ≡ lead.old.me) }
        ensures seat { (result.table_id ≡ self.now.table.shared.table_id)
            × (result.me.0.topic ≡ lead.old.me.0.topic) × IsWorking self.now.slots result.me
            × (result.me.0.work.held ≡ None) }
    {
        self.table.shared.split_seat::<Engage>(lead)
    }
}
