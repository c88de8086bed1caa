// What a worker does at the table: claim, deposit, and look whether it is closed. Each atomic step is a function of
// its own.
ghost use Rattle.std.specs.Prelude.{◌≡◌, ◌≢◌, ℕ, ◌+◌, ◌*◌, ◌%◌, ◌^◌, ◌<◌, ◌≤◌, ◌∷◌, ◌==◌, length, Some, None, IfSome, IfNone};
ghost use Rattle.atomic_table.specs.Table.{rest};
ghost use Rattle.slice_ring.specs.declared.views.Content.TheVariants.{Piece};
ghost use Rattle.slice_ring.specs.declared.views.Role.TheVariants.{Works};
ghost use Rattle.slice_ring.specs.Ticket.{Tag};
ghost use Rattle.slice_ring.specs.Seats.{IsSame, IsWorking, Wins, WasReady, WasMissed};
ghost use Rattle.slice_ring.specs.Steps.{look_at, sees_word, sees_first, sees_second, loses, finishes, glances};

use crate::plays::{Claim, Finish, Glimpse, SeeFirst, SeeSecond, SeeWord};
use crate::table::{SlotTable, TableSeat};
use crate::views::{Content, Numbered};

impl<J: Numbered + Drop, R: Numbered<Topic = J::Topic> + Drop> SlotTable<J, R> {
    fn load_word(&self, seat: &mut TableSeat<J, R>, i: usize) -> u64
        requires { (seat.old.table_id ≡ self.now.table.shared.table_id)
            × (seat.old.me.0.role ≡ Works) × (i < self.now.slots) }
        ensures { IsSame seat.old seat.new
            × (seat.new.me ≡ (sees_word i result seat.old.me.0, seat.old.me.1)) }
    {
        self.table.shared.load::<SeeWord>(seat, 3 * i + 1)
    }

    fn load_first(&self, seat: &mut TableSeat<J, R>, i: usize) -> u64
        requires seat { (seat.old.table_id ≡ self.now.table.shared.table_id)
            × (seat.old.me.0.role ≡ Works) }
        requires near { (i < self.now.slots) × (i < length seat.old.me.0.work.kept) }
        ensures { IsSame seat.old seat.new
            × (seat.new.me ≡ (sees_first i result seat.old.me.0, seat.old.me.1)) }
    {
        self.table.shared.load::<SeeFirst>(seat, 3 * i + 2)
    }

    fn load_second(&self, seat: &mut TableSeat<J, R>, i: usize) -> u64
        requires seat { (seat.old.table_id ≡ self.now.table.shared.table_id)
            × (seat.old.me.0.role ≡ Works) }
        requires near { (i < self.now.slots) × (i < length seat.old.me.0.work.kept) }
        ensures { IsSame seat.old seat.new
            × (seat.new.me ≡ (sees_second i result seat.old.me.0, seat.old.me.1)) }
    {
        self.table.shared.load::<SeeSecond>(seat, 3 * i + 3)
    }

    // One exchange on the slot i, whose word was found to be `ready`.
    fn exchange_word(&self, seat: &mut TableSeat<J, R>, i: usize, ready: u64) -> u64
        requires seat { (seat.old.table_id ≡ self.now.table.shared.table_id)
            × (seat.old.me.0.topic ≡ Some self.now.table.shared.key.topic.value) }
        requires idle { (seat.old.me.0.role ≡ Works) × (seat.old.me.0.work.held ≡ None) }
        requires near { (i < self.now.slots) × (i < length seat.old.me.0.work.kept) }
        requires look { ((look_at i seat.old.me.0).word ≡ ready) × (ready % 4 ≡ 1)
            × ((tag : Tag) × ((look_at i seat.old.me.0).first ≡ Some tag.0)
            × ((look_at i seat.old.me.0).second ≡ Some tag.1)) }
        ensures same { IsSame seat.old seat.new }
        ensures won { result ≡ ready → (x : J)
            × Wins J.ticket self.now.table.shared.key.topic.value self.now.slots i ready seat.old.me seat.new.me x }
        ensures lost { result ≢ ready
            → seat.new.me ≡ (loses i result seat.old.me.0, seat.old.me.1) }
    {
        self.table
            .shared
            .compare_exchange::<Claim>(seat, 3 * i + 1, ready, ready + 1)
    }

    // Looks at the slot i, and takes its job where it is ready and no other seat takes it first.
    fn try_slot(&self, seat: &mut TableSeat<J, R>, i: usize) -> Option<J>
        requires seat { (seat.old.table_id ≡ self.now.table.shared.table_id)
            × (seat.old.me.0.topic ≡ Some self.now.table.shared.key.topic.value) }
        requires idle { IsWorking self.now.slots seat.old.me × (seat.old.me.0.work.held ≡ None) }
        requires near { i < self.now.slots }
        ensures seat { IsSame seat.old seat.new × (seat.new.me.0.topic ≡ seat.old.me.0.topic)
            × IsWorking self.now.slots seat.new.me }
        ensures looks { seat.old.me.0.looks ≤ seat.new.me.0.looks }
        ensures some { IfSome result (λ x. (seat.new.me.0.work.held ≡ Some ((J.ticket x).number, (J.ticket x).tag))
            × ((J.ticket x).topic ≡ self.now.table.shared.key.topic.value)
            × WasReady self.now.slots seat.old.me.0.looks (J.ticket x) seat.new.me.0) }
        ensures none { IfNone result ((seat.new.me.0.work.held ≡ None)
            × WasMissed seat.old.me.0.looks (look_at i seat.new.me.0)
            × ((j : ℕ) → j ≢ i → look_at j seat.new.me.0 ≡ look_at j seat.old.me.0)) }
    {
        let found = self.load_word(seat, i);
        if found % 4 != 1 {
            return None;
        }
        let _first = self.load_first(seat, i);
        let _second = self.load_second(seat, i);
        if self.exchange_word(seat, i, found) != found {
            return None;
        }
        match self.table.shared.exchange(seat, i, None) {
            Some(Content::Job(job)) => Some(job),
            Some(Content::Piece(_)) => unreachable!(),
            None => unreachable!(),
        }
    }

    /// A ready job, of the first slot that has one which no other seat takes first.
    pub(crate) fn claim(&self, seat: &mut TableSeat<J, R>) -> Option<J>
        requires seat { (seat.old.table_id ≡ self.now.table.shared.table_id)
            × (seat.old.me.0.topic ≡ Some self.now.table.shared.key.topic.value) }
        requires idle { IsWorking self.now.slots seat.old.me × (seat.old.me.0.work.held ≡ None) }
        ensures seat { IsSame seat.old seat.new × (seat.new.me.0.topic ≡ seat.old.me.0.topic)
            × IsWorking self.now.slots seat.new.me }
        ensures some { IfSome result (λ x. (seat.new.me.0.work.held ≡ Some ((J.ticket x).number, (J.ticket x).tag))
            × ((J.ticket x).topic ≡ self.now.table.shared.key.topic.value)
            × WasReady self.now.slots seat.old.me.0.looks (J.ticket x) seat.new.me.0) }
        ensures none { IfNone result ((seat.new.me.0.work.held ≡ None)
            × ((i : ℕ) → i < self.now.slots
            → WasMissed seat.old.me.0.looks (look_at i seat.new.me.0))) }
    {
        for i in 0..self.slots {
            if let Some(job) = self.try_slot(seat, i) {
                return Some(job);
            }
        }
        None
    }

    fn store_done(&self, seat: &mut TableSeat<J, R>, i: usize, done: u64)
        requires seat { (seat.old.table_id ≡ self.now.table.shared.table_id)
            × (seat.old.me.0.role ≡ Works) × (i < self.now.slots) }
        requires piece { (y : R) × (seat.old.me.1 ≡ (i, Some (Piece y)) ∷ rest seat.old.me.1)
            × (i ≡ (R.ticket y).number % self.now.slots) × (done ≡ 4 * (R.ticket y).number + 3)
            × (seat.old.me.0.work.held ≡ Some ((R.ticket y).number, (R.ticket y).tag))
            × ((R.ticket y).topic ≡ self.now.table.shared.key.topic.value) }
        ensures { IsSame seat.old seat.new
            × (seat.new.me ≡ (finishes seat.old.me.0, rest seat.old.me.1)) }
    {
        self.table.shared.store::<Finish>(seat, 3 * i + 1, done)
    }

    /// Puts the piece into the slot of the job that it answers.
    pub(crate) fn deposit(&self, seat: &mut TableSeat<J, R>, piece: R)
        requires seat { (seat.old.table_id ≡ self.now.table.shared.table_id)
            × IsWorking self.now.slots seat.old.me }
        requires answers { (seat.old.me.0.work.held ≡ Some ((R.ticket piece).number, (R.ticket piece).tag))
            × ((R.ticket piece).topic ≡ self.now.table.shared.key.topic.value) }
        ensures seat { IsSame seat.old seat.new × IsWorking self.now.slots seat.new.me }
        ensures finished { seat.new.me.0 ≡ finishes seat.old.me.0 }
    {
        let number = piece.number();
        let i = (number % self.slots as u64) as usize;
        let _ = self
            .table
            .shared
            .exchange(seat, i, Some(Content::Piece(piece)));
        self.store_done(seat, i, 4 * number + 3);
    }

    // A load of a word, which is kept with its place.
    fn glance(&self, seat: &mut TableSeat<J, R>, place: usize) -> u64
        requires { (seat.old.table_id ≡ self.now.table.shared.table_id)
            × (seat.old.me.0.role ≡ Works) × (place ≤ 3 * self.now.slots) }
        ensures { IsSame seat.old seat.new
            × (seat.new.me ≡ (glances place result seat.old.me.0, seat.old.me.1)) }
    {
        self.table.shared.load::<Glimpse>(seat, place)
    }

    /// What a load of the closing word finds.
    pub(crate) fn is_closed(&self, seat: &mut TableSeat<J, R>) -> bool
        requires { (seat.old.table_id ≡ self.now.table.shared.table_id)
            × (seat.old.me.0.role ≡ Works) }
        ensures same { IsSame seat.old seat.new }
        ensures found { (word : ℕ) × (seat.new.me ≡ (glances 0 word seat.old.me.0, seat.old.me.1))
            × (result ≡ (word == 1)) }
    {
        self.glance(seat, 0) == 1
    }
}
