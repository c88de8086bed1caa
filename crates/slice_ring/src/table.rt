// The ring's table of words and slots, and its rule.
ghost use Rattle.std.specs.Prelude.{◌≡◌, ◌+◌, ◌*◌, ◌<◌, ◌≤◌};
ghost use Rattle.slice_ring.specs.Rule.{RingHolds};
ghost use Rattle.slice_ring.specs.Steps.{begins};

use crate::views::{Content, Numbered, View};
use atomic_table::{Seat, Table, TableRule};
use std::alloc::Global;
use std::marker::PhantomData;
use std::snapshot::Snapshot;

// What the table is told once: how many slots it has, and the topic.
#[derive(Drop)]
pub(crate) struct Key<T> {
    pub(crate) slots: usize,
    pub(crate) topic: Snapshot<T>,
}

pub(crate) struct Rules<J, R> {
    marker: PhantomData<(J, R)>,
}

impl<J: Numbered, R: Numbered<Topic = J::Topic>> TableRule<
    Option<Content<J, R>>,
    View<J::Topic>,
    Key<J::Topic>,
> for Rules<J, R> {
    ghost holds = { λ key. RingHolds J.ticket R.ticket key.slots key.topic.value };

    ghost first = { λ key. begins key.slots key.topic.value };
}

// A seat at the table. It has no bytes.
pub(crate) type TableSeat<J, R> = Seat<Option<Content<J, R>>, View<<J as Numbered>::Topic>>;

// The table, with the number of its slots.
#[derive(Drop)]
pub(crate) struct SlotTable<J: Numbered + Drop, R: Numbered<Topic = J::Topic> + Drop> {
    pub(crate) table: Table<
        Option<Content<J, R>>,
        View<J::Topic>,
        Key<J::Topic>,
        Rules<J, R>,
        Global,
    >,
    pub(crate) slots: usize,
    ghost sized: { (table.shared.table_id.words ≡ 3 * slots + 1)
        × (table.shared.table_id.slots ≡ slots) × (table.shared.key.slots ≡ slots) × (0 < slots) × (slots ≤ 32) },
}
