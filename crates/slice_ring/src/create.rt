// How a table is made, and its lead's seat given the turns of all slots.
ghost use Rattle.std.specs.Prelude.{◌≡◌, ◌+◌, ◌*◌, ◌<◌, ◌≤◌, IfOk};
ghost use Rattle.slice_ring.specs.Seats.{IsSame, IsOpening};

use crate::plays::Open;
use crate::table::{Key, SlotTable, TableSeat};
use crate::views::Numbered;
use atomic_table::Table;
use std::alloc::{AllocError, Global};
use std::snapshot::Snapshot;

impl<J: Numbered + Drop, R: Numbered<Topic = J::Topic> + Drop> SlotTable<J, R> {
    fn vacant(
        alloc: Global,
        slots: usize,
        topic: &J::Topic,
    ) -> Result<(SlotTable<J, R>, TableSeat<J, R>), AllocError>
        requires { (0 < slots) × (slots ≤ 32) }
        ensures { IfOk result (λ r. (r.1.table_id ≡ r.0.table.shared.table_id) × (r.0.slots ≡ slots)
            × (r.0.table.shared.key.topic.value ≡ topic.now) × IsOpening slots 0 topic.now r.1.me) }
    {
        let words = Vec::from_elem(alloc, 0u64, 3 * slots + 1)?;
        let key = Key {
            slots,
            topic: Snapshot::of(topic),
        };
        let (table, lead) = Table::vacant(alloc, words.as_slice(), slots, &key)?;
        Ok((SlotTable { table, slots }, lead))
    }

    // Gives the lead the turn of the slot i.
    fn open_slot(&self, lead: &mut TableSeat<J, R>, i: usize)
        requires near { i < self.now.slots }
        requires lead { (lead.old.table_id ≡ self.now.table.shared.table_id)
            × IsOpening self.now.slots i self.now.table.shared.key.topic.value lead.old.me }
        ensures { IsSame lead.old lead.new
            × IsOpening self.now.slots (i + 1) self.now.table.shared.key.topic.value lead.new.me }
    {
        self.table.shared.load::<Open>(lead, 3 * i + 1);
        lead.turn();
    }

    fn open_slots(&self, lead: &mut TableSeat<J, R>)
        requires { (lead.old.table_id ≡ self.now.table.shared.table_id)
            × IsOpening self.now.slots 0 self.now.table.shared.key.topic.value lead.old.me }
        ensures { IsSame lead.old lead.new
            × IsOpening self.now.slots self.now.slots self.now.table.shared.key.topic.value lead.new.me }
    {
        for i in 0..self.slots {
            self.open_slot(lead, i);
        }
    }

    /// A table about the topic, with so many slots, and its lead's seat.
    pub(crate) fn create(
        alloc: Global,
        slots: usize,
        topic: &J::Topic,
    ) -> Result<(SlotTable<J, R>, TableSeat<J, R>), AllocError>
        requires { (0 < slots) × (slots ≤ 32) }
        ensures { IfOk result (λ r. (r.1.table_id ≡ r.0.table.shared.table_id) × (r.0.slots ≡ slots)
            × (r.0.table.shared.key.topic.value ≡ topic.now)
            × IsOpening slots slots topic.now r.1.me) }
    {
        let (table, mut lead) = SlotTable::vacant(alloc, slots, topic)?;
        table.open_slots(&mut lead);
        Ok((table, lead))
    }
}
