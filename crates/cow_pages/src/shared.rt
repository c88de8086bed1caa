// Pages as they were at a freeze.
ghost use Rattle.std.specs.Prelude.{◌≡◌, ◌+◌, ◌*◌, ◌^◌, ◌<◌, slice_index};
ghost use Rattle.cow_pages.specs.Contents.{address_of};

use page_table::PageTable;
use std::alloc::Global;
use std::marker::Model;
use std::sync::Arc;

/// The pages as they were at a freeze. They never change.
#[derive(Drop)]
pub struct Shared {
    pub(crate) table: Arc<PageTable, Global>,
    /// The pages that were changed since the state that these came from.
    pub(crate) changed: Vec<u32>,
}

impl Model for Shared {
    ghost use Rattle.std.specs.Arc.{arc_value};
    ghost use Rattle.cow_pages.specs.Contents.{Frozen, flat};
    ghost use Rattle.cow_pages.specs.Named.{marks_of};

    ghost Value = { Frozen };

    ghost use Rattle.cow_pages.specs.Laid.{table_byte};

    ghost view = { λ s. record { bytes = flat (table_byte (arc_value s.table)); changed = marks_of s.changed.items } };
}

impl Shared {
    /// Byte `at` of a page, as it was at the freeze.
    pub fn read(&self, page: u32, at: u32) -> u8
        requires page { page < 2 ^ 20 }
        requires at { at < 4096 }
        ensures { result ≡ slice_index self.now.bytes (address_of page at) }
    {
        match self.table.page(page) {
            Some(bytes) => bytes.as_slice()[at as usize],
            None => 0,
        }
    }
}
