// A guest's memory as it was at a freeze.
ghost use Rattle.std.specs.Prelude.{◌≡◌};
ghost use Rattle.guest_model.specs.Bytes.{byte_at};

use crate::code::KeptCode;
use crate::rights::Rights;
use arrayvec::ArrayVec;
use cow_pages::Shared;
use guest_model::Area;
use guest_model::platform::{MOST_AREAS, PAGE_SIZE};
use std::alloc::Global;
use std::marker::Model;
use std::sync::Arc;

/// A guest's memory as it was at a freeze. It never changes. Forks of it share its pages.
#[derive(Drop)]
pub struct FrozenSpace {
    pub(crate) areas: ArrayVec<Area, MOST_AREAS>,
    pub(crate) heap_break: u32,
    pub(crate) next_map: u32,
    /// For each page, what the areas permit there.
    pub(crate) rights: Arc<Vec<Rights>, Global>,
    pub(crate) pages: Shared,
    pub(crate) code: KeptCode,
}

impl Model for FrozenSpace {
    ghost use Rattle.guest_mem.specs.Memory.{FrozenMemory, frozen_code};

    ghost Value = { FrozenMemory };

    ghost coded = { frozen_code };

    ghost use Rattle.guest_mem.specs.Frozen.{IsFrozen, frozen_memory_of};

    ghost view = { frozen_memory_of };

    ghost invariant = { IsFrozen };
}

impl FrozenSpace {
    /// The byte at an address, as it was at the freeze, 0 where no area held it.
    pub fn peek_byte(&self, at: u32) -> u8
        ensures { result ≡ byte_at self.now.space.bytes at }
    {
        self.pages.read(at / PAGE_SIZE, at % PAGE_SIZE)
    }
}
