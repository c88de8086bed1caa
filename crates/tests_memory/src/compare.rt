// Forks are compared with what went on.
ghost use Rattle.std.specs.Prelude.{◌≡◌};
ghost use Rattle.guest_mem.specs.Memory.{all_bytes};

use crate::space::small;
use crate::writes::put;
use guest_mem::{FrozenSpace, Space};
use std::alloc::{AllocError, Global};
use std::test::Fail;

// What happens to the small space, to which a map of one page at 0x40000000 was added.
#[derive(Clone, Copy)]
enum Change {
    None,
    Put(u32, u8),
    Map(u32),
    // Maps a page and unmaps it: only the next map starts elsewhere then.
    MapAndUnmap,
    Unmap,
    Break(u32),
}

struct Row {
    name: &'static str,
    fork: Change,
    end: Change,
    is_same: bool,
}

const ROWS: [Row; 16] = [
    Row {
        name: "nothing",
        fork: Change::None,
        end: Change::None,
        is_same: true,
    },
    Row {
        name: "the same byte",
        fork: Change::Put(0x11000, 7),
        end: Change::Put(0x11000, 7),
        is_same: true,
    },
    Row {
        name: "another byte",
        fork: Change::Put(0x11000, 7),
        end: Change::Put(0x11000, 8),
        is_same: false,
    },
    Row {
        name: "another page",
        fork: Change::Put(0x11000, 7),
        end: Change::Put(0x12000, 7),
        is_same: false,
    },
    Row {
        name: "a page of the end alone",
        fork: Change::None,
        end: Change::Put(0x12000, 7),
        is_same: false,
    },
    Row {
        name: "a page of the fork alone",
        fork: Change::Put(0x40000fff, 7),
        end: Change::None,
        is_same: false,
    },
    Row {
        name: "what stood there",
        fork: Change::Put(0x12000, 3),
        end: Change::None,
        is_same: true,
    },
    Row {
        name: "the same map",
        fork: Change::Map(0x1000),
        end: Change::Map(0x1000),
        is_same: true,
    },
    Row {
        name: "a map of another size",
        fork: Change::Map(0x1000),
        end: Change::Map(0x2000),
        is_same: false,
    },
    Row {
        name: "a map of the end alone",
        fork: Change::None,
        end: Change::Map(0x1000),
        is_same: false,
    },
    Row {
        name: "a map that is gone again",
        fork: Change::MapAndUnmap,
        end: Change::None,
        is_same: false,
    },
    Row {
        name: "the same page unmapped",
        fork: Change::Unmap,
        end: Change::Unmap,
        is_same: true,
    },
    Row {
        name: "a page of zeros unmapped",
        fork: Change::Unmap,
        end: Change::None,
        is_same: false,
    },
    Row {
        name: "the same break",
        fork: Change::Break(0x20002),
        end: Change::Break(0x20002),
        is_same: true,
    },
    Row {
        name: "another break in the same page",
        fork: Change::Break(0x20001),
        end: Change::Break(0x20002),
        is_same: false,
    },
    Row {
        name: "a break of the end alone",
        fork: Change::None,
        end: Change::Break(0x20001),
        is_same: false,
    },
];

// Makes a change, and says whether it went as it should.
fn make(space: &mut Space, change: Change) -> bool
    ensures { space.new.origin ≡ space.old.origin }
{
    match change {
        Change::None => true,
        Change::Put(at, byte) => put(space, at, byte),
        Change::Map(len) => space.map(len, 3, 0x22) == 0x40001000,
        Change::MapAndUnmap => {
            space.map(0x1000, 3, 0x22) == 0x40001000 && space.unmap(0x40001000, 0x1000) == 0
        }
        Change::Unmap => space.unmap(0x40000000, 0x1000) == 0,
        Change::Break(to) => space.grow_break(to) == to,
    }
}

// Whether a fork of the base is found the same as what went on from it, as the row says.
fn is_found(
    alloc: Global,
    base: &FrozenSpace,
    space: &mut Space,
    row: &Row,
) -> Result<bool, AllocError>
    requires { space.old.origin ≡ all_bytes base.now.space }
{
    let mut fork = Space::fork(alloc, base, 2)?;
    let is_made = make(space, row.end) && make(&mut fork, row.fork);
    let end = space.freeze()?;
    Ok(is_made && fork.same_as(base, &end) == row.is_same)
}

// The same where the space itself went on, and where another fork did.
fn holds(alloc: Global, row: &Row) -> Result<bool, AllocError> {
    let mut space = small(alloc)?;
    let is_mapped = space.map(0x1000, 3, 0x22) == 0x40000000;
    let base = space.freeze()?;
    let of_space = is_found(alloc, &base, &mut space, row)?;
    let mut other = Space::fork(alloc, &base, 2)?;
    let of_fork = is_found(alloc, &base, &mut other, row)?;
    Ok(is_mapped && of_space && of_fork)
}

#[test]
fn compares_whole_spaces(rt: HostRuntime) -> Result<(), Fail> {
    for row in &ROWS {
        assert!(rt; holds(rt.alloc(), row)?, "{}", row.name);
    }
    Ok(())
}
