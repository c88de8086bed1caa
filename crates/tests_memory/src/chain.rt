// A hundred freezes and forks, beside a plain list of bytes.
ghost use Rattle.std.specs.Prelude.{◌<◌};

use crate::space::small;
use crate::writes::put;
use guest_mem::{FrozenSpace, Space};
use std::alloc::{AllocError, Global};
use std::test::Fail;

// Addresses of bytes that the chain changes: in an area of the loader, and in a map of three pages.
const PLACES: [u32; 6] = [
    0x11000, 0x11fff, 0x12000, 0x40000000, 0x40001ffc, 0x40002001,
];

// The change that unmaps the second page of the map, where the fifth place is.
const UNMAPS: usize = 101;

// A frozen space, and what each of the places held.
#[derive(Drop)]
struct Stand {
    space: FrozenSpace,
    bytes: [u8; 6],
}

// The k-th change, and whether it went as it should: a byte is put where it may be, or a page is unmapped.
fn change(space: &mut Space, bytes: &mut [u8; 6], k: usize) -> bool {
    if k == UNMAPS {
        bytes[4] = 0;
        return space.unmap(0x40001000, 0x1000) == 0;
    }
    let i = k % 6;
    let byte = (k % 251) as u8 + 1;
    if !put(space, PLACES[i], byte) {
        return k > UNMAPS && i == 4;
    }
    bytes[i] = byte;
    k < UNMAPS || i != 4
}

fn holds_now(space: &Space, bytes: &[u8; 6]) -> bool {
    PLACES
        .iter()
        .zip(bytes)
        .all(|(at, byte)| space.peek_byte(*at) == *byte)
}

fn holds(stand: &Stand) -> bool {
    PLACES
        .iter()
        .zip(&stand.bytes)
        .all(|(at, byte)| stand.space.peek_byte(*at) == *byte)
}

// A freeze. Behind each third one a fork with two frames goes on in place of the space.
fn stand_of(
    alloc: Global,
    space: &mut Space,
    bytes: &[u8; 6],
    k: usize,
) -> Result<Stand, AllocError> {
    let frozen = space.freeze()?;
    if k % 3 == 2 {
        *space = Space::fork(alloc, &frozen, 2)?;
    }
    Ok(Stand {
        space: frozen,
        bytes: *bytes,
    })
}

// Two changes and a freeze, and whether the space holds its bytes behind them.
fn turn(
    alloc: Global,
    space: &mut Space,
    bytes: &mut [u8; 6],
    stands: &mut Vec<Stand>,
    k: usize,
) -> Result<bool, AllocError>
    requires { k < 100 }
{
    let is_changed = change(space, bytes, 2 * k) && change(space, bytes, 2 * k + 1);
    let stand = stand_of(alloc, space, bytes, k)?;
    stands.push(stand)?;
    Ok(is_changed && holds_now(space, bytes))
}

#[test]
fn a_hundred_freezes_and_forks(rt: HostRuntime) -> Result<(), Fail> {
    let alloc = rt.alloc();
    let mut space = small(alloc)?;
    let mut bytes = [0, 2, 3, 0, 0, 0];
    assert!(rt; space.map(0x3000, 3, 0x22) == 0x40000000 && holds_now(&space, &bytes));
    let mut stands = Vec::new(alloc);
    for k in 0..100 {
        assert!(rt;
            turn(alloc, &mut space, &mut bytes, &mut stands, k)?,
            "turn {k}"
        );
    }
    for (k, stand) in stands.iter().enumerate() {
        assert!(rt; holds(stand), "state {k}");
    }
    Ok(())
}
