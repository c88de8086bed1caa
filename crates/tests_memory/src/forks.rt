// What is written in one fork shows nowhere else, and frames are counted.
use crate::space::small;
use crate::writes::put;
use guest_mem::{FrozenSpace, Space};
use std::alloc::{AllocError, Global};
use std::test::Fail;

// A byte that is 0 at first, and one that is 2.
const ZERO: u32 = 0x11000;

const TWO: u32 = 0x11fff;

// The small space, as it is and as it was at a freeze, and two forks: with two frames and with none.
#[derive(Drop)]
struct Forks {
    space: Space,
    frozen: FrozenSpace,
    fork: Space,
    other: Space,
}

fn make_forks(alloc: Global) -> Result<Forks, AllocError> {
    let mut space = small(alloc)?;
    let frozen = space.freeze()?;
    let fork = Space::fork(alloc, &frozen, 2)?;
    Ok(Forks {
        space,
        other: Space::fork(alloc, &frozen, 0)?,
        frozen,
        fork,
    })
}

// The byte at an address of the space, the frozen state, the fork and the other one.
fn bytes(all: &Forks, at: u32) -> [u8; 4] {
    [
        all.space.peek_byte(at),
        all.frozen.peek_byte(at),
        all.fork.peek_byte(at),
        all.other.peek_byte(at),
    ]
}

#[test]
fn forks_share_no_write(rt: HostRuntime) -> Result<(), Fail> {
    let mut all = make_forks(rt.alloc())?;
    assert!(rt; put(&mut all.fork, ZERO, 1) && bytes(&all, ZERO) == [0, 0, 1, 0]);
    assert!(rt; put(&mut all.space, ZERO, 9) && bytes(&all, ZERO) == [9, 0, 1, 0]);
    Ok(())
}

// Puts two bytes at the same address, with a freeze between them, and says whether the freeze has the first.
fn put_freeze_put(space: &mut Space, at: u32) -> Result<bool, AllocError> {
    let first = put(space, at, 6);
    let frozen = space.freeze()?;
    Ok(first && put(space, at, 7) && frozen.peek_byte(at) == 6)
}

#[test]
fn a_frozen_state_keeps_its_bytes(rt: HostRuntime) -> Result<(), Fail> {
    let mut all = make_forks(rt.alloc())?;
    assert!(rt; bytes(&all, TWO) == [2, 2, 2, 2]);
    assert!(rt; put_freeze_put(&mut all.space, TWO)? && bytes(&all, TWO) == [7, 2, 2, 2]);
    assert!(rt; put_freeze_put(&mut all.fork, TWO)? && bytes(&all, TWO) == [7, 2, 7, 2]);
    Ok(())
}

// How many pages were written, and how many frames are free.
fn counts(space: &Space, written: u32, free: u32) -> bool {
    space.written() == written && space.free() == free
}

// A fork with two frames writes one page twice and another one, and then there is no frame.
fn takes_two(fork: &mut Space) -> bool {
    let none = counts(fork, 0, 2);
    let one = put(fork, 0x11000, 1) && put(fork, 0x11001, 1) && counts(fork, 1, 1);
    let two = put(fork, 0x12000, 1) && counts(fork, 2, 0);
    none && one && two && !put(fork, 0x11000, 2)
}

#[test]
fn a_freeze_gives_frames_back(rt: HostRuntime) -> Result<(), Fail> {
    let mut all = make_forks(rt.alloc())?;
    assert!(rt; takes_two(&mut all.fork));
    all.fork.freeze()?;
    assert!(rt; takes_two(&mut all.fork));
    assert!(rt; !put(&mut all.other, ZERO, 1) && counts(&all.other, 0, 0));
    Ok(())
}
