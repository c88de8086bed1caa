// Two threads fork one frozen space, each writes in its fork, and one takes the other's fork.
use crate::space::small;
use crate::writes::put;
use guest_mem::{FrozenSpace, Space};
use std::alloc::{AllocError, Global};
use std::test::Fail;
use std::thread;

// A fork in which the byte at an address is another one.
fn forked(alloc: Global, base: &FrozenSpace, at: u32, byte: u8) -> Result<Space, AllocError> {
    let mut fork = Space::fork(alloc, base, 1)?;
    let _is_put = put(&mut fork, at, byte);
    Ok(fork)
}

// Whether the bytes at 0x11000 and 0x12000 are these.
fn holds(space: &Space, first: u8, second: u8) -> bool {
    space.peek_byte(0x11000) == first && space.peek_byte(0x12000) == second
}

#[test]
fn two_threads_fork_one_space(rt: HostRuntime) -> Result<(), Fail> {
    let alloc = rt.alloc();
    let base = small(alloc)?.freeze()?;
    let (one, other) = thread::join(
        &rt,
        || forked(alloc, &base, 0x11000, 7),
        || forked(alloc, &base, 0x12000, 9),
    );
    assert!(rt; holds(&one?, 7, 3) && holds(&other?, 0, 9));
    assert!(rt; base.peek_byte(0x11000) == 0 && base.peek_byte(0x12000) == 3);
    Ok(())
}
