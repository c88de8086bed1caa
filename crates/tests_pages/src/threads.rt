// Two threads fork one frozen state, each writes in its fork, and one takes the other's fork.
use crate::writes::put;
use cow_pages::{Pages, Shared};
use std::alloc::{AllocError, Global};
use std::test::Fail;
use std::thread;

// A fork in which the first byte of a page is another one.
fn forked(alloc: Global, base: &Shared, page: u32, byte: u8) -> Result<Pages, AllocError> {
    let mut fork = Pages::fork(alloc, base, 1)?;
    let _is_put = page < 1_048_576 && put(&mut fork, page, 0, byte);
    Ok(fork)
}

#[test]
fn two_threads_fork_one_state(rt: HostRuntime) -> Result<(), Fail> {
    let alloc = rt.alloc();
    let mut pages = Pages::empty(alloc, 1)?;
    assert!(rt; put(&mut pages, 16, 0, 4));
    let base = pages.freeze()?;
    let (one, other) = thread::join(
        &rt,
        || forked(alloc, &base, 16, 7),
        || forked(alloc, &base, 17, 9),
    );
    let one = one?;
    let other = other?;
    assert!(rt; one.read(16, 0) == 7 && one.read(17, 0) == 0);
    assert!(rt; other.read(16, 0) == 4 && other.read(17, 0) == 9);
    assert!(rt; base.read(16, 0) == 4 && base.read(17, 0) == 0);
    Ok(())
}
