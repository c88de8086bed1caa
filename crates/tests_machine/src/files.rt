// The files that a guest has open.
use rv_machine::Guest;
use sample_files::{EXIT_7, guest_of, one_segment};
use std::test::Fail;

// Moves on in an open file. False where the descriptor is closed.
fn move_on(guest: &mut Guest, fd: u32, by: u32) -> bool {
    if guest.descriptor(fd).is_none() {
        return false;
    }
    guest.advance(fd, by);
    true
}

// Opens a file so often, and answers the last descriptor.
fn open_more(guest: &mut Guest, count: u32) -> Option<u32> {
    let mut last = None;
    for _ in 0..count {
        last = guest.open_file("d");
    }
    last
}

#[test]
fn opens_the_least_descriptor(rt: HostRuntime) -> Result<(), Fail> {
    let file = one_segment(rt.alloc(), &EXIT_7)?;
    let mut guest = guest_of(rt.alloc(), &file, &[]).ok_or("no guest")?;
    assert!(rt; guest.descriptor(3).is_none() && guest.descriptor_name(3).is_none());
    assert!(rt; guest.open_file("a") == Some(3) && guest.open_file("b/c") == Some(4));
    assert!(rt; open_more(&mut guest, 14) == Some(18) && guest.open_file("e").is_none());
    assert!(rt; guest.descriptor(18) == Some(0) && guest.descriptor(19).is_none());
    assert!(rt;
        guest.close_file(7) && !guest.close_file(7) && !guest.close_file(2) && !guest.close_file(19)
    );
    assert!(rt; guest.open_file("f") == Some(7) && guest.descriptor_name(7) == Some("f"));
    assert!(rt; guest.descriptor_name(4) == Some("b/c"));
    Ok(())
}

#[test]
fn a_fork_has_its_own_places(rt: HostRuntime) -> Result<(), Fail> {
    let file = one_segment(rt.alloc(), &EXIT_7)?;
    let mut guest = guest_of(rt.alloc(), &file, &[]).ok_or("no guest")?;
    assert!(rt;
        guest.open_file("a") == Some(3) && move_on(&mut guest, 3, 5) && !move_on(&mut guest, 4, 5)
    );
    let snapshot = guest.snapshot()?;
    let mut fork = Guest::from_snapshot(rt.alloc(), &snapshot, 4)?;
    assert!(rt; fork.descriptor(3) == Some(5) && fork.descriptor_name(3) == Some("a"));
    assert!(rt; move_on(&mut fork, 3, 0xFFFF_FFFF) && fork.descriptor(3) == Some(0x1_0000_0004));
    assert!(rt; guest.descriptor(3) == Some(5));
    Ok(())
}
