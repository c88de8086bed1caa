// All pages that can be mapped.
use crate::writes::put;
use guest_mem::Space;
use std::test::Fail;

const PAGES: u32 = 16_384;

const PAGE_SIZE: u32 = 4096;

// Puts a byte at the start of each of the pages from `at` on, and says whether each had a frame.
fn fill(space: &mut Space, at: u32, byte: u8) -> bool {
    for page in 0..PAGES {
        if !put(space, at.wrapping_add(page * PAGE_SIZE), byte) {
            return false;
        }
    }
    true
}

// Whether the pages from `at` on are mapped next, and each can be written then and no more.
fn is_filled(space: &mut Space, at: u32, byte: u8) -> bool {
    space.map(PAGES * PAGE_SIZE, 3, 0x22) == at && fill(space, at, byte) && space.free() == 0
}

// Whether the same pages are unmapped, and each frame is free then.
fn is_emptied(space: &mut Space, at: u32) -> bool {
    space.unmap(at, PAGES * PAGE_SIZE) == 0 && space.free() == PAGES
}

#[test]
fn all_pages_are_written_unmapped_and_written_again(rt: HostRuntime) -> Result<(), Fail> {
    let mut space = Space::empty(rt.alloc(), 0x20000, PAGES)?;
    assert!(rt; is_filled(&mut space, 0x40000000, 1) && space.written() == 16_384);
    assert!(rt; space.peek_byte(0x43fff000) == 1 && is_emptied(&mut space, 0x40000000));
    assert!(rt; space.peek_byte(0x43fff000) == 0 && space.written() == 16_384);
    assert!(rt; is_filled(&mut space, 0x44000000, 2) && space.written() == 32_768);
    assert!(rt; space.peek_byte(0x47fff000) == 2 && space.peek_byte(0x47fff001) == 0);
    assert!(rt; is_emptied(&mut space, 0x44000000) && space.written() == 32_768);
    Ok(())
}
