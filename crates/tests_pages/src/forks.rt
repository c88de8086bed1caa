// What is written in one fork shows nowhere else, and frames are counted.
use crate::writes::put;
use cow_pages::Pages;
use std::test::Fail;

/// The page where maps start.
const PAGE: u32 = 262_144;

/// As many frames as pages can be mapped.
const FRAMES: u32 = 16_384;

#[test]
fn a_write_shows_in_one_fork_alone(rt: HostRuntime) -> Result<(), Fail> {
    let mut pages = Pages::empty(rt.alloc(), 4)?;
    assert!(rt; put(&mut pages, PAGE + 1, 0, 5));
    let frozen = pages.freeze()?;
    let mut fork = Pages::fork(rt.alloc(), &frozen, 1)?;
    let other = Pages::fork(rt.alloc(), &frozen, 1)?;
    assert!(rt; put(&mut fork, PAGE, 9, 1));
    assert!(rt; fork.read(PAGE, 9) == 1 && fork.read(PAGE + 1, 0) == 5);
    for (name, byte) in [
        ("the frozen state", frozen.read(PAGE, 9)),
        ("another fork", other.read(PAGE, 9)),
        ("what went on", pages.read(PAGE, 9)),
    ] {
        assert!(rt; byte == 0, "{name}");
    }
    assert!(rt; put(&mut pages, PAGE, 9, 2));
    assert!(rt; fork.read(PAGE, 9) == 1 && frozen.read(PAGE, 9) == 0 && other.read(PAGE, 9) == 0);
    Ok(())
}

#[test]
fn a_dropped_page_reads_as_zeros(rt: HostRuntime) -> Result<(), Fail> {
    let mut pages = Pages::empty(rt.alloc(), 1)?;
    assert!(rt; put(&mut pages, PAGE, 4095, 1) && pages.free() == 0);
    let frozen = pages.freeze()?;
    assert!(rt; put(&mut pages, PAGE, 0, 2));
    pages.drop_page(PAGE);
    assert!(rt; pages.read(PAGE, 0) == 0 && pages.read(PAGE, 4095) == 0);
    assert!(rt; pages.written() == 1 && pages.free() == 1);
    assert!(rt; put(&mut pages, PAGE, 1, 3));
    assert!(rt; pages.read(PAGE, 1) == 3 && pages.read(PAGE, 4095) == 0 && pages.written() == 1);
    assert!(rt; frozen.read(PAGE, 4095) == 1 && frozen.read(PAGE, 0) == 0);
    Ok(())
}

#[test]
fn placed_bytes_take_no_frame(rt: HostRuntime) -> Result<(), Fail> {
    let mut pages = Pages::empty(rt.alloc(), 0)?;
    let bytes = vec![in rt.alloc(); 6; 4098]?;
    pages.place(16, 4095, &bytes)?;
    assert!(rt; pages.read(16, 4094) == 0 && pages.read(16, 4095) == 6);
    assert!(rt; pages.read(17, 0) == 6 && pages.read(17, 4095) == 6);
    assert!(rt; pages.read(18, 0) == 6 && pages.read(18, 1) == 0);
    assert!(rt; pages.written() == 0 && pages.free() == 0);
    assert!(rt;
        pages
            .slice(17, 1, 2)
            .is_some_and(|part| part == [6, 6].as_slice())
            && pages.slice(15, 0, 9).is_none()
    );
    Ok(())
}

// Writes each of the 16,384 pages from PAGE on, and says whether each had a frame.
fn fill(pages: &mut Pages, byte: u8) -> bool {
    for page in 0..FRAMES {
        if !put(pages, PAGE + page, page % 4096, byte) {
            return false;
        }
    }
    true
}

#[test]
fn all_frames_are_taken_given_back_and_taken_again(rt: HostRuntime) -> Result<(), Fail> {
    let mut pages = Pages::empty(rt.alloc(), FRAMES)?;
    for turn in 1..3 {
        assert!(rt; fill(&mut pages, turn) && pages.free() == 0, "turn {turn}");
        assert!(rt;
            pages.read(PAGE + 9, 9) == turn && pages.read(PAGE + 9, 8) == 0,
            "turn {turn}"
        );
        for page in 0..FRAMES {
            pages.drop_page(PAGE + page);
        }
        assert!(rt;
            pages.free() == FRAMES && pages.written() == FRAMES,
            "turn {turn}"
        );
    }
    Ok(())
}
