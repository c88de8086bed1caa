// Guests at position 0, whose words, bytes and areas were worked out by hand.
use guest_mem::{Area, Denied};
use rv_machine::{Guest, LoadFault};
use sample_files::{EXIT_7, LOAD_PAST_DATA, guest_of, one_segment, two_segments};
use std::alloc::{AllocError, Global};
use std::test::Fail;

// Whether the words stand from `at` on.
fn has_words(guest: &Guest, at: u32, words: &[u32]) -> bool {
    let mut at = at;
    for word in words {
        if guest.space().load(at, 4) != Ok(*word) {
            return false;
        }
        at = at.wrapping_add(4);
    }
    true
}

fn has_bytes(guest: &Guest, at: u32, bytes: &[u8]) -> bool {
    let mut at = at;
    for byte in bytes {
        if guest.space().peek_byte(at) != *byte {
            return false;
        }
        at = at.wrapping_add(1);
    }
    true
}

// A string of `len` times `a`.
fn string_of(alloc: Global, len: u32) -> Result<String, AllocError> {
    let mut text = String::new(alloc);
    for _i in 0..len {
        text.push('a')?;
    }
    Ok(text)
}

// From the stack pointer on: argc, the argument, two zeros, and the auxiliary vector.
const ONE_ARGUMENT: [u32; 18] = [
    1, 0x7fffefee, 0, 0, 3, 0x10034, 4, 32, 5, 1, 6, 4096, 9, 0x10054, 25, 0x7fffeff0, 0, 0,
];

const RANDOM: [u8; 16] = [0, 1, 2, 3, 4, 5, 6, 7, 8, 9, 10, 11, 12, 13, 14, 15];

#[test]
fn one_argument(rt: HostRuntime) -> Result<(), Fail> {
    let alloc = rt.alloc();
    let file = one_segment(alloc, &EXIT_7)?;
    let guest = guest_of(alloc, &file, &[String::from_str(alloc, "a")?]).ok_or("no guest")?;
    assert!(rt; guest.pc() == 0x10054 && guest.reg(2) == 0x7fffefa0 && guest.fresh());
    for n in 0..32 {
        assert!(rt; n == 2 || guest.reg(n) == 0, "register {n}");
    }
    assert!(rt; has_words(&guest, 0x7fffefa0, &ONE_ARGUMENT));
    assert!(rt; has_bytes(&guest, 0x7fffefee, b"a\0") && has_bytes(&guest, 0x7fffeff0, &RANDOM));
    Ok(())
}

#[test]
fn three_arguments(rt: HostRuntime) -> Result<(), Fail> {
    let alloc = rt.alloc();
    let args = [
        String::from_str(alloc, "a")?,
        String::from_str(alloc, "")?,
        String::from_str(alloc, "bc")?,
    ];
    let guest = guest_of(alloc, &one_segment(alloc, &EXIT_7)?, &args).ok_or("no guest")?;
    assert!(rt; guest.reg(2) == 0x7fffef90);
    let words = [3, 0x7fffefea, 0x7fffefec, 0x7fffefed, 0, 0, 3, 0x10034];
    assert!(rt; has_words(&guest, 0x7fffef90, &words));
    assert!(rt; has_words(&guest, 0x7fffefd0, &[25, 0x7fffeff0, 0, 0, 0, 0]));
    assert!(rt; has_bytes(&guest, 0x7fffefe8, b"\0\0a\0\0bc\0\x00\x01\x02"));
    Ok(())
}

#[test]
fn long_arguments(rt: HostRuntime) -> Result<(), Fail> {
    let alloc = rt.alloc();
    let file = one_segment(alloc, &EXIT_7)?;
    let guest = guest_of(alloc, &file, &[string_of(alloc, 65_535)?]).ok_or("no guest")?;
    assert!(rt; guest.reg(2) == 0x7ffeefa0);
    assert!(rt; has_words(&guest, 0x7ffeefa0, &[1, 0x7ffeeff0, 0]));
    assert!(rt; has_bytes(&guest, 0x7fffefee, b"a\0\x00\x01"));
    let image = elf_load::load(alloc, &file).ok().ok_or("refused")?;
    let longer = Guest::load(alloc, &image, &[string_of(alloc, 65_536)?], 0);
    assert!(rt; longer.err() == Some(LoadFault::ArgsTooLong { bytes: 65_537 }));
    Ok(())
}

// Code, data, the empty heap and the stack.
const AREAS: [Area; 4] = [
    Area {
        start: 0x10000,
        end: 0x11000,
        read: true,
        write: false,
        execute: true,
    },
    Area {
        start: 0x20000,
        end: 0x22000,
        read: true,
        write: true,
        execute: false,
    },
    Area {
        start: 0x22000,
        end: 0x22000,
        read: true,
        write: true,
        execute: false,
    },
    Area {
        start: 0x7feff000,
        end: 0x7ffff000,
        read: true,
        write: true,
        execute: false,
    },
];

#[test]
fn areas_of_two_segments(rt: HostRuntime) -> Result<(), Fail> {
    let file = two_segments(rt.alloc(), &LOAD_PAST_DATA)?;
    let guest = guest_of(rt.alloc(), &file, &[]).ok_or("no guest")?;
    let space = guest.space();
    assert!(rt; space.areas() == AREAS.as_slice());
    assert!(rt; space.heap_break() == 0x22000 && space.next_map() == 0x40000000);
    assert!(rt; space.written() == 0 && space.free() == 16_384);
    assert!(rt; has_words(&guest, 0x10074, &[0x000222b7, 0xffe2a303, 0]));
    for zero in [0x10ffc, 0x20000, 0x21ffc, 0x7feff000] {
        assert!(rt; space.load(zero, 4) == Ok(0), "at {zero:#x}");
    }
    for outside in [0xfffc, 0x11000, 0x22000, 0x7fefeffc, 0x7ffff000] {
        assert!(rt; space.load(outside, 4) == Err(Denied), "at {outside:#x}");
    }
    assert!(rt; space.fetch(0x10074) == Ok(0x000222b7) && space.fetch(0x20000) == Err(Denied));
    Ok(())
}
