// A small space: a page of code, and behind it two pages of data. It has a frame for each page that
// can be mapped.
ghost use Rattle.std.specs.Prelude.{◌≡◌, IfOk};

use guest_mem::{Area, Denied, Space};
use std::alloc::{AllocError, Global};
use std::test::Fail;

const CODE: Area = Area {
    start: 0x10000,
    end: 0x11000,
    read: true,
    write: false,
    execute: true,
};

const DATA: Area = Area {
    start: 0x11000,
    end: 0x13000,
    read: true,
    write: true,
    execute: false,
};

pub(crate) fn small(alloc: Global) -> Result<Space, AllocError>
    ensures { IfOk result (λ space. space.frames.count ≡ 16384) }
{
    let mut space = Space::empty(alloc, 0x20000, 16_384)?;
    space.add_area(CODE, 0x10000, &[0x13, 0x05, 0x10, 0x00])?;
    space.add_area(DATA, 0x11ffe, &[1, 2, 3, 4])?;
    Ok(space)
}

// How many pages were written, and how many frames they have.
fn counts(space: &Space, written: u32, framed: u32) -> bool {
    space.written() == written && space.free() == 16_384 - framed.min(16_384)
}

// A load of 1, 2 or 4 bytes, and what it gives. None: it is denied.
struct Load {
    at: u32,
    size: u8,
    gives: Option<u32>,
}

const LOADS: [Load; 12] = [
    Load {
        at: 0x10000,
        size: 4,
        gives: Some(0x00100513),
    },
    Load {
        at: 0x10001,
        size: 2,
        gives: Some(0x1005),
    },
    Load {
        at: 0x10003,
        size: 1,
        gives: Some(0),
    },
    Load {
        at: 0x10ffe,
        size: 4,
        gives: Some(0),
    },
    Load {
        at: 0x11ffc,
        size: 4,
        gives: Some(0x02010000),
    },
    Load {
        at: 0x11ffd,
        size: 4,
        gives: Some(0x03020100),
    },
    Load {
        at: 0x11fff,
        size: 2,
        gives: Some(0x0302),
    },
    Load {
        at: 0x12001,
        size: 1,
        gives: Some(4),
    },
    Load {
        at: 0x12ffd,
        size: 4,
        gives: None,
    },
    Load {
        at: 0x0ffff,
        size: 2,
        gives: None,
    },
    Load {
        at: 0xfffffffe,
        size: 4,
        gives: None,
    },
    Load {
        at: 0x20000,
        size: 1,
        gives: None,
    },
];

fn is_loaded(space: &Space, row: &Load) -> bool {
    let size = match row.size {
        1 => 1,
        2 => 2,
        _ => 4,
    };
    space.load(row.at, size).ok() == row.gives
}

#[test]
fn loads(rt: HostRuntime) -> Result<(), Fail> {
    let space = small(rt.alloc())?;
    for (k, row) in LOADS.iter().enumerate() {
        assert!(rt; is_loaded(&space, row), "load {k}");
    }
    assert!(rt; space.fetch(0x10000) == Ok(0x00100513));
    assert!(rt; space.fetch(0x10ffe) == Err(Denied) && space.fetch(0x11000) == Err(Denied));
    assert!(rt; space.peek_byte(0x12000) == 3 && space.peek_byte(0x9000) == 0);
    assert!(rt; space.heap_break() == 0x20000 && space.next_map() == 0x40000000);
    assert!(rt; space.areas().len() == 3);
    Ok(())
}

#[test]
fn permits(rt: HostRuntime) -> Result<(), Fail> {
    let space = small(rt.alloc())?;
    assert!(rt; space.readable(0x10000, 0x3000) && !space.readable(0x10000, 0x3001));
    assert!(rt; space.writable(0x11000, 0x2000) && !space.writable(0x11000, 0x2001));
    assert!(rt; space.readable(0x9000, 0) && space.readable(0xffffffff, 0));
    assert!(rt; !space.readable(0xffffffff, 2));
    Ok(())
}

// Stores the low bytes of a number, 1 or 4 of them, and answers whether that was not denied.
fn store(space: &mut Space, at: u32, size: u8, value: u32) -> bool
    requires { space.old.frames.count ≡ 16384 }
    ensures { space.new.frames.count ≡ 16384 }
{
    let size = if size == 1 { 1 } else { 4 };
    space.store(at, size, value).is_ok()
}

#[test]
fn stores(rt: HostRuntime) -> Result<(), Fail> {
    let mut space = small(rt.alloc())?;
    assert!(rt; counts(&space, 0, 0));
    assert!(rt; !store(&mut space, 0x12ffd, 4, 0xddccbbaa) && !store(&mut space, 0x10ffe, 4, 1));
    assert!(rt; counts(&space, 0, 0) && space.load(0x12ffc, 4) == Ok(0));
    assert!(rt; store(&mut space, 0x11ffe, 4, 0xddccbbaa));
    assert!(rt; counts(&space, 2, 2) && space.load(0x11ffe, 4) == Ok(0xddccbbaa));
    assert!(rt; store(&mut space, 0x12002, 1, 0x1ff));
    assert!(rt; counts(&space, 2, 2) && space.load(0x12000, 4) == Ok(0x00ffddcc));
    Ok(())
}

#[test]
fn puts(rt: HostRuntime) -> Result<(), Fail> {
    let mut space = small(rt.alloc())?;
    assert!(rt; space.writable(0x9000, 0));
    space.put(0x9000, &[]);
    assert!(rt; counts(&space, 0, 0));
    assert!(rt; space.writable(0x11fff, 3));
    space.put(0x11fff, &[7, 8, 9]);
    assert!(rt; space.load(0x11ffe, 4) == Ok(0x09080701) && space.load(0x12000, 4) == Ok(0x0908));
    assert!(rt; counts(&space, 2, 2));
    Ok(())
}

// Where the heap is to end, and where it ends then.
struct Break {
    to: u32,
    end: u32,
}

const BREAKS: [Break; 7] = [
    Break {
        to: 0,
        end: 0x20000,
    },
    Break {
        to: 0x1ffff,
        end: 0x20000,
    },
    Break {
        to: 0x20001,
        end: 0x20001,
    },
    Break {
        to: 0x20000,
        end: 0x20001,
    },
    Break {
        to: 0x23fff,
        end: 0x23fff,
    },
    Break {
        to: 0x40000001,
        end: 0x23fff,
    },
    Break {
        to: 0x401d001,
        end: 0x23fff,
    },
];

fn ends(space: &mut Space, row: &Break) -> bool
    ensures { space.new.frames ≡ space.old.frames }
{
    space.grow_break(row.to) == row.end && space.heap_break() == row.end
}

#[test]
fn grows(rt: HostRuntime) -> Result<(), Fail> {
    let mut space = small(rt.alloc())?;
    for (k, row) in BREAKS.iter().enumerate() {
        assert!(rt; ends(&mut space, row), "break {k}");
    }
    assert!(rt; space.areas().len() == 3 && counts(&space, 0, 0));
    assert!(rt; space.load(0x23ffc, 4) == Ok(0) && space.load(0x24000, 1) == Err(Denied));
    assert!(rt; space.writable(0x20000, 0x4000) && !space.writable(0x20000, 0x4001));
    Ok(())
}

// EINVAL and ENOMEM, as the results of calls.
const BAD_ARGUMENT: u32 = 0xffffffea;

const NO_ROOM: u32 = 0xfffffff4;

// A map, and its result.
struct Map {
    len: u32,
    prot: u32,
    flags: u32,
    result: u32,
}

const MAPS: [Map; 10] = [
    Map {
        len: 0,
        prot: 3,
        flags: 0x22,
        result: BAD_ARGUMENT,
    },
    Map {
        len: 1,
        prot: 3,
        flags: 0x32,
        result: BAD_ARGUMENT,
    },
    Map {
        len: 1,
        prot: 3,
        flags: 0x21,
        result: BAD_ARGUMENT,
    },
    Map {
        len: 1,
        prot: 3,
        flags: 0x02,
        result: BAD_ARGUMENT,
    },
    Map {
        len: 1,
        prot: 7,
        flags: 0x22,
        result: BAD_ARGUMENT,
    },
    Map {
        len: 0x4000000,
        prot: 3,
        flags: 0x22,
        result: NO_ROOM,
    },
    Map {
        len: 0xffffffff,
        prot: 3,
        flags: 0x22,
        result: NO_ROOM,
    },
    Map {
        len: 1,
        prot: 3,
        flags: 0x4022,
        result: 0x40000000,
    },
    Map {
        len: 0x1001,
        prot: 1,
        flags: 0x22,
        result: 0x40001000,
    },
    Map {
        len: 0x1000,
        prot: 0,
        flags: 0x22,
        result: 0x40003000,
    },
];

#[test]
fn maps(rt: HostRuntime) -> Result<(), Fail> {
    let mut space = small(rt.alloc())?;
    for (k, row) in MAPS.iter().enumerate() {
        assert!(rt;
            space.map(row.len, row.prot, row.flags) == row.result,
            "map {k}"
        );
    }
    assert!(rt; space.next_map() == 0x40004000 && space.areas().len() == 6);
    assert!(rt; space.load(0x40000ffe, 4) == Ok(0));
    assert!(rt; space.writable(0x40000000, 0x1000) && !space.writable(0x40000000, 0x1001));
    assert!(rt; space.readable(0x40000000, 0x3000) && !space.readable(0x40000000, 0x3001));
    Ok(())
}

// A range that cannot be unmapped.
struct Unmapped {
    at: u32,
    len: u32,
}

const NO_RANGES: [Unmapped; 5] = [
    Unmapped {
        at: 0x40000800,
        len: 0x1000,
    },
    Unmapped {
        at: 0x40000000,
        len: 0,
    },
    Unmapped {
        at: 0x3ffff000,
        len: 0x2000,
    },
    Unmapped {
        at: 0x7fdff000,
        len: 0x1001,
    },
    Unmapped {
        at: 0x40000000,
        len: 0xffffffff,
    },
];

#[test]
fn unmaps(rt: HostRuntime) -> Result<(), Fail> {
    let mut space = small(rt.alloc())?;
    assert!(rt; space.map(0x3000, 3, 0x22) == 0x40000000);
    assert!(rt; store(&mut space, 0x40000ffe, 4, 0xddccbbaa));
    for (k, row) in NO_RANGES.iter().enumerate() {
        assert!(rt; space.unmap(row.at, row.len) == BAD_ARGUMENT, "range {k}");
    }
    assert!(rt; counts(&space, 2, 2));
    assert!(rt; space.unmap(0x40001000, 1) == 0 && counts(&space, 2, 1));
    assert!(rt; space.areas().len() == 5 && space.next_map() == 0x40003000);
    assert!(rt; space.load(0x40000ffe, 2) == Ok(0xbbaa) && space.load(0x40002000, 4) == Ok(0));
    assert!(rt; space.load(0x40001000, 1) == Err(Denied) && space.peek_byte(0x40001000) == 0);
    assert!(rt; space.unmap(0x40000000, 0x10000) == 0 && counts(&space, 2, 0));
    assert!(rt; space.areas().len() == 3);
    Ok(())
}

#[test]
fn fills_up(rt: HostRuntime) -> Result<(), Fail> {
    let mut space = small(rt.alloc())?;
    for k in 0..60 {
        assert!(rt;
            space.map(0x1000, 3, 0x22) == 0x40000000 + 0x1000 * k,
            "map {k}"
        );
    }
    assert!(rt; space.map(0x3000, 3, 0x22) == 0x4003c000 && space.areas().len() == 64);
    assert!(rt; space.map(0x1000, 3, 0x22) == NO_ROOM);
    assert!(rt; space.unmap(0x4003d000, 0x1000) == NO_ROOM);
    assert!(rt; space.unmap(0x40000000, 0x1000) == 0 && space.unmap(0x4003d000, 0x1000) == 0);
    assert!(rt; space.areas().len() == 64);
    Ok(())
}
