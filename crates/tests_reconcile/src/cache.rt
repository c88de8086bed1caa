// The cache.
use crate::samples::{Row, shows, views_of};
use cache_tool::DirectCache;
use sample_files::{EXIT_7, one_segment};
use std::test::Fail;

// Sizes of a cache, accesses, and its text.
struct Case<'a> {
    sets: u32,
    line: u32,
    accesses: &'a [Row],
    text: &'a str,
}

// Two lines at once; one line twice; a size of 0, which is that of one byte; and events of another number.
const SMALL: [Case<'static>; 5] = [
    Case {
        sets: 2,
        line: 4,
        accesses: &[(0, 0x20002, 4), (0, 0x20002, 4)],
        text: "cache 2 4 accesses 4 hits 2 misses 2\n",
    },
    Case {
        sets: 1,
        line: 4,
        accesses: &[(0, 0x20002, 4), (0, 0x20002, 4)],
        text: "cache 1 4 accesses 4 hits 0 misses 4\n",
    },
    Case {
        sets: 2,
        line: 16,
        accesses: &[(0, 0x20000, 4), (0, 0x20004, 4)],
        text: "cache 2 16 accesses 2 hits 1 misses 1\n",
    },
    Case {
        sets: 2,
        line: 16,
        accesses: &[
            (0, 0x2000f, 0),
            (0, 0x2000f, 1),
            (0, 0x20010, 1),
            (0, 0x2000f, 2),
        ],
        text: "cache 2 16 accesses 5 hits 3 misses 2\n",
    },
    Case {
        sets: 64,
        line: 32,
        accesses: &[(1, 0x20000, 4), (0, 0x20000, 4), (255, 0x20000, 4)],
        text: "cache 64 32 accesses 1 hits 0 misses 1\n",
    },
];

// A word at the last addresses, whose last bytes are the first of memory; and as many sets as there may be.
const LARGE: [Case<'static>; 4] = [
    Case {
        sets: 2,
        line: 16,
        accesses: &[(0, 0xfffffffe, 4), (0, 0, 1), (0, 0xffffffff, 1)],
        text: "cache 2 16 accesses 4 hits 2 misses 2\n",
    },
    Case {
        sets: 1,
        line: 4096,
        accesses: &[(0, 0xfffffffe, 4), (0, 0, 1), (0, 0xffffffff, 1)],
        text: "cache 1 4096 accesses 4 hits 1 misses 3\n",
    },
    Case {
        sets: 4096,
        line: 4,
        accesses: &[
            (0, 0, 4),
            (0, 0x4000, 4),
            (0, 0, 4),
            (0, 0x3ffc, 4),
            (0, 0x3ffc, 4),
        ],
        text: "cache 4096 4 accesses 5 hits 1 misses 4\n",
    },
    Case {
        sets: 4096,
        line: 4096,
        accesses: &[
            (0, 0, 4),
            (0, 0x1000, 4),
            (0, 0xffe, 4),
            (0, 0x1000000, 4),
            (0, 0, 4),
        ],
        text: "cache 4096 4096 accesses 6 hits 2 misses 4\n",
    },
];

#[test]
fn texts(rt: HostRuntime) -> Result<(), Fail> {
    let alloc = rt.alloc();
    let views = views_of(alloc, &one_segment(alloc, &EXIT_7)?)?;
    for case in SMALL.iter().chain(&LARGE) {
        let tool = DirectCache::new(case.sets, case.line).ok_or("sizes")?;
        assert!(rt; shows(alloc, &tool, &views, case.accesses, case.text)?);
    }
    Ok(())
}

#[test]
fn sizes(rt: HostRuntime) -> Result<(), Fail> {
    let good = [(1, 4), (4096, 4096), (64, 32)];
    let bad = [
        (0, 32),
        (3, 32),
        (8192, 32),
        (64, 0),
        (64, 2),
        (64, 24),
        (64, 8192),
    ];
    for (sets, line) in &good {
        let cache = DirectCache::new(*sets, *line).ok_or("sizes")?;
        assert!(rt; cache.sets == *sets && cache.line == *line);
    }
    let usual = DirectCache::default();
    assert!(rt; usual.sets == 64 && usual.line == 32);
    for (sets, line) in &bad {
        assert!(rt; DirectCache::new(*sets, *line).is_none());
    }
    Ok(())
}
