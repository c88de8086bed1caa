// The call trace. The numbers of its events are 0 for a call, 1 for a return, and 2 for a return that is a call too.
use crate::samples::{Row, shows, views_of};
use sample_files::{EXIT_7, one_segment, symbol_file};
use std::test::Fail;
use tool_calls::CallTrace;

// Three deep and back, and one more call.
const DEEP: [Row; 8] = [
    (0, 0x10054, 0x10068),
    (0, 0x1006c, 0x10078),
    (0, 0x1007c, 0x10088),
    (1, 0x10088, 0x10080),
    (1, 0x10084, 0x10070),
    (1, 0x10074, 0x10058),
    (0, 0x10058, 0x10088),
    (1, 0x10088, 0x1005c),
];

const DEEP_LINES: &str =
    "call 0 0x00010054 0x00010068 -\ncall 1 0x0001006c 0x00010078 -\ncall 2 0x0001007c 0x00010088 -\ncall 0 0x00010058 0x00010088 -\n";

// Two returns at depth 0, which leave it at 0; a return that is a call too, which returns first; and an event of another number.
const FLAT: [Row; 9] = [
    (1, 0, 4),
    (1, 4, 8),
    (0, 8, 12),
    (0, 12, 16),
    (2, 16, 20),
    (3, 20, 24),
    (1, 24, 28),
    (1, 28, 32),
    (2, 32, 36),
];

const FLAT_LINES: &str =
    "call 0 0x00000008 0x0000000c -\ncall 1 0x0000000c 0x00000010 -\ncall 1 0x00000010 0x00000014 -\ncall 0 0x00000020 0x00000024 -\n";

// To `main`, which begins at 0x10074, and to an address before every routine.
const NAMED: [Row; 2] = [(0, 0x10078, 0x10074), (0, 0x10074, 0x10070)];

const NAMED_LINES: &str = "call 0 0x00010078 0x00010074 main\ncall 1 0x00010074 0x00010070 -\n";

#[test]
fn depths(rt: HostRuntime) -> Result<(), Fail> {
    let alloc = rt.alloc();
    let views = views_of(alloc, &one_segment(alloc, &EXIT_7)?)?;
    assert!(rt; shows(alloc, &CallTrace, &views, &DEEP, DEEP_LINES)?);
    assert!(rt; shows(alloc, &CallTrace, &views, &FLAT, FLAT_LINES)?);
    Ok(())
}

#[test]
fn names_of_targets(rt: HostRuntime) -> Result<(), Fail> {
    let alloc = rt.alloc();
    let views = views_of(alloc, &symbol_file(alloc)?)?;
    assert!(rt; shows(alloc, &CallTrace, &views, &NAMED, NAMED_LINES)?);
    Ok(())
}
