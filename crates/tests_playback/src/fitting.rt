// Records made by hand, which fit the call at which a guest stands or do not.
ghost use Rattle.std.specs.Prelude.{◌≡◌};

use call_playback::fits;
use call_record::{Record, Write};
use rv_machine::{Guest, Stepped};
use sample_files::{guest_of, push_call, two_segments};
use std::alloc::{AllocError, Global};
use std::test::Fail;

const CODE: u32 = 0x10000;

const DATA: u32 = 0x20000;

// What x17 is, the number of the record, how many writes it has, where each is and how many bytes it has, and whether the
// record fits.
#[derive(Clone, Copy)]
struct Row(u32, u32, usize, u32, usize, bool);

const ROWS: [Row; 30] = [
    Row(172, 172, 0, DATA, 0, true),
    // another number, and numbers of no row
    Row(172, 178, 0, DATA, 0, false),
    Row(178, 172, 0, DATA, 0, false),
    Row(1, 1, 0, DATA, 0, false),
    Row(57, 57, 0, DATA, 0, false),
    // calls that do not go on
    Row(93, 93, 0, DATA, 0, false),
    Row(94, 94, 0, DATA, 0, false),
    // up to eight writes, none of them empty
    Row(63, 63, 1, DATA, 1, true),
    Row(63, 63, 8, DATA, 1, true),
    Row(63, 63, 9, DATA, 1, false),
    Row(63, 63, 1, DATA, 0, false),
    Row(63, 63, 8, DATA, 0, false),
    // up to 65,536 bytes in all
    Row(65, 65, 8, DATA, 8192, true),
    Row(65, 65, 8, DATA, 8193, false),
    Row(65, 65, 2, 0x7fef_f000, 32_768, true),
    Row(65, 65, 2, 0x7fef_f000, 32_769, false),
    Row(65, 65, 1, 0x7fef_f000, 65_536, true),
    Row(65, 65, 1, 0x7fef_f000, 65_537, false),
    // the whole of the data, and a byte more; where nothing may be written, and where nothing is
    Row(403, 403, 1, 0x21ff0, 16, true),
    Row(403, 403, 1, 0x21ff1, 16, false),
    Row(403, 403, 1, CODE, 16, false),
    Row(403, 403, 1, 0x3000_0000, 16, false),
    Row(403, 403, 1, 0xffff_fff8, 16, false),
    // calls that change the areas store nothing
    Row(214, 214, 0, DATA, 0, true),
    Row(214, 214, 1, DATA, 1, false),
    Row(215, 215, 0, DATA, 0, true),
    Row(215, 215, 1, DATA, 1, false),
    Row(222, 222, 0, DATA, 0, true),
    Row(222, 222, 1, DATA, 1, false),
    Row(64, 64, 1, DATA, 1, true),
];

// The record of a row.
fn record_of(alloc: Global, row: &Row) -> Result<Record, AllocError> {
    let Row(_, number, count, at, size, _) = row;
    let mut writes = Vec::new(alloc);
    for _i in 0..*count {
        let bytes = vec![in alloc; 5u8; *size]?;
        writes.push(Write { at: *at, bytes })?;
    }
    Ok(Record {
        number: *number,
        result: 0,
        writes,
    })
}

// Runs a guest up to its call. False where that is not within eleven steps.
fn reach_call(guest: &mut Guest) -> bool
    requires { guest.old.frames.count ≡ 16384 }
{
    for _i in 0..11 {
        match guest.step() {
            Stepped::Next => {}
            Stepped::Call => return true,
            Stepped::Fault(_) => return false,
        }
    }
    false
}

// A guest that stands at a call of this number.
fn guest_at(alloc: Global, number: u32) -> Option<Guest> {
    let mut words = Vec::new(alloc);
    push_call(&mut words, number, [0; 4]).ok()?;
    let file = two_segments(alloc, &words).ok()?;
    let mut guest = guest_of(alloc, &file, &[])?;
    if reach_call(&mut guest) {
        Some(guest)
    } else {
        None
    }
}

#[test]
fn records_fit_or_do_not(rt: HostRuntime) -> Result<(), Fail> {
    let alloc = rt.alloc();
    for (k, row) in ROWS.iter().enumerate() {
        let guest = guest_at(alloc, row.0).ok_or("no call")?;
        let record = record_of(alloc, row)?;
        assert!(rt; fits(&guest, &record) == row.5, "row {k}");
    }
    Ok(())
}
