// Each call of the table that goes on is served on one guest and played on another, and both are then compared.
ghost use Rattle.std.specs.Prelude.{◌≡◌};
ghost use Rattle.guest_model.specs.Effect.{Effect, effect_of};

use call_playback::{fits, play};
use rv_machine::{Guest, Stepped};
use sample_files::{guest_of, push_call, two_segments};
use sp_host::{FaultPlan, MemoryHost};
use std::alloc::{AllocError, Global};
use std::process::Abort;
use std::test::Fail;
use syscall_layer::{Served, serve};

const DATA: u32 = 0x20000;

const MAP: u32 = 0x40000000;

// A call: its number, x10 to x13.
#[derive(Clone, Copy)]
struct Row(u32, [u32; 4]);

// Each number of the table, where the call goes through and where it fails. The first read fills the array of ranges for
// readv and writev: three bytes at 0x20100 and five at 0x20fff, which lie in two pages.
const ROWS: [Row; 24] = [
    Row(63, [0, DATA, 16, 0]),
    Row(65, [0, DATA, 2, 0]),
    Row(65, [0, DATA, 1025, 0]),
    Row(66, [1, DATA, 2, 0]),
    Row(66, [2, MAP, 2, 0]),
    Row(64, [1, 0x20fff, 5, 0]),
    Row(64, [3, DATA, 5, 0]),
    Row(29, [1, 0x5413, DATA, 0]),
    Row(96, [DATA, 0, 0, 0]),
    Row(172, [0, 0, 0, 0]),
    Row(178, [0, 0, 0, 0]),
    Row(403, [1, 0x21ff8, 0, 0]),
    Row(403, [1, 0x21ff0, 0, 0]),
    Row(214, [0, 0, 0, 0]),
    Row(214, [0x25001, 0, 0, 0]),
    Row(403, [0, 0x24ffa, 0, 0]),
    Row(222, [0, 81_920, 3, 0x22]),
    Row(222, [0, 4096, 3, 0x32]),
    Row(63, [0, MAP + 1, 70_000, 0]),
    Row(63, [0, MAP, 70_000, 0]),
    // the middle of the map, which splits it; a hole; and what is no map
    Row(215, [MAP + 4096, 4096, 0, 0]),
    Row(215, [MAP, 8192, 0, 0]),
    Row(215, [DATA, 4096, 0, 0]),
    Row(63, [0, MAP, 4, 0]),
];

// The words that make these calls in order.
fn code_of(alloc: Global, rows: &[Row]) -> Result<Vec<u32>, AllocError> {
    let mut words = Vec::new(alloc);
    for Row(number, arguments) in rows {
        push_call(&mut words, *number, *arguments)?;
    }
    Ok(words)
}

// Serves the call of a guest, plays its record on another guest that stands at the same call, and tells whether both are
// the same then. The other guest has 31 frames.
fn same_when_played(
    alloc: Global,
    guest: &mut Guest,
    host: &mut MemoryHost,
) -> Result<bool, AllocError>
    requires call { effect_of guest.old.machine ≡ Effect.Call }
    requires frames { guest.old.frames.count ≡ 16384 }
    ensures { guest.new.frames.count ≡ 16384 }
{
    let base = guest.snapshot()?;
    let mut other = Guest::from_snapshot(alloc, &base, 31)?;
    let Ok(Served::Went(record)) = serve(alloc, guest, host) else {
        return Ok(false);
    };
    if !fits(&other, &record) {
        return Ok(false);
    }
    play(&mut other, &record);
    let end = guest.snapshot()?;
    Ok(other.same_as(&base, &end))
}

// Runs a guest up to its next call, and serves and plays it. False where that is not within eleven steps.
fn next_call(alloc: Global, guest: &mut Guest, host: &mut MemoryHost) -> Result<bool, AllocError>
    requires { guest.old.frames.count ≡ 16384 }
    ensures { guest.new.frames.count ≡ 16384 }
{
    for _i in 0..11 {
        match guest.step() {
            Stepped::Next => {}
            Stepped::Call => return same_when_played(alloc, guest, host),
            Stepped::Fault(_) => return Ok(false),
        }
    }
    Ok(false)
}

// The array of ranges, five bytes for them, and 65,536 bytes.
fn input_of(alloc: Global) -> Result<Vec<u8>, AllocError> {
    let mut input = vec![in alloc; 7u8; 0]?;
    input.extend_from_slice(
        b"\x00\x01\x02\x00\x03\x00\x00\x00\xff\x0f\x02\x00\x05\x00\x00\x00abcdefgh",
    )?;
    for k in 0..65_536u32 {
        input.push((k % 251) as u8)?;
    }
    Ok(input)
}

// Serves and plays these calls in order.
fn expect(
    rt: &(impl Abort + AllocGlobal),
    host: &mut MemoryHost,
    rows: &[Row],
) -> Result<(), Fail> {
    let alloc = rt.alloc();
    let file = two_segments(alloc, &code_of(alloc, rows)?)?;
    let mut guest = guest_of(alloc, &file, &[]).ok_or("no guest")?;
    for k in 0..rows.len() {
        let same = next_call(alloc, &mut guest, host)?;
        assert!(rt; same, "call {k}");
    }
    Ok(())
}

#[test]
fn a_play_repeats_what_was_served(rt: HostRuntime) -> Result<(), Fail> {
    let alloc = rt.alloc();
    let moments = [1_500_000_007, 2_000_000_000].to_vec(alloc)?;
    let plan = FaultPlan::new(alloc, 65_536, 65_536);
    let mut host = MemoryHost::new(alloc, Vec::new(alloc), input_of(alloc)?, moments, plan)?;
    expect(&rt, &mut host, &ROWS)
}
