// Guests whose calls are encoded by hand, over a host in memory. Each answer is from Linux, or
// counted by hand.
ghost use Rattle.std.specs.Prelude.{◌≡◌, ◌<◌};

use call_record::Record;
use rv_machine::{Guest, Stepped};
use sample_files::{guest_of, push_call, two_segments};
use sp_host::{FaultPlan, MemoryHost, Port};
use std::alloc::{AllocError, Global};
use std::process::Abort;
use std::test::Fail;
use syscall_layer::{CallFault, Served, serve};

const CODE: u32 = 0x10000;

const DATA: u32 = 0x20000;

const MAP: u32 = 0x40000000;

// What a call answers.
#[derive(Clone, Copy)]
enum Answer {
    // A result. Nothing is stored.
    Went(u32),
    // A result, and the number of bytes that are stored first, from this address on, and the first
    // of them.
    Stored(u32, u32, usize, u8),
    // The run ends with this status.
    Exit(u8),
    Fails(CallFault),
}

use Answer::{Exit, Fails, Stored, Went};

// A call: its number, x10 to x13, and its answer.
#[derive(Clone, Copy)]
struct Row(u32, [u32; 4], Answer);

// EBADF, EFAULT, EINVAL, ENOTTY and ENOMEM, as the results of calls.
const BAD_FILE: u32 = 0xfffffff7;

const BAD_ADDRESS: u32 = 0xfffffff2;

const BAD_ARGUMENT: u32 = 0xffffffea;

const NO_TERMINAL: u32 = 0xffffffe7;

const NO_ROOM: u32 = 0xfffffff4;

// The words that make these calls in order.
fn code_of(alloc: Global, rows: &[Row]) -> Result<Vec<u32>, AllocError> {
    let mut words = Vec::new(alloc);
    for Row(number, arguments, _) in rows {
        push_call(&mut words, *number, *arguments)?;
    }
    Ok(words)
}

// Runs a guest up to its next call, and serves it. None where that is not within eleven steps.
fn next_call(
    alloc: Global,
    guest: &mut Guest,
    host: &mut MemoryHost,
) -> Option<Result<Served, CallFault>>
    requires { guest.old.frames.count ≡ 16384 }
    ensures { guest.new.frames.count ≡ 16384 }
{
    for _i in 0..11 {
        match guest.step() {
            Stepped::Next => {}
            Stepped::Call => return Some(serve(alloc, guest, host)),
            Stepped::Fault(_) => return None,
        }
    }
    None
}

// Whether the first write of the record is this many bytes at this address, and the guest has the
// first of them.
fn has_stored(record: &Record, guest: &Guest, at: u32, size: usize, first: u8) -> bool {
    match record.writes.first() {
        None => false,
        Some(write) => {
            write.at == at
                && write.bytes.len() == size
                && write.bytes.first().copied() == Some(first)
                && guest.space().peek_byte(at) == first
        }
    }
}

// Whether a call was answered so, and the guest went on, or stays where the call is.
fn is_answered(row: &Row, served: &Result<Served, CallFault>, guest: &Guest) -> bool {
    let Row(number, [x10, ..], answer) = row;
    match (served, answer) {
        (Ok(Served::Went(record)), Went(result)) => {
            record.number == *number
                && record.result == *result
                && record.writes.is_empty()
                && guest.reg(10) == *result
                && guest.fresh()
        }
        (Ok(Served::Went(record)), Stored(result, at, size, first)) => {
            record.number == *number
                && record.result == *result
                && has_stored(record, guest, *at, *size, *first)
                && guest.reg(10) == *result
                && guest.fresh()
        }
        (Ok(Served::Exit(status)), Exit(wanted)) => status == wanted && guest.reg(10) == *x10,
        (Err(fault), Fails(wanted)) => fault == wanted && guest.reg(10) == *x10,
        _ => false,
    }
}

// A host with this input and two moments.
fn host_of(alloc: Global, input: &[u8], plan: FaultPlan) -> Result<MemoryHost, AllocError>
    requires { 0 < plan.most }
{
    let moments = [1_500_000_007, 2_000_000_000].to_vec(alloc)?;
    MemoryHost::new(alloc, Vec::new(alloc), input.to_vec(alloc)?, moments, plan)
}

// Makes these calls in order in one guest.
fn expect(
    rt: &(impl Abort + AllocGlobal),
    host: &mut MemoryHost,
    rows: &[Row],
) -> Result<(), Fail> {
    let alloc = rt.alloc();
    let file = two_segments(alloc, &code_of(alloc, rows)?)?;
    let mut guest = guest_of(alloc, &file, &[]).ok_or("no guest")?;
    for (k, row) in rows.iter().enumerate() {
        let served = next_call(alloc, &mut guest, host).ok_or("no call")?;
        assert!(rt; is_answered(row, &served, &guest), "call {k}");
    }
    Ok(())
}

const SIMPLE: [Row; 10] = [
    Row(172, [0, 0, 0, 0], Went(1000)),
    Row(178, [0, 0, 0, 0], Went(1000)),
    Row(96, [DATA, 0, 0, 0], Went(1000)),
    Row(29, [0, 0x5413, DATA, 0], Went(NO_TERMINAL)),
    Row(29, [3, 0x5413, DATA, 0], Went(BAD_FILE)),
    // No clock has the number 2, and no moment is taken for a buffer that may not be written.
    Row(403, [2, DATA, 0, 0], Went(BAD_ARGUMENT)),
    Row(403, [0, CODE, 0, 0], Went(BAD_ADDRESS)),
    Row(403, [1, DATA, 0, 0], Stored(0, DATA, 16, 1)),
    Row(403, [0, DATA, 0, 0], Stored(0, DATA, 16, 2)),
    Row(403, [0, DATA, 0, 0], Stored(0, DATA, 16, 0)),
];

#[test]
fn answers_simple_calls(rt: HostRuntime) -> Result<(), Fail> {
    let plan = FaultPlan::new(rt.alloc(), 65_536, 0);
    let mut host = host_of(rt.alloc(), b"", plan)?;
    expect(&rt, &mut host, &SIMPLE)
}

// Of 65,537 bytes of input, all 7 but for the last, which is 9.
const READS: [Row; 9] = [
    // A file that cannot be read, a buffer that may not be written, and none of it.
    Row(63, [1, DATA, 4, 0], Went(BAD_FILE)),
    Row(63, [0, CODE, 4, 0], Went(BAD_ADDRESS)),
    Row(63, [0, DATA, 0, 0], Went(0)),
    // A map of 81,920 bytes, into which at most 65,536 are read at once.
    Row(222, [0, 81_920, 3, 0x22], Went(MAP)),
    Row(63, [0, MAP, 70_000, 0], Stored(65_536, MAP, 65_536, 7)),
    Row(63, [0, MAP, 70_000, 0], Stored(1, MAP, 1, 9)),
    Row(63, [0, MAP, 70_000, 0], Went(0)),
    Row(215, [MAP, 81_920, 0, 0], Went(0)),
    Row(63, [0, MAP, 4, 0], Went(BAD_ADDRESS)),
];

#[test]
fn reads_at_most_65_536_bytes(rt: HostRuntime) -> Result<(), Fail> {
    let mut input = vec![in rt.alloc(); 7u8; 65_536]?;
    input.push(9)?;
    let plan = FaultPlan::new(rt.alloc(), 65_536, 0);
    let mut host = host_of(rt.alloc(), &input, plan)?;
    expect(&rt, &mut host, &READS)
}

// The heap is behind the data, at 0x22000. There are four areas.
const AREAS: [Row; 3] = [
    Row(214, [0, 0, 0, 0], Went(0x22000)),
    Row(214, [0x21fff, 0, 0, 0], Went(0x22000)),
    Row(222, [0, 4096, 3, 0x32], Went(BAD_ARGUMENT)),
];

#[test]
fn maps_up_to_64_areas(rt: HostRuntime) -> Result<(), Fail> {
    let alloc = rt.alloc();
    let mut rows = AREAS.to_vec(alloc)?;
    for k in 0..60 {
        rows.push(Row(222, [0, 4096, 3, 0x22], Went(MAP + 4096 * k)))?;
    }
    rows.push(Row(222, [0, 4096, 3, 0x22], Went(NO_ROOM)))?;
    let mut host = host_of(alloc, b"", FaultPlan::new(alloc, 65_536, 0))?;
    expect(&rt, &mut host, &rows)
}

// The second call of the input fails. It is not asked where the call cannot read.
const FAULTS: [Row; 5] = [
    Row(63, [0, DATA, 1, 0], Stored(1, DATA, 1, b'a')),
    Row(63, [1, DATA, 1, 0], Went(BAD_FILE)),
    Row(64, [1, 0, 0, 0], Went(0)),
    Row(64, [1, 0x30000000, 1, 0], Went(BAD_ADDRESS)),
    Row(63, [0, DATA, 1, 0], Fails(CallFault::InputFault)),
];

#[test]
fn a_failed_input_is_a_fault(rt: HostRuntime) -> Result<(), Fail> {
    let mut plan = FaultPlan::new(rt.alloc(), 65_536, 65_536);
    plan.input.push(2)?;
    let mut host = host_of(rt.alloc(), b"ab", plan)?;
    expect(&rt, &mut host, &FAULTS)
}

const ENDS: [Row; 4] = [
    Row(93, [7, 0, 0, 0], Exit(7)),
    Row(94, [263, 0, 0, 0], Exit(7)),
    Row(1, [5, 0, 0, 0], Fails(CallFault::Unsupported { number: 1 })),
    Row(
        64,
        [1, DATA, 1, 0],
        Fails(CallFault::OutputFault { port: Port::Out }),
    ),
];

#[test]
fn ends_and_faults(rt: HostRuntime) -> Result<(), Fail> {
    for end in ENDS {
        // a host whose outputs have no room
        let mut host = host_of(rt.alloc(), b"", FaultPlan::new(rt.alloc(), 1, 0))?;
        expect(&rt, &mut host, &[end])?;
    }
    Ok(())
}

const SHORT_READS: [Row; 2] = [
    Row(63, [0, DATA, 4, 0], Stored(4, DATA, 4, b'h')),
    Row(63, [0, DATA, 4, 0], Stored(1, DATA, 1, b'o')),
];

#[test]
fn one_byte_at_a_time(rt: HostRuntime) -> Result<(), Fail> {
    let plan = FaultPlan::new(rt.alloc(), 1, 0);
    let mut host = host_of(rt.alloc(), b"hello", plan)?;
    expect(&rt, &mut host, &SHORT_READS)
}

// Four ranges: three bytes at 0x20100, none, five at 0x20fff, one at 0x20200.
const RANGES: &[u8] =
    b"\x00\x01\x02\x00\x03\x00\x00\x00\x00\x00\x00\x00\x00\x00\x00\x00\xff\x0f\x02\x00\x05\x00\x00\x00\x00\x02\x02\x00\x01\x00\x00\x00";

const ARRAYS: [Row; 12] = [
    Row(63, [0, DATA, 32, 0], Stored(32, DATA, 32, 0)),
    Row(65, [0, DATA, 4, 0], Stored(7, 0x20100, 3, b'a')),
    Row(65, [0, DATA, 4, 0], Went(0)),
    Row(65, [1, DATA, 4, 0], Went(BAD_FILE)),
    Row(65, [0, DATA, 1025, 0], Went(BAD_ARGUMENT)),
    Row(66, [1, DATA, 4, 0], Went(9)),
    Row(66, [2, DATA, 2, 0], Went(3)),
    Row(66, [0, DATA, 4, 0], Went(BAD_FILE)),
    Row(66, [1, MAP, 4, 0], Went(BAD_ADDRESS)),
    Row(64, [2, 0x20fff, 3, 0], Went(3)),
    Row(64, [1, MAP, 1, 0], Went(BAD_ADDRESS)),
    Row(64, [3, MAP, 1, 0], Went(BAD_FILE)),
];

#[test]
fn ranges_of_arrays(rt: HostRuntime) -> Result<(), Fail> {
    let alloc = rt.alloc();
    let mut input = RANGES.to_vec(alloc)?;
    input.extend_from_slice(b"abcdefg")?;
    let mut host = host_of(alloc, &input, FaultPlan::new(alloc, 3, 64))?;
    expect(&rt, &mut host, &ARRAYS)?;
    assert!(rt; host.written(Port::Out) == b"abcdefg\0\0".as_slice());
    assert!(rt; host.written(Port::Err) == b"abcdef".as_slice());
    Ok(())
}
