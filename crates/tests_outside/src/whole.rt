// Whole pieces and whole files.
use crate::hosts::host_with;
use sp_host::{
    FaultPlan, MAX_FILE, MemoryHost, Port, ReadFault, read_whole, read_within, write_whole,
};
use std::alloc::{AllocError, Global};
use std::test::Fail;

// A piece, whether it is written whole, and what the port holds then.
struct Piece {
    port: Port,
    bytes: &'static [u8],
    fits: bool,
    holds: &'static [u8],
}

const PIECES: [Piece; 6] = [
    Piece {
        port: Port::Out,
        bytes: b"",
        fits: true,
        holds: b"",
    },
    Piece {
        port: Port::Out,
        bytes: b"seven b",
        fits: true,
        holds: b"seven b",
    },
    Piece {
        port: Port::Out,
        bytes: b"",
        fits: true,
        holds: b"seven b",
    },
    Piece {
        port: Port::Out,
        bytes: b"y",
        fits: false,
        holds: b"seven b",
    },
    Piece {
        port: Port::Err,
        bytes: b"abcd",
        fits: false,
        holds: b"ab",
    },
    Piece {
        port: Port::Report,
        bytes: b"much too long",
        fits: false,
        holds: b"much to",
    },
];

fn is_written(host: &mut MemoryHost, row: &Piece) -> bool {
    let fits = write_whole(host, row.port, row.bytes).is_ok();
    let holds = host.written(row.port);
    fits == row.fits && holds.len() == row.holds.len() && holds.starts_with(row.holds)
}

#[test]
fn writes_whole_or_a_part(rt: HostRuntime) -> Result<(), Fail> {
    let alloc = rt.alloc();
    let mut plan = FaultPlan::new(alloc, 2, 7);
    plan.err = [2].to_vec(alloc)?;
    let mut host = host_with(alloc, plan)?;
    for (k, row) in PIECES.iter().enumerate() {
        assert!(rt; is_written(&mut host, row), "piece {k}");
    }
    Ok(())
}

// A file, the most bytes that are asked for, the file call that fails, and the answer. Each call
// moves two bytes: a file of 5 is read by four calls, and the byte past the fourth by three.
struct Reading {
    name: &'static str,
    most: usize,
    failing: u64,
    answer: Result<&'static [u8], ReadFault>,
}

const READINGS: [Reading; 11] = [
    Reading {
        name: "words",
        most: 5,
        failing: 9,
        answer: Ok(b"hello"),
    },
    Reading {
        name: "words",
        most: 4,
        failing: 9,
        answer: Err(ReadFault::FileTooLarge),
    },
    Reading {
        name: "words",
        most: 0,
        failing: 9,
        answer: Err(ReadFault::FileTooLarge),
    },
    Reading {
        name: "empty",
        most: 0,
        failing: 9,
        answer: Ok(b""),
    },
    Reading {
        name: "words",
        most: 9,
        failing: 5,
        answer: Ok(b"hello"),
    },
    Reading {
        name: "words",
        most: 9,
        failing: 4,
        answer: Err(ReadFault::FileFault),
    },
    Reading {
        name: "words",
        most: 4,
        failing: 4,
        answer: Err(ReadFault::FileTooLarge),
    },
    Reading {
        name: "words",
        most: 4,
        failing: 3,
        answer: Err(ReadFault::FileFault),
    },
    Reading {
        name: "empty",
        most: 0,
        failing: 1,
        answer: Err(ReadFault::FileFault),
    },
    // a name that no file has
    Reading {
        name: "nowhere",
        most: 9,
        failing: 1,
        answer: Err(ReadFault::FileFault),
    },
    Reading {
        name: "nowhere",
        most: 9,
        failing: 2,
        answer: Ok(b""),
    },
];

fn is_read(alloc: Global, row: &Reading) -> Result<bool, AllocError> {
    let mut plan = FaultPlan::new(alloc, 2, 0);
    plan.file = [row.failing].to_vec(alloc)?;
    let mut host = host_with(alloc, plan)?;
    let most = row.most.min(9);
    let holds = match (read_within(alloc, &mut host, row.name, most), row.answer) {
        (Ok(bytes), Ok(wanted)) => bytes.as_slice() == wanted,
        (Err(fault), Err(wanted)) => fault == wanted,
        _ => false,
    };
    Ok(holds)
}

#[test]
fn reads_within(rt: HostRuntime) -> Result<(), Fail> {
    for (k, row) in READINGS.iter().enumerate() {
        assert!(rt; is_read(rt.alloc(), row)?, "reading {k}");
    }
    Ok(())
}

// A host with one file, `file`, of so many bytes. None of its calls fails.
fn host_of_size(alloc: Global, size: usize) -> Result<MemoryHost, AllocError> {
    let mut bytes = Vec::new(alloc);
    bytes.resize(size, 7)?;
    let files = vec![in alloc; (String::from_str(alloc, "file")?, bytes)]?;
    let plan = FaultPlan::new(alloc, usize::MAX, 0);
    MemoryHost::new(alloc, files, Vec::new(alloc), Vec::new(alloc), plan)
}

#[test]
fn reads_whole_up_to_the_limit(rt: HostRuntime) -> Result<(), Fail> {
    let alloc = rt.alloc();
    assert!(rt; MAX_FILE == 33_554_432);
    let mut host = host_of_size(alloc, MAX_FILE)?;
    let whole = read_whole(alloc, &mut host, "file");
    assert!(rt; whole.is_ok_and(|bytes| bytes.len() == MAX_FILE));
    let mut host = host_of_size(alloc, MAX_FILE + 1)?;
    let refused = read_whole(alloc, &mut host, "file");
    assert!(rt; refused.err() == Some(ReadFault::FileTooLarge));
    Ok(())
}
