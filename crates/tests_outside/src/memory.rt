// A host in memory answers as its plan says.
use crate::hosts::{crosses, host_with};
use sp_host::{Failed, FaultPlan, Host, MemoryHost, Port};
use std::test::Fail;

// A read of a file, and the bytes that it gives. None: it fails.
struct FileRead {
    name: &'static str,
    at: u64,
    size: usize,
    gives: Option<&'static [u8]>,
}

const FILE_READS: [FileRead; 9] = [
    FileRead {
        name: "words",
        at: 0,
        size: 8,
        gives: Some(b"hel"),
    },
    FileRead {
        name: "words",
        at: 3,
        size: 8,
        gives: None,
    },
    FileRead {
        name: "words",
        at: 3,
        size: 8,
        gives: Some(b"lo"),
    },
    FileRead {
        name: "words",
        at: 3,
        size: 1,
        gives: Some(b"l"),
    },
    FileRead {
        name: "words",
        at: 0,
        size: 8,
        gives: None,
    },
    FileRead {
        name: "words",
        at: 5,
        size: 8,
        gives: Some(b""),
    },
    FileRead {
        name: "words",
        at: u64::MAX,
        size: 8,
        gives: Some(b""),
    },
    FileRead {
        name: "empty",
        at: 0,
        size: 8,
        gives: Some(b""),
    },
    FileRead {
        name: "word",
        at: 0,
        size: 8,
        gives: Some(b""),
    },
];

fn reads(host: &mut MemoryHost, row: &FileRead) -> bool {
    let mut buf = [0u8; 8];
    let size = row.size.min(8).max(1);
    match (
        host.read_file(row.name, row.at, &mut buf[..size]),
        row.gives,
    ) {
        (Ok(count), Some(bytes)) => count == bytes.len() && buf.starts_with(bytes),
        (Err(Failed), None) => true,
        _ => false,
    }
}

#[test]
fn reads_files_as_planned(rt: HostRuntime) -> Result<(), Fail> {
    let alloc = rt.alloc();
    let mut plan = FaultPlan::new(alloc, 3, 0);
    plan.file = [2, 5].to_vec(alloc)?;
    let mut host = crosses(host_with(alloc, plan)?);
    for (k, row) in FILE_READS.iter().enumerate() {
        assert!(rt; reads(&mut host, row), "read {k}");
    }
    Ok(())
}

#[test]
fn reads_input_and_moments_as_planned(rt: HostRuntime) -> Result<(), Fail> {
    let alloc = rt.alloc();
    let mut plan = FaultPlan::new(alloc, 3, 0);
    plan.input = [1].to_vec(alloc)?;
    let mut host = host_with(alloc, plan)?;
    let mut buf = [0u8; 8];
    for (k, count) in [None, Some(3), Some(2), Some(0), Some(0)]
        .iter()
        .enumerate()
    {
        assert!(rt; host.read_input(&mut buf).ok() == *count, "read {k}");
    }
    for (k, moment) in [7, 9, 0, 0].iter().enumerate() {
        assert!(rt; host.now() == *moment, "moment {k}");
    }
    Ok(())
}

// A write of eight bytes, and how many of them it takes. None: it fails.
struct PortWrite {
    port: Port,
    takes: Option<usize>,
}

const PORT_WRITES: [PortWrite; 8] = [
    PortWrite {
        port: Port::Out,
        takes: Some(3),
    },
    PortWrite {
        port: Port::Out,
        takes: None,
    },
    PortWrite {
        port: Port::Out,
        takes: Some(2),
    },
    PortWrite {
        port: Port::Out,
        takes: None,
    },
    PortWrite {
        port: Port::Err,
        takes: Some(3),
    },
    PortWrite {
        port: Port::Report,
        takes: None,
    },
    PortWrite {
        port: Port::Report,
        takes: None,
    },
    PortWrite {
        port: Port::Report,
        takes: Some(3),
    },
];

#[test]
fn writes_as_planned(rt: HostRuntime) -> Result<(), Fail> {
    let alloc = rt.alloc();
    let mut plan = FaultPlan::new(alloc, 3, 5);
    plan.out = [2].to_vec(alloc)?;
    plan.report = [1, 2].to_vec(alloc)?;
    let mut host = host_with(alloc, plan)?;
    for (k, row) in PORT_WRITES.iter().enumerate() {
        assert!(rt;
            host.write(row.port, b"abcdefgh").ok() == row.takes,
            "write {k}"
        );
    }
    assert!(rt; host.written(Port::Out) == b"abcab".as_slice());
    assert!(rt; host.written(Port::Err) == b"abc".as_slice());
    assert!(rt; host.written(Port::Report) == b"abc".as_slice());
    Ok(())
}

#[test]
fn tells_which_files_are_there(rt: HostRuntime) -> Result<(), Fail> {
    let mut plan = FaultPlan::new(rt.alloc(), 8, 8);
    plan.file = [4, 6].to_vec(rt.alloc())?;
    let mut host = host_with(rt.alloc(), plan)?;
    assert!(rt; host.has_file("words") == Ok(true) && host.has_file("empty") == Ok(true));
    assert!(rt; host.has_file("word") == Ok(false));
    // reads count with them
    assert!(rt; host.has_file("words").is_err() && host.has_file("") == Ok(false));
    let mut part = [0u8; 8];
    assert!(rt;
        host.read_file("words", 0, &mut part).is_err() && host.has_file("words") == Ok(true)
    );
    Ok(())
}
