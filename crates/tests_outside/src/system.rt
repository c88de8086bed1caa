// The system's files, streams and clocks.
use crate::hosts::crosses;
use sp_host::{
    Host, Pacer, Port, ReadFault, StdHost, TimePacer, read_whole, read_within, write_whole,
};
use std::fs;
use std::test::Fail;
use std::time::{Duration, Instant};

#[test]
fn reads_files(rt: HostRuntime) -> Result<(), Fail> {
    let alloc = rt.alloc();
    let name = "sp_host_test.txt";
    fs::write(&rt, name, "some words")?;
    let mut host = crosses(StdHost::new(rt));
    let mut part = [0u8; 4];
    let whole = read_whole(alloc, &mut host, name);
    // from the middle, on from there, back, and at the end
    let middle = host.read_file(name, 5, &mut part).ok() == Some(4) && part == *b"word";
    let on = host.read_file(name, 9, &mut part).ok() == Some(1) && part[0] == b's';
    let back = host.read_file(name, 0, &mut part).ok() == Some(4) && part == *b"some";
    let there = host.has_file(name) == Ok(true)
        && host.read_file(name, 6, &mut part).ok() == Some(4);
    let end = host.read_file(name, 10, &mut part).ok() == Some(0);
    let through_a_file = host.has_file("sp_host_test.txt/x");
    fs::remove_file(&rt, name)?;
    assert!(rt; there && through_a_file == Ok(false));
    // what is no file, and no longer one
    assert!(rt; host.has_file(".") == Ok(false) && host.has_file("/dev/zero") == Ok(false));
    assert!(rt; host.has_file(name) == Ok(false) && host.has_file("") == Ok(false));
    assert!(rt; whole.is_ok_and(|bytes| bytes.as_slice() == b"some words".as_slice()));
    assert!(rt; middle && on && back && end);
    assert!(rt; host.read_file(name, 0, &mut part).is_err());
    let folder = read_within(alloc, &mut host, ".", 9);
    assert!(rt; folder.err() == Some(ReadFault::FileFault));
    Ok(())
}

#[test]
fn writes_and_tells_the_time(rt: HostRuntime) -> Result<(), Fail> {
    let mut host = StdHost::new(rt);
    for port in [Port::Out, Port::Err, Port::Report] {
        assert!(rt; write_whole(&mut host, port, b"line\n").is_ok());
    }
    // in 2023 and later
    assert!(rt; host.now() > 1_700_000_000_000_000_000);
    Ok(())
}

// Whether it is time at last.
fn is_granted(pacer: &mut TimePacer) -> bool {
    for _ in 0..1_000_000_000 {
        if pacer.due() {
            return true;
        }
    }
    false
}

#[test]
fn grants_once_in_a_period(rt: HostRuntime) -> Result<(), Fail> {
    let start = Instant::now(&rt)?;
    let mut pacer = crosses(TimePacer::new(rt));
    pacer.period(1);
    for k in 0..3 {
        assert!(rt; is_granted(&mut pacer), "period {k}");
    }
    assert!(rt; start.elapsed(&rt)? >= Duration::from_millis(3));
    // 49 days
    pacer.period(u32::MAX);
    for k in 0..1000 {
        assert!(rt; !pacer.due(), "ask {k}");
    }
    Ok(())
}
