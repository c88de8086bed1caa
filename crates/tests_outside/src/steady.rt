// A host that never fails.
use crate::hosts::crosses;
use sp_host::{Host, Port, SteadyHost};
use std::test::Fail;

#[test]
fn reads_its_input_and_no_file(rt: HostRuntime) -> Result<(), Fail> {
    let alloc = rt.alloc();
    let input = b"input".to_vec(alloc)?;
    let mut host = crosses(SteadyHost::new(input, [7, 9].to_vec(alloc)?));
    let mut buf = [0u8; 3];
    for (k, bytes) in [b"inp".as_slice(), b"ut", b"", b""].iter().enumerate() {
        let count = host.read_input(&mut buf).ok();
        assert!(rt;
            count == Some(bytes.len()) && buf.starts_with(bytes),
            "read {k}"
        );
        assert!(rt;
            host.read_file("words", 0, &mut buf).ok() == Some(0),
            "file {k}"
        );
    }
    assert!(rt; host.has_file("words") == Ok(false));
    for (k, moment) in [7, 9, 0, 0].iter().enumerate() {
        assert!(rt; host.now() == *moment, "moment {k}");
    }
    Ok(())
}

#[test]
fn takes_what_is_written(rt: HostRuntime) -> Result<(), Fail> {
    let alloc = rt.alloc();
    let mut host = SteadyHost::new(Vec::new(alloc), Vec::new(alloc));
    for (k, port) in [Port::Out, Port::Err, Port::Report].iter().enumerate() {
        assert!(rt; host.write(*port, b"abcdefgh").ok() == Some(8), "port {k}");
    }
    assert!(rt; host.now() == 0);
    Ok(())
}
