// The text of each tool, through its bound, by one local and by two.
use crate::samples::{event, own, views, views_with};
use ins_views::Views;
use insert_points::Event;
use std::alloc::{AllocError, Global};
use std::test::Fail;
use tool_counts::{BlockCount, BlockProfile, InsCount, OpMix};
use tool_law::Tool;

// The local of these events.
pub fn local_of<T: Tool>(
    alloc: Global,
    tool: &T,
    events: &[Event],
) -> Result<T::Local, AllocError> {
    let mut local = tool.begin(alloc)?;
    for event in events {
        tool.on(&mut local, event)?;
    }
    tool.end(&mut local);
    Ok(local)
}

// The text of the events, given to two locals.
fn text_of<T: Tool>(
    alloc: Global,
    tool: &T,
    views: &Views,
    first: &[Event],
    second: &[Event],
) -> Result<Vec<u8>, AllocError> {
    let mut shared = tool.start(alloc, views)?;
    tool.merge(&mut shared, local_of(alloc, tool, first)?)?;
    tool.merge(&mut shared, local_of(alloc, tool, second)?)?;
    let mut out = Vec::new(alloc);
    tool.text(views, &shared, &mut out)?;
    Ok(out)
}

#[test]
fn instructions(rt: HostRuntime) -> Result<(), Fail> {
    let alloc = rt.alloc();
    let views = views(alloc)?;
    let events = [own(0), own(7), event(1, 0), own(0)];
    let text = text_of(alloc, &InsCount, &views, &events, &[])?;
    assert!(rt; text.as_slice() == "icount 3\n".as_bytes());
    let text = text_of(alloc, &InsCount, &views, &events, &[own(0), own(0)])?;
    assert!(rt; text.as_slice() == "icount 5\n".as_bytes());
    Ok(())
}

#[test]
fn blocks(rt: HostRuntime) -> Result<(), Fail> {
    let alloc = rt.alloc();
    let views = views(alloc)?;
    let events = [own(4), event(1, 100), own(5)];
    let text = text_of(alloc, &BlockCount, &views, &[], &events)?;
    assert!(rt; text.as_slice() == "bcount 2 9\n".as_bytes());
    let text = text_of(alloc, &BlockCount, &views, &events, &[own(0xffffffff)])?;
    assert!(rt; text.as_slice() == "bcount 3 4294967304\n".as_bytes());
    Ok(())
}

#[test]
fn names(rt: HostRuntime) -> Result<(), Fail> {
    let alloc = rt.alloc();
    let views = views(alloc)?;
    // addi is 18, lui 0, ecall 38, remu 47, lr.w 48, sc.w 49 and amomaxu.w 58; no name has the place 59
    let first = [
        own(18),
        own(0),
        own(18),
        own(38),
        own(18),
        event(1, 1),
        own(49),
    ];
    let second = [
        own(18),
        own(59),
        own(18),
        own(47),
        own(18),
        own(38),
        own(49),
        own(48),
        own(58),
    ];
    let text = text_of(alloc, &OpMix, &views, &first, &second)?;
    let lines =
        "mix lui 1\nmix addi 6\nmix ecall 2\nmix remu 1\nmix lr.w 1\nmix sc.w 2\nmix amomaxu.w 1\n";
    assert!(rt; text.as_slice() == lines.as_bytes());
    Ok(())
}

#[test]
fn heads(rt: HostRuntime) -> Result<(), Fail> {
    let alloc = rt.alloc();
    // the name `se o`, a byte 0xff, and `d`
    let views = views_with(alloc, 0xff6f2065)?;
    let first = [own(0x11004), own(0x10ff0), event(1, 0x10ff4)];
    let second = [own(0x11002), own(0x11004)];
    let text = text_of(alloc, &BlockProfile, &views, &first, &second)?;
    let lines = "block 0x00010ff0 6 1 first\nblock 0x00011002 0 1 -\nblock 0x00011004 1 2 se?o?d\n";
    assert!(rt; text.as_slice() == lines.as_bytes());
    Ok(())
}
