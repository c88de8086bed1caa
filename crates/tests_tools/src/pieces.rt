// Pieces, merged in their order.
ghost use Rattle.std.specs.Prelude.{◌≡◌, IfOk};

use crate::samples::{own, views};
use crate::texts::local_of;
use insert_points::Event;
use ordered_merge::{Merger, put_all};
use std::alloc::{AllocError, Global};
use std::test::Fail;
use tool_counts::{BlockProfile, InsCount};
use tool_law::{Hits, Piece, Tool};

// The piece with this number, of these events, with as many steps and `calls` calls.
fn piece<T: Tool>(
    alloc: Global,
    tool: &T,
    index: u64,
    events: &[Event],
    calls: u64,
) -> Result<Piece<T>, AllocError>
    ensures { IfOk result (λ piece. piece.index ≡ index) }
{
    let local = local_of(alloc, tool, events)?;
    let hits = Hits {
        quick: calls,
        registers: 0,
        stack: 0,
        whole: 1,
    };
    Ok(Piece {
        index,
        local,
        steps: events.len() as u64,
        calls,
        hits,
    })
}

#[test]
fn two_pieces(rt: HostRuntime) -> Result<(), Fail> {
    let alloc = rt.alloc();
    let views = views(alloc)?;
    let events = [own(0), own(0), own(0)];
    let mut merger = Merger::create(alloc, &InsCount, &views)?;
    merger.put(&InsCount, piece(alloc, &InsCount, 0, &events[..2], 5)?)?;
    merger.put(&InsCount, piece(alloc, &InsCount, 1, &events, 6)?)?;
    let (count, lines) = merger.finish();
    assert!(rt; count == 5 && lines.len() == 2);
    assert!(rt; lines[0].steps == 2 && lines[0].calls == 5 && lines[0].hits.quick == 5);
    assert!(rt; lines[1].steps == 3 && lines[1].calls == 6 && lines[1].hits.whole == 1);
    Ok(())
}

#[test]
fn all_pieces(rt: HostRuntime) -> Result<(), Fail> {
    let alloc = rt.alloc();
    let views = views(alloc)?;
    let mut pieces = Vec::new(alloc);
    pieces.push(Ok(piece(alloc, &BlockProfile, 0, &[own(0x11004), own(0x10ff0)], 0)?))?;
    pieces.push(Ok(piece(alloc, &BlockProfile, 1, &[own(0x11004)], 3)?))?;
    let mut merger = Merger::create(alloc, &BlockProfile, &views)?;
    put_all(&mut merger, &BlockProfile, pieces)?;
    let (counts, lines) = merger.finish();
    assert!(rt; counts.len() == 2 && lines.len() == 2 && lines[1].calls == 3);
    assert!(rt; counts.get(&0x11004) == Some(&2) && counts.get(&0x10ff0) == Some(&1));
    Ok(())
}
