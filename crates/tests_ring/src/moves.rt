// The core: rows of moves, each with the answer that it must have.
ghost use Rattle.std.specs.Prelude.{◌≡◌};

use std::test::Fail;
use weave_core::{Move, Phase, Weave};

// A move, and whether it is allowed after those of the rows before.
#[derive(Drop)]
struct Row {
    step: Move,
    allowed: bool,
}

fn make_row(step: Move, allowed: bool) -> Row {
    Row { step, allowed }
}

fn hold(weave: &mut Weave, rows: &[Row]) -> bool {
    let mut all = true;
    for row in rows {
        all = weave.apply(&row.step) == row.allowed && all;
    }
    all
}

#[test]
fn one_slot(rt: HostRuntime) -> Result<(), Fail> {
    let mut weave = Weave::new(1);
    let rows = [
        make_row(Move::Publish, true),
        make_row(Move::Publish, false),
    ];
    assert!(rt; hold(&mut weave, &rows));
    assert!(rt; weave.published() == 1 && weave.merged() == 0);
    Ok(())
}

#[test]
fn two_slots(rt: HostRuntime) -> Result<(), Fail> {
    let mut weave = Weave::new(2);
    let rows = [
        make_row(Move::Publish, true),
        make_row(Move::Publish, true),
        make_row(Move::Publish, false),
        make_row(Move::Claim { slice: 1, who: 0 }, true),
        make_row(Move::Finish { slice: 1, who: 1 }, false),
        make_row(Move::Finish { slice: 1, who: 0 }, true),
        make_row(Move::Merge, false),
        make_row(Move::Close, false),
    ];
    assert!(rt; hold(&mut weave, &rows));
    assert!(rt; weave.phase(0) == Phase::Ready && weave.phase(1) == Phase::Done);
    assert!(rt; weave.phase(2) == Phase::Absent);
    Ok(())
}

#[test]
fn a_whole_course(rt: HostRuntime) -> Result<(), Fail> {
    let mut weave = Weave::new(1);
    let rows = [
        make_row(Move::Publish, true),
        make_row(Move::Claim { slice: 0, who: 3 }, true),
        make_row(Move::Claim { slice: 0, who: 4 }, false),
        make_row(Move::Finish { slice: 0, who: 3 }, true),
        make_row(Move::Merge, true),
        make_row(Move::Close, true),
        make_row(Move::Publish, false),
        make_row(Move::Close, false),
    ];
    assert!(rt; hold(&mut weave, &rows));
    assert!(rt; weave.published() == 1 && weave.merged() == 1);
    assert!(rt; weave.phase(0) == Phase::Absent);
    Ok(())
}
