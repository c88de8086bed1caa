// The input fails by windows, in the middle of a window.
use crate::run::{BY_WINDOWS, holds};
use hostile_rows::{INPUT_FAILS, INPUT_LASTS, Row};
use std::test::Fail;

#[test]
fn the_input_fails(rt: HostRuntime) -> Result<(), Fail> {
    assert!(rt; holds(&rt, rt.alloc(), &BY_WINDOWS, &INPUT_FAILS)?);
    let row = Row {
        cuts: &[1, 2, 3, 4, 5, 6, 7, 8, 9],
        ..INPUT_LASTS
    };
    assert!(rt; holds(&rt, rt.alloc(), &BY_WINDOWS, &row)?);
    Ok(())
}
