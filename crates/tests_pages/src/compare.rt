// Forks are compared with what went on.
ghost use Rattle.std.specs.Prelude.{◌≡◌};

use crate::writes::put;
use cow_pages::Pages;
use std::alloc::{AllocError, Global};
use std::test::Fail;

// What happens to pages 16 and 17, whose first bytes are 4 and 0.
#[derive(Clone, Copy)]
enum Change {
    None,
    Write(u32, u8),
    Drop(u32),
}

struct Row {
    name: &'static str,
    fork: Change,
    end: Change,
    is_same: bool,
}

const ROWS: [Row; 8] = [
    Row {
        name: "nothing",
        fork: Change::None,
        end: Change::None,
        is_same: true,
    },
    Row {
        name: "the same byte",
        fork: Change::Write(16, 9),
        end: Change::Write(16, 9),
        is_same: true,
    },
    Row {
        name: "another byte",
        fork: Change::Write(16, 9),
        end: Change::Write(16, 8),
        is_same: false,
    },
    Row {
        name: "the end alone",
        fork: Change::None,
        end: Change::Write(16, 9),
        is_same: false,
    },
    Row {
        name: "the fork alone",
        fork: Change::Write(17, 9),
        end: Change::None,
        is_same: false,
    },
    Row {
        name: "what stood there",
        fork: Change::Write(16, 4),
        end: Change::None,
        is_same: true,
    },
    Row {
        name: "a page of zeros dropped",
        fork: Change::Drop(17),
        end: Change::None,
        is_same: true,
    },
    Row {
        name: "a page dropped at the end",
        fork: Change::Write(17, 0),
        end: Change::Drop(16),
        is_same: false,
    },
];

fn make(pages: &mut Pages, change: Change) -> bool
    ensures { pages.new.origin ≡ pages.old.origin }
{
    match change {
        Change::None => true,
        Change::Write(page, byte) => page < 1_048_576 && put(pages, page, 0, byte),
        Change::Drop(page) => {
            if page >= 1_048_576 {
                return false;
            }
            pages.drop_page(page);
            true
        }
    }
}

// Whether the fork is found the same as the end, as the row says.
fn holds(alloc: Global, row: &Row) -> Result<bool, AllocError> {
    let mut pages = Pages::empty(alloc, 2)?;
    if !put(&mut pages, 16, 0, 4) {
        return Ok(false);
    }
    let base = pages.freeze()?;
    let mut fork = Pages::fork(alloc, &base, 1)?;
    let is_made = make(&mut pages, row.end) && make(&mut fork, row.fork);
    let end = pages.freeze()?;
    let again = pages.freeze()?;
    let other = Pages::fork(alloc, &end, 1)?;
    // nothing was changed between the two last freezes
    Ok(is_made && fork.same_as(&base, &end) == row.is_same && other.same_as(&end, &again))
}

#[test]
fn compares(rt: HostRuntime) -> Result<(), Fail> {
    for row in &ROWS {
        assert!(rt; holds(rt.alloc(), row)?, "{}", row.name);
    }
    Ok(())
}
