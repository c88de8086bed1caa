// Two slices of one window, each of which waits for the other: they run side by side.
ghost use Rattle.std.specs.Prelude.{◌≡◌, ℕ, decimal, false};
ghost use Rattle.tool_counts.specs.Counts.{IsCount, IsCount-prop, own_events};
ghost use Rattle.tests_windows.specs.Calls.{meeting_calls};

use crate::programs::{Program, file_of};
use crate::setting::{BOUNDS, Bounds, NOTHING, host_of, pacer_of, run};
use arrayvec::ArrayVec;
use ins_views::Views;
use insert_points::{Arg, Call, Event, Point, Thing};
use rv_machine::End;
use std::alloc::{AllocError, Global};
use std::sync::atomic::{AtomicBool, Ordering};
use std::test::Fail;
use std::thread;
use tool_law::Tool;
use tool_parts::{ask, one_arg, push_number};

// The first instruction of the program, which the first slice alone makes, and the first behind its loop, which the second alone
// makes.
const FIRST: u32 = 0x10074;

const BEHIND_LOOP: u32 = 0x10098;

// How often a slice gives way to the other.
const TURNS: u32 = 1_000_000;

// A slice that came to its instruction, and one that saw there that the other came to its own.
#[derive(Drop)]
struct Side {
    came: AtomicBool,
    met: AtomicBool,
}

impl Side {
    fn new() -> Side {
        Side {
            came: AtomicBool::new(false),
            met: AtomicBool::new(false),
        }
    }

    // Comes here, and gives way until the other came.
    fn meet(&self, other: &Side) {
        self.came.store(true, Ordering::SeqCst);
        for _turn in 0..TURNS {
            if other.came.load(Ordering::SeqCst) {
                self.met.store(true, Ordering::SeqCst);
                return;
            }
            thread::yield_now();
        }
    }
}

// Counts the instructions, and meets at two of them.
#[derive(Drop)]
struct Meeting {
    first: Side,
    second: Side,
}

impl Meeting {
    fn visit(&self, at: u32) {
        if at == FIRST {
            self.first.meet(&self.second);
        } else if at == BEHIND_LOOP {
            self.second.meet(&self.first);
        }
    }
}

impl Tool for Meeting {
    type Local = u64;

    type Shared = u64;

    const GROWS: bool = false;

    ghost GROWS = { false };

    ghost Value = { ℕ };

    ghost value = { λ _ xs. own_events xs };

    ghost is_value = { λ _ xs n. IsCount xs n };

    ghost is_local = { λ _ ys n. IsCount ys n };

    ghost once = { λ _ ys n. IsCount-prop ys n };

    ghost text_of = { λ _ _ n. decimal n };

    ghost calls_of = { λ _ thing. meeting_calls thing };

    fn insert(&self, thing: &Thing, calls: &mut ArrayVec<Call, 8>) {
        if let Thing::Ins { .. } = thing {
            ask(calls, Point::Before, 0, one_arg(Arg::InstPtr));
        }
    }

    fn start(&self, _alloc: Global, _views: &Views) -> Result<u64, AllocError> {
        Ok(0)
    }

    fn begin(&self, _alloc: Global) -> Result<u64, AllocError> {
        Ok(0)
    }

    fn on(&self, local: &mut u64, event: &Event) -> Result<(), AllocError> {
        if event.number == 0 {
            self.visit(event.args[0]);
            *local = local.wrapping_add(1);
        }
        Ok(())
    }

    fn end(&self, _local: &mut u64) {}

    fn merge(&self, shared: &mut u64, local: u64) -> Result<(), AllocError> {
        *shared = shared.wrapping_add(local);
        Ok(())
    }

    fn text(&self, _views: &Views, shared: &u64, out: &mut Vec<u8>) -> Result<(), AllocError> {
        push_number(out, *shared)
    }
}

#[test]
fn slices_of_one_window_meet(rt: HostRuntime) -> Result<(), Fail> {
    let alloc = rt.alloc();
    let file = file_of(alloc, Program::CountToSix)?;
    let bounds = Bounds {
        limit: 2,
        poll: 23,
        ..BOUNDS
    };
    let tool = Meeting {
        first: Side::new(),
        second: Side::new(),
    };
    let mut host = host_of(alloc, &NOTHING)?;
    let mut pacer = pacer_of(alloc, &[true])?;
    let run = run(&rt, alloc, &tool, &file, &bounds, &mut host, &mut pacer)?;
    let finished = run.ok().ok_or("the run has no end")?;
    assert!(rt; finished.cuts.as_slice() == [23].as_slice());
    assert!(rt; tool.first.met.load(Ordering::SeqCst) && tool.second.met.load(Ordering::SeqCst));
    assert!(rt; finished.shared == 45 && finished.end == End::Exit(7));
    Ok(())
}
