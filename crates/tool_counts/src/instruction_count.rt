// The tool that counts instructions.
ghost use Rattle.std.specs.Prelude.{◌≡◌, ◌++◌, ℕ, false, OnOk};
ghost use Rattle.tool_counts.specs.Calls.{instruction_calls};
ghost use Rattle.tool_counts.specs.Counts.{IsCount, IsCount-prop, count_text, own_events};

use arrayvec::ArrayVec;
use ins_views::Views;
use insert_points::{Call, Event, Point, Thing};
use std::alloc::{AllocError, Global};
use tool_law::Tool;
use tool_parts::{ask, push_number};

/// Counts the instructions.
#[derive(Clone, Copy)]
pub struct InsCount;

// Adds `icount N`.
fn push_count(out: &mut Vec<u8>, n: u64) -> Result<(), AllocError>
    ensures { OnOk result (out.new.items ≡ out.old.items ++ count_text n) }
{
    out.extend_from_slice(b"icount ")?;
    push_number(out, n)?;
    out.extend_from_slice(b"\n")?;
    Ok(())
}

impl Tool for InsCount {
    type Local = u64;

    type Shared = u64;

    const GROWS: bool = false;

    ghost GROWS = { false };

    ghost Value = { ℕ };

    ghost value = { λ _ xs. own_events xs };

    ghost is_value = { λ _ xs n. IsCount xs n };

    ghost is_local = { λ _ ys n. IsCount ys n };

    ghost once = { λ _ ys n. IsCount-prop ys n };

    ghost text_of = { λ _ _ n. count_text n };

    ghost calls_of = { λ _ thing. instruction_calls thing };

    fn insert(&self, thing: &Thing, calls: &mut ArrayVec<Call, 8>) {
        if let Thing::Ins { .. } = thing {
            ask(calls, Point::Before, 0, ArrayVec::new());
        }
    }

    fn start(&self, _alloc: Global, _views: &Views) -> Result<u64, AllocError> {
        Ok(0)
    }

    fn begin(&self, _alloc: Global) -> Result<u64, AllocError> {
        Ok(0)
    }

    #[inline(always)]
    fn on(&self, local: &mut u64, event: &Event) -> Result<(), AllocError> {
        if event.number == 0 {
            *local = local.wrapping_add(1);
        }
        Ok(())
    }

    fn end(&self, _local: &mut u64) {}

    fn merge(&self, shared: &mut u64, local: u64) -> Result<(), AllocError> {
        *shared = shared.wrapping_add(local);
        Ok(())
    }

    fn text(&self, _views: &Views, shared: &u64, out: &mut Vec<u8>) -> Result<(), AllocError> {
        push_count(out, *shared)
    }
}
