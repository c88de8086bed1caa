// The tool.
ghost use Rattle.std.specs.Prelude.{◌≡◌, ◌++◌, ◌∷◌, [], ◌<◌, true};
ghost use Rattle.arrayvec.specs.ArrayVec.{array_vec_len};
ghost use Rattle.tool_calls.specs.Calls.{jump_call, trace_calls};
ghost use Rattle.tool_calls.specs.Shown.{trace_of};
ghost use Rattle.tool_calls.specs.Slice.{IsSlice, IsSlice-prop};
ghost use Rattle.tool_calls.specs.Text.{call_lines};
ghost use Rattle.tool_calls.specs.Trace.{Trace, trace};

use crate::slice::{CallSlice, CallTotals};
use crate::text::push_calls;
use arrayvec::ArrayVec;
use ins_views::Views;
use insert_points::{Arg, Call, Event, Point, Thing};
use rv_isa::{Link, link_kind};
use std::alloc::{AllocError, Global};
use tool_law::Tool;
use tool_parts::{ask, two_args};

/// Lists the calls of a run, each with the depth at which it was made.
#[derive(Clone, Copy)]
pub struct CallTrace;

// The numbers of the calls that the tool asks for, by what a jump does to the stack of return addresses.
const PUSH: u8 = 0;

const POP: u8 = 1;

const POP_PUSH: u8 = 2;

// Asks for a call after a jump, with where it comes from and where it goes.
fn ask_jump(calls: &mut ArrayVec<Call, 8>, number: u8)
    requires { array_vec_len calls.old < 8 }
    ensures { calls.new.items ≡ calls.old.items ++ jump_call number ∷ [] }
{
    ask(
        calls,
        Point::Taken,
        number,
        two_args(Arg::InstPtr, Arg::Target),
    );
}

impl Tool for CallTrace {
    type Local = CallSlice;

    type Shared = CallTotals;

    const GROWS: bool = true;

    ghost GROWS = { true };

    ghost Value = { Trace };

    ghost value = { λ _ xs. trace xs };

    ghost is_value = { λ _ xs totals. trace_of totals ≡ trace xs };

    ghost is_local = { λ _ ys slice. IsSlice ys slice.calls.items slice.below slice.above };

    ghost once = { λ _ ys slice. IsSlice-prop ys slice.calls.items slice.below slice.above };

    ghost text_of = { λ _ views t. call_lines views t.calls };

    ghost calls_of = { λ _ thing. trace_calls thing };

    fn insert(&self, thing: &Thing, calls: &mut ArrayVec<Call, 8>) {
        if let Thing::Ins { instr, .. } = thing {
            match link_kind(instr) {
                Link::Push => ask_jump(calls, PUSH),
                Link::Pop => ask_jump(calls, POP),
                Link::PopPush => ask_jump(calls, POP_PUSH),
                Link::None => {}
            }
        }
    }

    fn start(&self, alloc: Global, _views: &Views) -> Result<CallTotals, AllocError> {
        Ok(CallTotals {
            calls: Vec::new(alloc),
            depth: 0,
        })
    }

    fn begin(&self, alloc: Global) -> Result<CallSlice, AllocError> {
        Ok(CallSlice {
            calls: Vec::new(alloc),
            below: 0,
            above: 0,
        })
    }

    #[inline(always)]
    fn on(&self, local: &mut CallSlice, event: &Event) -> Result<(), AllocError> {
        match event.number {
            PUSH => local.push(event.args[0], event.args[1])?,
            POP => local.pop(),
            POP_PUSH => {
                local.pop();
                local.push(event.args[0], event.args[1])?;
            }
            _ => {}
        }
        Ok(())
    }

    fn end(&self, _local: &mut CallSlice) {}

    fn merge(&self, shared: &mut CallTotals, local: CallSlice) -> Result<(), AllocError> {
        shared.add_calls(&local.calls)?;
        shared.go(local.below, local.above);
        Ok(())
    }

    fn text(
        &self,
        views: &Views,
        shared: &CallTotals,
        out: &mut Vec<u8>,
    ) -> Result<(), AllocError> {
        push_calls(out, views, &shared.calls)
    }
}
