// The tool that counts the instructions of each name.
ghost use Rattle.std.specs.Prelude.{◌≡◌, ◌++◌, ◌<◌, ◌+◌, ◌^◌, ◌%◌, ◌==◌, ℕ, false, OnOk, slice_index, if◌then◌else◌};
ghost use Rattle.rv_isa.specs.declared.op.Op.{Op};
ghost use Rattle.rv_isa.specs.Places.{place_of};
ghost use Rattle.tool_counts.specs.Calls.{mix_calls};
ghost use Rattle.tool_counts.specs.Mix.{IsMix, IsMix-prop, mix_line, mix_of, mix_text};

use arrayvec::ArrayVec;
use ins_views::Views;
use insert_points::{Arg, Call, Event, Point, Thing};
use rv_isa::{Op, all_ops};
use std::alloc::{AllocError, Global};
use tool_law::Tool;
use tool_parts::{ask, one_arg, push_number};

/// Counts the instructions of each name.
#[derive(Clone, Copy)]
pub struct OpMix;

/// How many instructions there were of each name, by its place in the table.
pub type OpCounts = [u64; 59];

// Counts one more at a place.
#[inline(always)]
fn note_place(counts: &mut OpCounts, place: u32)
    ensures { (k : ℕ) → k < 59 → slice_index counts.new k
        ≡ (if k == place then (slice_index counts.old k + 1) % 2 ^ 64 else slice_index counts.old k) }
{
    if place < 59 {
        let at = place as usize;
        counts[at] = counts[at].wrapping_add(1);
    }
}

// Adds each of the counts.
fn add_counts(counts: &mut OpCounts, more: &OpCounts)
    ensures { (k : ℕ) → k < 59 → slice_index counts.new k
        ≡ (slice_index counts.old k + slice_index more.now k) % 2 ^ 64 }
{
    for k in 0..59 {
        counts[k] = counts[k].wrapping_add(more[k]);
    }
}

// Adds `mix NAME N`, if there are any.
fn push_line(out: &mut Vec<u8>, op: Op, n: u64) -> Result<(), AllocError>
    ensures { OnOk result (out.new.items ≡ out.old.items ++ mix_line op n) }
{
    if n > 0 {
        out.extend_from_slice(b"mix ")?;
        out.extend_from_slice(op.name().as_bytes())?;
        out.extend_from_slice(b" ")?;
        push_number(out, n)?;
        out.extend_from_slice(b"\n")?;
    }
    Ok(())
}

// Adds a line for each name that there were any of, in the table's order.
fn push_lines(out: &mut Vec<u8>, counts: &OpCounts) -> Result<(), AllocError>
    ensures { OnOk result (out.new.items
        ≡ out.old.items ++ mix_text (λ op. slice_index counts.now (place_of op))) }
{
    let ops = all_ops();
    for op in &ops {
        push_line(out, *op, counts[op.place() as usize])?;
    }
    Ok(())
}

impl Tool for OpMix {
    type Local = [u64; 59];

    type Shared = [u64; 59];

    const GROWS: bool = false;

    ghost GROWS = { false };

    ghost Value = { Op → ℕ };

    ghost value = { λ _ xs. mix_of xs };

    ghost is_value = { λ _ xs counts. IsMix xs counts };

    ghost is_local = { λ _ ys counts. IsMix ys counts };

    ghost once = { λ _ ys counts. IsMix-prop ys counts };

    ghost text_of = { λ _ _ mix. mix_text mix };

    ghost calls_of = { λ _ thing. mix_calls thing };

    fn insert(&self, thing: &Thing, calls: &mut ArrayVec<Call, 8>) {
        if let Thing::Ins { instr, .. } = thing {
            ask(
                calls,
                Point::Before,
                0,
                one_arg(Arg::Const(instr.op.place() as u32)),
            );
        }
    }

    fn start(&self, _alloc: Global, _views: &Views) -> Result<OpCounts, AllocError> {
        Ok([0; 59])
    }

    fn begin(&self, _alloc: Global) -> Result<OpCounts, AllocError> {
        Ok([0; 59])
    }

    #[inline(always)]
    fn on(&self, local: &mut OpCounts, event: &Event) -> Result<(), AllocError> {
        if event.number == 0 {
            note_place(local, event.args[0]);
        }
        Ok(())
    }

    fn end(&self, _local: &mut OpCounts) {}

    fn merge(&self, shared: &mut OpCounts, local: OpCounts) -> Result<(), AllocError> {
        add_counts(shared, &local);
        Ok(())
    }

    fn text(&self, _views: &Views, shared: &OpCounts, out: &mut Vec<u8>) -> Result<(), AllocError> {
        push_lines(out, shared)?;
        Ok(())
    }
}
