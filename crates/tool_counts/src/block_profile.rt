// The tool that counts each block.
ghost use Rattle.std.specs.Prelude.{◌≡◌, ◌++◌, ◌<◌, ◌+◌, ◌^◌, ℕ, List, Some, true, OnOk, if◌then◌else◌, nat_eq, unwrap_or};
ghost use Rattle.std.specs.FinMap as table;
ghost use Rattle.indexmap.specs.IndexMap.{get};
ghost use Rattle.ins_views.specs.Blocks.{block_at};
ghost use Rattle.tool_counts.specs.Calls.{profile_calls};
ghost use Rattle.tool_counts.specs.Profile.{Counts, IsProfile, IsTally, IsTally-prop, add, both, count_of, figures_text, length_shown, profile_line, profile_text, tally};

use arrayvec::ArrayVec;
use indexmap::IndexMap;
use ins_views::Views;
use insert_points::{Arg, Call, Event, Point, Thing};
use sp_report::push_address;
use std::alloc::{AllocError, Global};
use std::collections::BTreeMap;
use tool_law::Tool;
use tool_parts::{ask, push_number, push_routine, two_args};

/// Counts how often each block began, by its head.
#[derive(Clone, Copy)]
pub struct BlockProfile;

// Counts one more at a head.
#[inline(always)]
fn note_head(counts: &mut IndexMap<u32, u64>, head: u32) -> Result<(), AllocError>
    ensures { OnOk result (unwrap_or (get nat_eq counts.old head) 0 + 1 < 2 ^ 64
        → (q : ℕ) → get nat_eq counts.new q ≡ (if nat_eq head q
        then Some (unwrap_or (get nat_eq counts.old head) 0 + 1) else get nat_eq counts.old q)) }
{
    match counts.get_mut(&head) {
        Some(count) => *count = count.wrapping_add(1),
        None => {
            counts.insert(head, 1)?;
        }
    }
    Ok(())
}

// Adds n at a head.
fn add_at(counts: &mut BTreeMap<u32, u64>, head: u32, n: u64) -> Result<(), AllocError>
    ensures { OnOk result ((t : Counts) → counts.old.entries ≡ table.entries t
        → count_of t head + n < 2 ^ 64
        → counts.new.entries ≡ table.entries (add t head n)) }
{
    let count = counts.get(&head).copied().unwrap_or(0);
    counts.insert(head, count.wrapping_add(n))?;
    Ok(())
}

// Adds each of the counts.
fn add_all(counts: &mut BTreeMap<u32, u64>, more: &IndexMap<u32, u64>) -> Result<(), AllocError>
    ensures { OnOk result ((t : Counts) → counts.old.entries ≡ table.entries t
        → ((q : ℕ) → unwrap_or (both (table.get t q) (get nat_eq more.now q)) 0 < 2 ^ 64)
        → (u : Counts) × (counts.new.entries ≡ table.entries u)
        × ((q : ℕ) → table.get u q ≡ both (table.get t q) (get nat_eq more.now q))) }
{
    for (head, n) in more.iter() {
        add_at(counts, *head, *n)?;
    }
    Ok(())
}

// The length of the block at an address, or 0 where no instruction stands.
fn length_shown(views: &Views, head: u32) -> u32
    ensures { result ≡ length_shown (block_at views.now head) }
{
    match views.block_at(head) {
        Some(block) => block.len,
        None => 0,
    }
}

// Adds `HEAD LEN N`.
fn push_figures(out: &mut Vec<u8>, views: &Views, head: u32, n: u64) -> Result<(), AllocError>
    ensures { OnOk result (out.new.items ≡ out.old.items ++ figures_text views.now (head, n)) }
{
    push_address(out, head)?;
    out.extend_from_slice(b" ")?;
    push_number(out, length_shown(views, head))?;
    out.extend_from_slice(b" ")?;
    push_number(out, n)?;
    Ok(())
}

// Adds `block HEAD LEN N ROUTINE`.
#[tactic(auto, unfolding(crate::specs::Profile::profile_line))]
fn push_line(out: &mut Vec<u8>, views: &Views, head: u32, n: u64) -> Result<(), AllocError>
    ensures { OnOk result (out.new.items ≡ out.old.items ++ profile_line views.now (head, n)) }
{
    out.extend_from_slice(b"block ")?;
    push_figures(out, views, head, n)?;
    out.extend_from_slice(b" ")?;
    push_routine(out, views, head)?;
    out.extend_from_slice(b"\n")?;
    Ok(())
}

// Adds a line for each head, from the lowest on.
fn push_lines(
    out: &mut Vec<u8>,
    views: &Views,
    counts: &BTreeMap<u32, u64>,
) -> Result<(), AllocError>
    ensures { OnOk result
        (out.new.items ≡ out.old.items ++ profile_text views.now counts.now.entries) }
{
    for (head, n) in counts {
        push_line(out, views, *head, *n)?;
    }
    Ok(())
}

impl Tool for BlockProfile {
    type Local = IndexMap<u32, u64>;

    type Shared = BTreeMap<u32, u64>;

    const GROWS: bool = true;

    ghost GROWS = { true };

    ghost Value = { Counts };

    ghost value = { λ _ xs. tally xs };

    ghost is_value = { λ _ xs s. IsProfile xs s.entries };

    ghost is_local = { λ _ ys l. IsTally ys (get nat_eq l) };

    ghost once = { λ _ ys l. IsTally-prop ys (get nat_eq l) };

    ghost text_of = { λ _ views t. profile_text views (table.entries t) };

    ghost calls_of = { λ _ thing. profile_calls thing };

    fn insert(&self, thing: &Thing, calls: &mut ArrayVec<Call, 8>) {
        if let Thing::Block(block) = thing {
            let args = two_args(Arg::InstPtr, Arg::Const(block.len));
            ask(calls, Point::Before, 0, args);
        }
    }

    fn start(&self, alloc: Global, _views: &Views) -> Result<BTreeMap<u32, u64>, AllocError> {
        Ok(BTreeMap::new(alloc))
    }

    fn begin(&self, alloc: Global) -> Result<IndexMap<u32, u64>, AllocError> {
        Ok(IndexMap::new(alloc))
    }

    #[inline(always)]
    fn on(&self, local: &mut IndexMap<u32, u64>, event: &Event) -> Result<(), AllocError> {
        if event.number == 0 {
            note_head(local, event.args[0])?;
        }
        Ok(())
    }

    fn end(&self, _local: &mut IndexMap<u32, u64>) {}

    fn merge(
        &self,
        shared: &mut BTreeMap<u32, u64>,
        local: IndexMap<u32, u64>,
    ) -> Result<(), AllocError> {
        add_all(shared, &local)?;
        Ok(())
    }

    fn text(
        &self,
        views: &Views,
        shared: &BTreeMap<u32, u64>,
        out: &mut Vec<u8>,
    ) -> Result<(), AllocError> {
        push_lines(out, views, shared)?;
        Ok(())
    }
}
