// The tool that counts blocks, and the instructions in them.
ghost use Rattle.std.specs.Prelude.{◌≡◌, ◌++◌, false, OnOk};
ghost use Rattle.tool_counts.specs.Calls.{block_count_calls};
ghost use Rattle.tool_counts.specs.Counts.{BlockSums, IsBlockCount, IsBlockCount-prop, block_count_text, block_sums};

use arrayvec::ArrayVec;
use ins_views::Views;
use insert_points::{Arg, Call, Event, Point, Thing};
use std::alloc::{AllocError, Global};
use tool_law::Tool;
use tool_parts::{ask, one_arg, push_number};

/// Counts the blocks, and the instructions that they have.
#[derive(Clone, Copy)]
pub struct BlockCount;

/// How many blocks there were, and how many instructions they have together.
#[derive(Clone, Copy)]
pub struct BlockTotals {
    pub blocks: u64,
    pub instructions: u128,
}

// Adds `bcount B N`.
fn push_totals(out: &mut Vec<u8>, totals: BlockTotals) -> Result<(), AllocError>
    ensures { OnOk result (out.new.items ≡ out.old.items ++ block_count_text
        (record { blocks = totals.blocks; instructions = totals.instructions })) }
{
    out.extend_from_slice(b"bcount ")?;
    push_number(out, totals.blocks)?;
    out.extend_from_slice(b" ")?;
    push_number(out, totals.instructions)?;
    out.extend_from_slice(b"\n")?;
    Ok(())
}

impl BlockTotals {
    // No block.
    fn none() -> BlockTotals
        ensures { result ≡ record { blocks = 0; instructions = 0 } }
    {
        BlockTotals {
            blocks: 0,
            instructions: 0,
        }
    }
}

impl Tool for BlockCount {
    type Local = BlockTotals;

    type Shared = BlockTotals;

    const GROWS: bool = false;

    ghost GROWS = { false };

    ghost Value = { BlockSums };

    ghost value = { λ _ xs. block_sums xs };

    ghost is_value = { λ _ xs t. IsBlockCount xs t.blocks t.instructions };

    ghost is_local = { λ _ ys t. IsBlockCount ys t.blocks t.instructions };

    ghost once = { λ _ ys t. IsBlockCount-prop ys t.blocks t.instructions };

    ghost text_of = { λ _ _ sums. block_count_text sums };

    ghost calls_of = { λ _ thing. block_count_calls thing };

    fn insert(&self, thing: &Thing, calls: &mut ArrayVec<Call, 8>) {
        if let Thing::Block(block) = thing {
            ask(calls, Point::Before, 0, one_arg(Arg::Const(block.len)));
        }
    }

    fn start(&self, _alloc: Global, _views: &Views) -> Result<BlockTotals, AllocError> {
        Ok(BlockTotals::none())
    }

    fn begin(&self, _alloc: Global) -> Result<BlockTotals, AllocError> {
        Ok(BlockTotals::none())
    }

    #[inline(always)]
    fn on(&self, local: &mut BlockTotals, event: &Event) -> Result<(), AllocError> {
        if event.number == 0 {
            local.blocks = local.blocks.wrapping_add(1);
            local.instructions = local.instructions.wrapping_add(event.args[0] as u128);
        }
        Ok(())
    }

    fn end(&self, _local: &mut BlockTotals) {}

    fn merge(&self, shared: &mut BlockTotals, local: BlockTotals) -> Result<(), AllocError> {
        shared.blocks = shared.blocks.wrapping_add(local.blocks);
        shared.instructions = shared.instructions.wrapping_add(local.instructions);
        Ok(())
    }

    fn text(
        &self,
        _views: &Views,
        shared: &BlockTotals,
        out: &mut Vec<u8>,
    ) -> Result<(), AllocError> {
        push_totals(out, *shared)
    }
}
