// The plan of a tool.
ghost use Rattle.std.specs.Prelude.{◌≡◌, ◌<◌, ◌+◌, ◌*◌, ◌^◌, ◌==◌, ℕ, IfOk, OnOk, if◌then◌else◌, length};
ghost use Rattle.std.specs.List.{position_from};
ghost use Rattle.ins_views.specs.Blocks.{block_length};
ghost use Rattle.ins_views.specs.Views.{IsCode, IsViews, first_word, ins_at};
ghost use Rattle.insert_points.specs.Plan.{called_after, called_at, nothing_called};
ghost use Rattle.tool_law.specs.Planning.{IsOpen, called_of, called_offered, code_called, routine_calls, routine_starting};

use crate::tool::Tool;
use arrayvec::ArrayVec;
use ins_views::{Block, Code, Views};
use insert_points::{Call, Plan, Thing};
use rv_isa::is_terminator;
use std::alloc::{AllocError, Global};

// Offers a thing. `calls` is a list to write in, so that none is made for each thing.
fn offer<T: Tool>(
    plan: &mut Plan,
    tool: &T,
    thing: &Thing,
    calls: &mut ArrayVec<Call, 8>,
) -> Result<(), AllocError>
    ensures { OnOk result ((a : ℕ) → a < 2 ^ 32 → called_at plan.new a
        ≡ called_after thing.now (T.calls_of tool.now thing.now) a (called_at plan.old a)) }
{
    calls.clear();
    tool.insert(thing, calls);
    plan.offer(thing, calls)
}

// The length of the block at an address, or 0 where no instruction stands.
fn block_length(views: &Views, pc: u32) -> u32
    ensures { result ≡ block_length views.now pc }
{
    match views.block_at(pc) {
        Some(block) => block.len,
        None => 0,
    }
}

// Offers the instruction at an address and the block that it begins, and says how long that is. `rest` is the length of the
// block behind it.
fn offer_at<T: Tool>(
    plan: &mut Plan,
    views: &Views,
    tool: &T,
    calls: &mut ArrayVec<Call, 8>,
    pc: u32,
    rest: u32,
) -> Result<u32, AllocError>
    requires views { IsViews views.now }
    requires rest { rest ≡ block_length views.now (pc + 4) }
    ensures len { IfOk result (λ len. len ≡ block_length views.now pc) }
    ensures given { OnOk result ((a : ℕ) → a < 2 ^ 32 → called_at plan.new a ≡ (if a == pc
        then called_offered (T.calls_of tool.now) a (ins_at views.now a)
        (block_length views.now a) (called_at plan.old a)
        else called_at plan.old a)) }
{
    match views.ins_at(pc) {
        None => Ok(0),
        Some(instr) => {
            let len = if is_terminator(&instr) { 1 } else { rest + 1 };
            offer(plan, tool, &Thing::Ins { pc, instr }, calls)?;
            let block = Thing::Block(Block { head: pc, len });
            offer(plan, tool, &block, calls)?;
            Ok(len)
        }
    }
}

// Offers the code of a segment, from its last word on down, so that each block's length is known from that behind it.
fn offer_code<T: Tool>(
    plan: &mut Plan,
    views: &Views,
    tool: &T,
    code: &Code,
    calls: &mut ArrayVec<Call, 8>,
) -> Result<(), AllocError>
    requires views { IsViews views.now }
    requires code { IsCode code.now }
    ensures opened { OnOk result ((a : ℕ) → a < 2 ^ 32
        → IsOpen (T.calls_of tool.now) views.now a (called_at plan.old a)
        → IsOpen (T.calls_of tool.now) views.now a (called_at plan.new a)) }
    ensures keeps { OnOk result ((a : ℕ) → a < 2 ^ 32
        → called_at plan.old a ≡ code_called (T.calls_of tool.now) views.now a
        → called_at plan.new a ≡ code_called (T.calls_of tool.now) views.now a) }
    ensures given { OnOk result ((j : ℕ) → j < length code.now.words
        → IsOpen (T.calls_of tool.now) views.now (first_word code.now.start + 4 * j)
        (called_at plan.old (first_word code.now.start + 4 * j))
        → called_at plan.new (first_word code.now.start + 4 * j)
        ≡ code_called (T.calls_of tool.now) views.now (first_word code.now.start + 4 * j)) }
{
    let first = code.first();
    let words = code.words();
    let mut len = block_length(views, first + 4 * words);
    for k in (0..words).rev() {
        len = offer_at(plan, views, tool, calls, first + 4 * k, len)?;
    }
    Ok(())
}

// Offers all code.
fn offer_codes<T: Tool>(
    plan: &mut Plan,
    views: &Views,
    tool: &T,
    calls: &mut ArrayVec<Call, 8>,
) -> Result<(), AllocError>
    requires { (a : ℕ) → a < 2 ^ 32 → called_at plan.old a ≡ nothing_called }
    ensures { OnOk result ((a : ℕ) → a < 2 ^ 32
        → called_at plan.new a ≡ code_called (T.calls_of tool.now) views.now a) }
{
    for code in views.code() {
        offer_code(plan, views, tool, code, calls)?;
    }
    Ok(())
}

// Offers all routines.
fn offer_routines<T: Tool>(
    plan: &mut Plan,
    views: &Views,
    tool: &T,
    calls: &mut ArrayVec<Call, 8>,
) -> Result<(), AllocError>
    requires { (a : ℕ) → a < 2 ^ 32
        → called_at plan.old a ≡ code_called (T.calls_of tool.now) views.now a }
    ensures { OnOk result ((a : ℕ) → a < 2 ^ 32
        → called_at plan.new a ≡ called_of (T.calls_of tool.now) views.now a) }
{
    for k in (0..views.routines()).rev() {
        let start = views.routine(k).start;
        offer(plan, tool, &Thing::Routine { start, index: k }, calls)?;
    }
    Ok(())
}

/// The plan of a tool: it is asked about each address at which an instruction stands, as an instruction and as the head of a
/// block, and about each routine.
pub fn make_plan<T: Tool>(alloc: Global, views: &Views, tool: &T) -> Result<Plan, AllocError>
    ensures { IfOk result (λ plan. (a : ℕ) → a < 2 ^ 32
        → called_at plan a ≡ called_of (T.calls_of tool.now) views.now a) }
{
    let mut plan = Plan::empty(alloc);
    let mut calls = ArrayVec::new();
    offer_codes(&mut plan, views, tool, &mut calls)?;
    offer_routines(&mut plan, views, tool, &mut calls)?;
    Ok(plan)
}
