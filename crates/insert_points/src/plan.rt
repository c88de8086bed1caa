// What is called where.
ghost use Rattle.std.specs.Prelude.{◌≡◌, ◌++◌, ◌+◌, ◌≤◌, IfOk, OnOk, length};
ghost use Rattle.insert_points.specs.Calls.{calls_at};
ghost use Rattle.insert_points.specs.Planned.{plan_calls};
ghost use Rattle.insert_points.specs.Plan.{FewCalls, Fits, IsSite, calls_of, site_with};

use crate::call::{Call, Point, Thing, same_point};
use crate::index::{Index, Site};
use crate::planned::PlannedCall;
use crate::pool::Pool;
use arrayvec::ArrayVec;
use rv_isa::Op;
use std::alloc::{AllocError, Global};
use std::marker::Model;

/// What a plan calls at one address.
#[derive(Clone, Copy)]
pub struct CallsAt<'a> {
    /// At the start of a routine.
    pub routine: &'a [PlannedCall],
    /// At the head of a block, where the state before is fresh.
    pub block: &'a [PlannedCall],
    /// Before the instruction.
    pub before: &'a [PlannedCall],
    /// After it, where it completed and did not jump.
    pub after: &'a [PlannedCall],
    /// After it, where it completed and jumped.
    pub taken: &'a [PlannedCall],
}

/// Calls that were found at one address; each list of them is looked up as it is asked for.
#[derive(Clone, Copy)]
pub struct Found<'a> {
    pub(crate) calls: &'a [PlannedCall],
    pub(crate) site: &'a Site,
}

impl<'a> Found<'a> {
    ghost use Rattle.std.specs.Prelude.{◌≡◌, ◌+◌, ◌==◌, length, not};
    ghost use Rattle.insert_points.specs.Plan.{IsSite, found_calls};

    /// At the start of a routine.
    #[inline(always)]
    pub fn routine(&self) -> &'a [PlannedCall]
        requires { IsSite (length self.now.calls.now) self.now.site.now }
        ensures { result.now ≡ (found_calls self.now).routine }
    {
        let start = self.site.routine as usize;
        &self.calls[start..start + self.site.routine_count as usize]
    }

    /// At the head of a block, where the state before is fresh.
    #[inline(always)]
    pub fn block(&self) -> &'a [PlannedCall]
        requires { IsSite (length self.now.calls.now) self.now.site.now }
        ensures { result.now ≡ (found_calls self.now).block }
    {
        let start = self.site.block as usize;
        &self.calls[start..start + self.site.block_count as usize]
    }

    /// Before the instruction.
    #[inline(always)]
    pub fn before(&self) -> &'a [PlannedCall]
        requires { IsSite (length self.now.calls.now) self.now.site.now }
        ensures { result.now ≡ (found_calls self.now).before }
    {
        let start = self.site.instruction as usize;
        &self.calls[start..start + self.site.before as usize]
    }

    /// How many there are after the instruction, on either way.
    #[inline(always)]
    pub fn count_late(&self) -> usize
        requires { IsSite (length self.now.calls.now) self.now.site.now }
        ensures { result ≡ length (found_calls self.now).after + length (found_calls self.now).taken }
    {
        self.site.after as usize + self.site.taken as usize
    }
}

/// Which calls of an address are set; those of an instruction are given together, by their points.
#[derive(Clone, Copy)]
pub(crate) enum Placing {
    Routine,
    Block,
    Instruction { before: u8, after: u8, taken: u8 },
}

/// Which calls a tool made of each thing. It is asked by address, in constant time; equal lists of calls are kept once.
#[derive(Drop)]
pub struct Plan {
    index: Index,
    pool: Pool,
}

impl Model for Plan {
    ghost use Rattle.insert_points.specs.Plan.{PlanFields, IsPlan};

    ghost Value = { PlanFields };

    ghost view = { λ p. record { table = p.index.table.items; sites = p.index.sites.items; calls = p.pool.calls.items } };

    ghost invariant = { λ p. IsPlan (record { table = p.index.table.items; sites = p.index.sites.items; calls = p.pool.calls.items }) };
}

// Adds the calls at a point, made ready, and says how many they are.
#[tactic(auto, unfolding(crate::specs::Planned::plan_calls))]
fn push_at(
    list: &mut Vec<PlannedCall>,
    op: Option<Op>,
    point: Point,
    calls: &[Call],
) -> Result<u8, AllocError>
    requires { length calls.now ≤ 8 }
    ensures items { OnOk result (list.new.items ≡ list.old.items ++ plan_calls op point calls.now) }
    ensures len { OnOk result (length list.new.items ≡ length list.old.items + length (plan_calls op point calls.now)) }
    ensures count { IfOk result (λ count. count ≡ length (plan_calls op point calls.now)) }
{
    let from = list.len();
    for call in calls {
        if same_point(call.at, point) {
            list.push(PlannedCall::of(op, call))?;
        }
    }
    Ok((list.len() - from) as u8)
}

// The calls of a site.
#[inline(always)]
fn calls_of(calls: &[PlannedCall], site: Site) -> CallsAt<'_>
    requires { IsSite (length calls.now) site }
    ensures routine { result.routine.now ≡ (calls_of calls.now site).routine }
    ensures block { result.block.now ≡ (calls_of calls.now site).block }
    ensures before { result.before.now ≡ (calls_of calls.now site).before }
    ensures after { result.after.now ≡ (calls_of calls.now site).after }
    ensures taken { result.taken.now ≡ (calls_of calls.now site).taken }
    ensures few { FewCalls (calls_of calls.now site) }
{
    let (routine, block) = (site.routine as usize, site.block as usize);
    let before = site.instruction as usize;
    let after = before + site.before as usize;
    let taken = after + site.after as usize;
    CallsAt {
        routine: &calls[routine..routine + site.routine_count as usize],
        block: &calls[block..block + site.block_count as usize],
        before: &calls[before..after],
        after: &calls[after..taken],
        taken: &calls[taken..taken + site.taken as usize],
    }
}

// A site with calls put there.
fn site_with(placing: Placing, start: u32, count: u8, site: Site) -> Site
    ensures { result ≡ site_with placing start count site }
{
    match placing {
        Placing::Routine => Site {
            routine: start,
            routine_count: count,
            ..site
        },
        Placing::Block => Site {
            block: start,
            block_count: count,
            ..site
        },
        Placing::Instruction {
            before,
            after,
            taken,
        } => Site {
            instruction: start,
            before,
            after,
            taken,
            ..site
        },
    }
}

impl Plan {
    ghost use Rattle.std.specs.Prelude.{◌≡◌, ◌≤◌, ◌<◌, ◌+◌, ◌^◌, ℕ, OnErr, OnOk, length};
    ghost use Rattle.insert_points.specs.Plan.{FewCalls, Fits, IsFoundAt, called_after, called_at, called_put, is_called, nothing_called};

    /// A plan that calls nothing. It takes no memory.
    #[tactic(auto, unfolding(crate::specs::Plan::called_at))]
    pub fn empty(alloc: Global) -> Plan
        ensures { (a : ℕ) → called_at result a ≡ nothing_called }
    {
        Plan {
            index: Index::new(alloc),
            pool: Pool::new(alloc),
        }
    }

    /// What is called at an address.
    #[inline(always)]
    #[tactic(auto, unfolding(crate::specs::Plan::called_at))]
    pub fn at(&self, pc: u32) -> CallsAt<'_>
        ensures routine { result.routine.now ≡ (called_at self.now pc).routine }
        ensures block { result.block.now ≡ (called_at self.now pc).block }
        ensures before { result.before.now ≡ (called_at self.now pc).before }
        ensures after { result.after.now ≡ (called_at self.now pc).after }
        ensures taken { result.taken.now ≡ (called_at self.now pc).taken }
        ensures few { FewCalls (called_at self.now pc) }
    {
        calls_of(self.pool.calls.as_slice(), self.index.get(pc))
    }

    /// What is called at an address, where anything may be.
    #[inline(always)]
    #[tactic(auto, unfolding(crate::specs::Plan::called_at))]
    pub fn find(&self, pc: u32) -> Option<Found<'_>>
        ensures { IsFoundAt self.now pc result }
    {
        match self.index.find(pc) {
            Some(site) => Some(Found {
                calls: self.pool.calls.as_slice(),
                site,
            }),
            None => None,
        }
    }

    /// Whether anything is called at an address.
    #[inline(always)]
    pub fn is_called(&self, pc: u32) -> bool
        ensures { result ≡ is_called (called_at self.now pc) }
    {
        let called = self.at(pc);
        let heads = called.routine.len() + called.block.len();
        let instruction = called.before.len() + called.after.len() + called.taken.len();
        heads + instruction != 0
    }

    // Puts calls at an address.
    fn put(&mut self, at: u32, placing: Placing, list: &[PlannedCall]) -> Result<(), AllocError>
        requires { Fits placing (length list.now) }
        ensures given { OnOk result ((a : ℕ) → a < 2 ^ 32
            → called_at self.new a ≡ called_put at placing list.now a (called_at self.old a)) }
        ensures refused { OnErr result ((a : ℕ) → a < 2 ^ 32 → called_at self.new a ≡ called_at self.old a) }
    {
        if list.is_empty() && !self.index.has_part(at) {
            return Ok(());
        }
        let start = self.pool.keep(list)?;
        self.index.reserve(at)?;
        let site = site_with(placing, start, list.len() as u8, self.index.get(at));
        self.index.set(at, site);
        Ok(())
    }

    /// Gives a thing these calls. Those of a block or a routine that are not at `Before` are passed by.
    ///
    /// # Errors
    /// Without memory the plan calls what it called before.
    pub fn offer(&mut self, thing: &Thing, calls: &ArrayVec<Call, 8>) -> Result<(), AllocError>
        ensures given { OnOk result ((a : ℕ) → a < 2 ^ 32
            → called_at self.new a ≡ called_after thing.now calls.now.items a (called_at self.old a)) }
        ensures refused { OnErr result ((a : ℕ) → a < 2 ^ 32 → called_at self.new a ≡ called_at self.old a) }
    {
        let calls = calls.as_slice();
        let mut list = Vec::new(*self.pool.calls.allocator());
        match thing {
            Thing::Ins { pc, instr } => {
                let op = Some(instr.op);
                let before = push_at(&mut list, op, Point::Before, calls)?;
                let after = push_at(&mut list, op, Point::After, calls)?;
                let taken = push_at(&mut list, op, Point::Taken, calls)?;
                let placing = Placing::Instruction {
                    before,
                    after,
                    taken,
                };
                self.put(*pc, placing, list.as_slice())
            }
            Thing::Block(block) => {
                push_at(&mut list, None, Point::Before, calls)?;
                self.put(block.head, Placing::Block, list.as_slice())
            }
            Thing::Routine { start, .. } => {
                push_at(&mut list, None, Point::Before, calls)?;
                self.put(*start, Placing::Routine, list.as_slice())
            }
        }
    }
}
