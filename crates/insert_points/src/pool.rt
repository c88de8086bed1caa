// The calls of a plan: a list of equal calls is kept once.
ghost use Rattle.std.specs.Prelude.{◌≡◌, [], IfOk, IfSome, length, take};
ghost use Rattle.std.specs.Bool.{OnTrue};
ghost use Rattle.insert_points.specs.Plan.{StandsAt};

use crate::call::{Arg, Args};
use crate::planned::{PlannedCall, Source, Sources};
use std::alloc::{AllocError, Global};
use std::collections::HashMap;

/// The calls, list behind list.
#[derive(Drop)]
pub(crate) struct Pool {
    pub calls: Vec<PlannedCall>,
    // where the list with a digest stands, if it was the last with that digest
    found: HashMap<u64, u32>,
}

fn same_arg(a: Arg, b: Arg) -> bool
    ensures { OnTrue result (a ≡ b) }
{
    match (a, b) {
        (Arg::InstPtr, Arg::InstPtr) => true,
        (Arg::ReadEa, Arg::ReadEa) => true,
        (Arg::WriteEa, Arg::WriteEa) => true,
        (Arg::MemSize, Arg::MemSize) => true,
        (Arg::BranchTaken, Arg::BranchTaken) => true,
        (Arg::Target, Arg::Target) => true,
        (Arg::Reg(m), Arg::Reg(n)) => m == n,
        (Arg::Const(v), Arg::Const(w)) => v == w,
        _ => false,
    }
}

fn same_source(a: Source, b: Source) -> bool
    ensures { OnTrue result (a ≡ b) }
{
    match (a, b) {
        (Source::Fixed(v), Source::Fixed(w)) => v == w,
        (Source::Pc, Source::Pc) => true,
        (Source::Ahead, Source::Ahead) => true,
        (Source::Address, Source::Address) => true,
        (Source::EvenAddress, Source::EvenAddress) => true,
        (Source::Register(m), Source::Register(n)) => m == n,
        (Source::ByName(v), Source::ByName(w)) => same_arg(v, w),
        _ => false,
    }
}

fn same_args(a: &Args, b: &Args) -> bool
    ensures { OnTrue result (a.now ≡ b.now) }
{
    same_arg(a.first, b.first)
        && same_arg(a.second, b.second)
        && same_arg(a.third, b.third)
        && same_arg(a.fourth, b.fourth)
}

fn same_sources(a: &Sources, b: &Sources) -> bool
    ensures { OnTrue result (a.now ≡ b.now) }
{
    same_source(a.first, b.first)
        && same_source(a.second, b.second)
        && same_source(a.third, b.third)
        && same_source(a.fourth, b.fourth)
}

fn same_call(a: &PlannedCall, b: &PlannedCall) -> bool
    ensures { OnTrue result (a.now ≡ b.now) }
{
    a.number == b.number && same_args(&a.args, &b.args) && same_sources(&a.sources, &b.sources)
}

fn same_calls(a: &[PlannedCall], b: &[PlannedCall]) -> bool
    ensures { OnTrue result (a.now ≡ b.now) }
{
    if a.len() != b.len() {
        return false;
    }
    for k in 0..a.len() {
        if !same_call(&a[k], &b[k]) {
            return false;
        }
    }
    true
}

// A number that differs for most different lists.
fn digest_of(calls: &[PlannedCall]) -> u64 {
    let mut digest = 0;
    for call in calls {
        digest = mixed(digest, call.number as u64);
        for arg in [
            call.args.first,
            call.args.second,
            call.args.third,
            call.args.fourth,
        ] {
            digest = mixed(digest, arg_code(arg));
        }
        let sources = &call.sources;
        for source in [sources.first, sources.second, sources.third, sources.fourth] {
            digest = mixed(digest, source_code(source));
        }
    }
    digest
}

fn mixed(digest: u64, code: u64) -> u64 {
    let product = (digest ^ code).wrapping_mul(0x9e37_79b9_7f4a_7c15);
    product ^ (product >> 32)
}

fn arg_code(arg: Arg) -> u64 {
    match arg {
        Arg::InstPtr => 1,
        Arg::ReadEa => 2,
        Arg::WriteEa => 3,
        Arg::MemSize => 4,
        Arg::BranchTaken => 5,
        Arg::Target => 6,
        Arg::Reg(n) => 8 + 16 * n as u64,
        Arg::Const(value) => 9 + 16 * value as u64,
    }
}

fn source_code(source: Source) -> u64 {
    match source {
        Source::Fixed(value) => 9 + 16 * value as u64,
        Source::Pc => 1,
        Source::Ahead => 2,
        Source::Address => 3,
        Source::EvenAddress => 4,
        Source::Register(n) => 8 + 16 * n as u64,
        Source::ByName(arg) => arg_code(arg).wrapping_mul(16),
    }
}

impl Pool {
    /// No calls.
    pub(crate) fn new(alloc: Global) -> Pool
        ensures { result.calls.items ≡ [] }
    {
        Pool {
            calls: Vec::new(alloc),
            found: HashMap::new(alloc),
        }
    }

    // Where this list stands, if the table knows.
    fn find(&self, digest: u64, list: &[PlannedCall]) -> Option<u32>
        ensures { IfSome result (λ start. StandsAt self.now.calls.items start list.now) }
    {
        let start = *self.found.get(&digest)?;
        let from = start as usize;
        if from > self.calls.len() || list.len() > self.calls.len() - from {
            return None;
        }
        if same_calls(&self.calls[from..from + list.len()], list) {
            Some(start)
        } else {
            None
        }
    }

    /// The place of a list of calls, which is added if it is not there. What stood before stays.
    pub(crate) fn keep(&mut self, list: &[PlannedCall]) -> Result<u32, AllocError>
        ensures kept { take (length self.old.calls.items) self.new.calls.items ≡ self.old.calls.items }
        ensures place { IfOk result (λ start. StandsAt self.new.calls.items start list.now) }
    {
        let digest = digest_of(list);
        if let Some(start) = self.find(digest, list) {
            return Ok(start);
        }
        let start = self.calls.len();
        if start > u32::MAX as usize {
            return Err(AllocError);
        }
        self.calls.extend_from_slice(list)?;
        self.found.insert(digest, start as u32)?;
        Ok(start as u32)
    }
}
