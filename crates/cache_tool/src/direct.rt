// The tool.
ghost use Rattle.std.specs.Prelude.{◌≡◌, ◌++◌, ◌∷◌, [], ◌<◌, IsTrue};
ghost use Rattle.arrayvec.specs.ArrayVec.{array_vec_len};
ghost use Rattle.cache_tool.specs.Calls.{access_call};
ghost use Rattle.cache_tool.specs.Sizes.{is_line, is_sets};

use crate::reconcile::reconcile;
use crate::sizes::{is_line, is_sets};
use crate::slice::{CacheSlice, CacheTotals};
use crate::text::push_cache;
use arrayvec::ArrayVec;
use ins_views::Views;
use insert_points::{Arg, Call, Event, Point, Thing};
use rv_isa::Op;
use std::alloc::{AllocError, Global};
use tool_law::Tool;
use tool_parts::{ask, two_args};

/// A direct-mapped cache of so many sets, each of one line of so many bytes. `sets` is a power of two up to 4,096, `line` one from 4
/// to 4,096.
#[derive(Clone, Copy)]
pub struct DirectCache {
    pub sets: u32,
    pub line: u32,
    ghost sets_fit: { IsTrue (is_sets sets) },
    ghost line_fits: { IsTrue (is_line line) },
}

impl DirectCache {
    ghost use Rattle.std.specs.Prelude.{◌&&◌, IfSome, is_some};

    /// A cache of these sizes, or None where it may not have them.
    pub fn new(sets: u32, line: u32) -> Option<DirectCache>
        ensures some { is_some result ≡ (is_sets sets && is_line line) }
        ensures sets { IfSome result (λ cache. cache.sets ≡ sets) }
        ensures line { IfSome result (λ cache. cache.line ≡ line) }
    {
        if is_sets(sets) && is_line(line) {
            return Some(DirectCache { sets, line });
        }
        None
    }
}

impl Default for DirectCache {
    ghost use Rattle.cache_tool.specs.Sizes.{IsUsual};

    ghost is_default = { λ cache. IsUsual cache.sets cache.line };

    /// The usual cache, of 64 sets of 32 bytes.
    fn default() -> DirectCache {
        DirectCache { sets: 64, line: 32 }
    }
}

// Asks for a call with an address and the size.
fn ask_access(calls: &mut ArrayVec<Call, 8>, address: Arg)
    requires { array_vec_len calls.old < 8 }
    ensures { calls.new.items ≡ calls.old.items ++ access_call address ∷ [] }
{
    ask(calls, Point::Before, 0, two_args(address, Arg::MemSize));
}

impl Tool for DirectCache {
    ghost use Rattle.std.specs.Prelude.{false};
    ghost use Rattle.cache_tool.specs.Cache.{Cache, simulate};
    ghost use Rattle.cache_tool.specs.Calls.{cache_calls};
    ghost use Rattle.cache_tool.specs.Shown.{cache_of};
    ghost use Rattle.cache_tool.specs.Slice.{IsSlice, IsSlice-prop};
    ghost use Rattle.cache_tool.specs.Text.{cache_text};

    type Local = CacheSlice;

    type Shared = CacheTotals;

    const GROWS: bool = false;

    ghost GROWS = { false };

    ghost Value = { Cache };

    ghost value = { λ tool xs. simulate tool.sets tool.line xs };

    ghost is_value = { λ tool xs totals. cache_of totals ≡ simulate tool.sets tool.line xs };

    ghost is_local = { λ tool ys slice. IsSlice tool.sets tool.line ys slice };

    ghost once = { λ tool ys slice. IsSlice-prop tool.sets tool.line ys slice };

    ghost text_of = { λ tool _ cache. cache_text tool.sets tool.line cache };

    ghost calls_of = { λ _ thing. cache_calls thing };

    fn insert(&self, thing: &Thing, calls: &mut ArrayVec<Call, 8>) {
        if let Thing::Ins { instr, .. } = thing {
            match instr.op {
                Op::Lb | Op::Lh | Op::Lw | Op::Lbu | Op::Lhu => ask_access(calls, Arg::ReadEa),
                Op::LrW | Op::AmoswapW | Op::AmoaddW | Op::AmoxorW | Op::AmoandW | Op::AmoorW =>
                    ask_access(calls, Arg::ReadEa),
                Op::AmominW | Op::AmomaxW | Op::AmominuW | Op::AmomaxuW => ask_access(
                    calls,
                    Arg::ReadEa,
                ),
                Op::Sb | Op::Sh | Op::Sw | Op::ScW => ask_access(calls, Arg::WriteEa),
                _ => {}
            }
        }
    }

    fn start(&self, alloc: Global, _views: &Views) -> Result<CacheTotals, AllocError> {
        let kept = vec![in alloc; None; self.sets as usize]?;
        Ok(CacheTotals {
            kept,
            hits: 0,
            misses: 0,
        })
    }

    fn begin(&self, alloc: Global) -> Result<CacheSlice, AllocError> {
        let touched = vec![in alloc; None; self.sets as usize]?;
        Ok(CacheSlice {
            touched,
            hits: 0,
            misses: 0,
            line_bits: self.line.ilog2(),
            set_mask: self.sets - 1,
        })
    }

    #[inline(always)]
    fn on(&self, local: &mut CacheSlice, event: &Event) -> Result<(), AllocError> {
        if event.number == 0 {
            let address = event.args[0];
            let last_byte = address.wrapping_add(event.args[1].saturating_sub(1));
            let first = address.wrapping_shr(local.line_bits);
            let last = last_byte.wrapping_shr(local.line_bits);
            local.note(first);
            if first != last {
                local.note(last);
            }
        }
        Ok(())
    }

    fn end(&self, _local: &mut CacheSlice) {}

    fn merge(&self, shared: &mut CacheTotals, local: CacheSlice) -> Result<(), AllocError> {
        let first = reconcile(&mut shared.kept, &local.touched);
        shared.hits = shared
            .hits
            .wrapping_add(local.hits)
            .wrapping_add(first.hits);
        shared.misses = shared
            .misses
            .wrapping_add(local.misses)
            .wrapping_add(first.misses);
        Ok(())
    }

    fn text(
        &self,
        _views: &Views,
        shared: &CacheTotals,
        out: &mut Vec<u8>,
    ) -> Result<(), AllocError> {
        push_cache(out, self.sets, self.line, shared)
    }
}
