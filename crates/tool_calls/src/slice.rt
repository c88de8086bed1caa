// What is kept of a slice, and of all slices.
ghost use Rattle.std.specs.Prelude.{◌≡◌, ℕ, ◌+◌, ◌^◌, ◌<◌, ◌≤◌, ◌++◌, [], ◌∷◌, map, All, OnOk};
ghost use Rattle.tool_calls.specs.Trace.{Trace, pop, push};
ghost use Rattle.tool_calls.specs.Slice.{depth_at, placed, settled};

use std::alloc::AllocError;

/// A call: the depth at which it was made, where from, and where to.
#[derive(Clone, Copy)]
pub struct Called {
    pub depth: u64,
    pub from: u32,
    pub to: u32,
}

/// A call of a slice, which may start at any depth: how far below its start the slice went before, how far above that place the
/// call was made, where from, and where to.
#[derive(Clone, Copy)]
pub struct Relative {
    pub below: u64,
    pub above: u64,
    pub from: u32,
    pub to: u32,
}

/// The calls of a slice, how far below its start it went, and how far above that place it ends.
#[derive(Drop)]
pub struct CallSlice {
    pub(crate) calls: Vec<Relative>,
    pub(crate) below: u64,
    pub(crate) above: u64,
}

/// All calls, and the depth after them.
#[derive(Drop)]
pub struct CallTotals {
    pub(crate) calls: Vec<Called>,
    pub(crate) depth: u64,
}

// The depth of a place in a slice that starts at `depth`.
fn depth_at(depth: u64, below: u64, above: u64) -> u64
    ensures { depth + above < 2 ^ 64 → result ≡ depth_at depth below above }
{
    depth.saturating_sub(below).wrapping_add(above)
}

impl CallSlice {
    /// Takes a return: a step back, or one further below the start.
    pub(crate) fn pop(&mut self)
        ensures calls { self.new.calls.items ≡ self.old.calls.items }
        ensures above { self.new.above ≤ self.old.above }
        ensures below { self.old.below < 2 ^ 63 → self.new.below ≤ self.old.below + 1 }
        ensures exact { self.old.below < 2 ^ 63 → (t : Trace)
            → settled self.new.calls.items self.new.below self.new.above t
            ≡ pop (settled self.old.calls.items self.old.below self.old.above t) }
    {
        if self.above > 0 {
            self.above -= 1;
        } else {
            self.below = self.below.wrapping_add(1);
        }
    }

    /// Takes a call. It fails for want of memory alone.
    pub(crate) fn push(&mut self, from: u32, to: u32) -> Result<(), AllocError>
        ensures calls { OnOk result (self.new.calls.items ≡ self.old.calls.items
            ++ record { below = self.old.below; above = self.old.above; from = from; to = to } ∷ []) }
        ensures above { OnOk result (self.old.above < 2 ^ 63 → self.new.above ≡ self.old.above + 1) }
        ensures below { OnOk result (self.new.below ≡ self.old.below) }
        ensures exact { OnOk result (self.old.above < 2 ^ 63 → (t : Trace)
            → settled self.new.calls.items self.new.below self.new.above t
            ≡ push (settled self.old.calls.items self.old.below self.old.above t) from to) }
    {
        self.calls.push(Relative {
            below: self.below,
            above: self.above,
            from,
            to,
        })?;
        self.above = self.above.wrapping_add(1);
        Ok(())
    }
}

impl CallTotals {
    /// Adds the calls of a slice that starts at the depth so far. It fails for want of memory alone.
    pub(crate) fn add_calls(&mut self, calls: &[Relative]) -> Result<(), AllocError>
        ensures depth { OnOk result (self.new.depth ≡ self.old.depth) }
        ensures calls { OnOk result (self.old.depth < 2 ^ 63
            → All (λ call. call.above < 2 ^ 63) calls.now → self.new.calls.items
            ≡ self.old.calls.items ++ map (placed self.old.depth) calls.now) }
    {
        for call in calls {
            let depth = depth_at(self.depth, call.below, call.above);
            self.calls.push(Called {
                depth,
                from: call.from,
                to: call.to,
            })?;
        }
        Ok(())
    }

    /// Goes to where a slice ends that starts at the depth so far.
    pub(crate) fn go(&mut self, below: u64, above: u64)
        ensures calls { self.new.calls.items ≡ self.old.calls.items }
        ensures depth { self.old.depth + above < 2 ^ 64 → self.new.depth ≡ depth_at self.old.depth below above }
    {
        self.depth = depth_at(self.depth, below, above);
    }
}
