// The state of the slices, and its moves.
ghost use Rattle.std.specs.Prelude.{◌≡◌, ◌+◌, ◌-◌, ◌^◌, ◌<◌, ◌≤◌, length, if◌then◌else◌, slice_set};
ghost use Rattle.weave_core.specs.Moves.{WeaveState, empty, published, phase_of, with_phases, is_allowed, after};

use crate::moves::{Move, Phase};
use arrayvec::ArrayVec;
use std::marker::Model;

/// At most this many slices are published.
const MOST: u64 = 1 << 62;

/// Which slices are published, taken, done and merged. Contracts see it as a `WeaveState`.
#[derive(Drop)]
pub struct Weave {
    limit: u32,
    merged: u64,
    phases: ArrayVec<Phase, 32>,
    closed: bool,
}

impl Model for Weave {
    ghost Value = { WeaveState };

    ghost view = { λ w. record { limit = w.limit; merged = w.merged; phases = w.phases.items; closed = w.closed } };

    ghost invariant = { λ w. (1 ≤ w.limit) × (w.limit ≤ 32) × (length w.phases.items ≤ w.limit)
        × (w.merged + length w.phases.items ≤ 2 ^ 62) };
}

impl Weave {
    /// No slice is published. At most `limit` may be outstanding, from 1 to 32.
    pub fn new(limit: u32) -> Weave
        requires { (1 ≤ limit) × (limit ≤ 32) }
        ensures { result ≡ empty limit }
    {
        Weave {
            limit,
            merged: 0,
            phases: ArrayVec::new(),
            closed: false,
        }
    }

    /// How many slices were published. They are numbered from 0.
    pub fn published(&self) -> u64
        ensures { result ≡ published self.now }
    {
        self.merged + self.phases.len() as u64
    }

    /// How many slices were merged.
    pub fn merged(&self) -> u64
        ensures { result ≡ self.now.merged }
    {
        self.merged
    }

    /// How far a slice is.
    pub fn phase(&self, slice: u64) -> Phase
        ensures { result ≡ phase_of self.now slice }
    {
        if slice < self.merged {
            return Phase::Absent;
        }
        let at = slice - self.merged;
        if at < self.phases.len() as u64 {
            self.phases[at as usize]
        } else {
            Phase::Absent
        }
    }

    /// Makes the move where it is allowed, and says whether it was. Where it was not, nothing changes.
    pub fn apply(&mut self, m: &Move) -> bool
        ensures answer { result ≡ is_allowed self.old m.now }
        ensures state { self.new ≡ if result then after self.old m.now else self.old }
    {
        if self.closed {
            return false;
        }
        match m {
            Move::Publish => {
                if self.phases.len() >= self.limit as usize || self.published() >= MOST {
                    return false;
                }
                self.phases.push(Phase::Ready);
            }
            Move::Claim { slice, who } => {
                let Phase::Ready = self.phase(*slice) else {
                    return false;
                };
                self.phases[(*slice - self.merged) as usize] = Phase::Taken(*who);
            }
            Move::Finish { slice, who } => {
                let Phase::Taken(owner) = self.phase(*slice) else {
                    return false;
                };
                if owner != *who {
                    return false;
                }
                self.phases[(*slice - self.merged) as usize] = Phase::Done;
            }
            Move::Merge => {
                let Phase::Done = self.phase(self.merged) else {
                    return false;
                };
                self.phases.remove(0);
                self.merged += 1;
            }
            Move::Close => {
                if self.phases.len() != 0 {
                    return false;
                }
                self.closed = true;
            }
        }
        true
    }
}
