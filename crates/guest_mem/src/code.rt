// Code that is kept decoded.
ghost use Rattle.std.specs.Prelude.{[], ◌∷◌, ◌≡◌, ℕ, ◌+◌, ◌-◌, ◌*◌, ◌/◌, ◌%◌, ◌^◌, ◌<◌, ◌≤◌, length, IfOk, IfSome};
ghost use Rattle.rv_isa.specs.Decoded.{decoded};
ghost use Rattle.guest_mem.specs.Code.{IsKeptAmong, IsKeptAt, code_of, codes_with, entry_of, no_code, word_in};

use crate::number::number_of;
use guest_model::Area;
use guest_model::platform::MAPS_START;
use rv_isa::{Instr, Op, decode};
use std::alloc::{AllocError, Global};
use std::marker::Model;
use std::mem::{self, size_of};
use std::sync::Arc;

/// The entry of a word that has no instruction. An ebreak says to look at the word again.
const LOOK_AGAIN: Instr = Instr {
    op: Op::Ebreak,
    rd: 0,
    rs1: 0,
    rs2: 0,
    imm: 0,
};

const _: () = prove!(size_of::<Instr>() == 8);

/// The instructions of words that stand one after the other, to be read in place.
#[derive(Drop)]
pub(crate) struct Code {
    /// The address of the first, a multiple of 4.
    start: u32,
    entries: Vec<Instr>,
}

impl Model for Code {
    ghost use Rattle.std.specs.Prelude.{◌+◌, ◌*◌, ◌^◌, ◌≤◌, length};
    ghost use Rattle.guest_mem.specs.Code.{CodeFields};

    ghost Value = { CodeFields };

    ghost view = { λ c. record { start = c.start; entries = c.entries.items } };
}

impl Code {
    /// The whole words of bytes that stand from `at` on, from the first multiple of 4 on.
    pub(crate) fn of(alloc: Global, at: u32, bytes: &[u8]) -> Result<Code, AllocError>
        requires { at ≤ MAPS_START }
        ensures { IfOk result (λ code. code ≡ code_of at bytes.now) }
    {
        let start = (at + 3) / 4 * 4;
        let skipped = (start - at) as usize;
        let count = bytes.len().saturating_sub(skipped) / 4;
        let mut entries = Vec::with_capacity(alloc, count)?;
        for k in 0..count {
            entries.push(entry_of(word_in(bytes, skipped + 4 * k)))?;
        }
        Ok(Code { start, entries })
    }

    /// The instruction at an address, if its entry is one of these and does not say to look again.
    #[inline(always)]
    pub(crate) fn at(&self, pc: u32) -> Option<&Instr>
        ensures { IfSome result (λ i. IsKeptAt self.now pc i.now) }
    {
        let offset = pc.wrapping_sub(self.start);
        let k = (offset / 4) as usize;
        if offset % 4 != 0 || k >= self.entries.len() {
            return None;
        }
        let i = &self.entries[k];
        match i.op {
            Op::Ebreak => None,
            _ => Some(i),
        }
    }
}

/// All code of a memory that is kept decoded. Forks share it.
#[derive(Drop)]
pub(crate) struct KeptCode {
    alloc: Global,
    /// The part that was added last, which is at hand.
    last: Arc<Code, Global>,
    /// The parts before it.
    others: Vec<Arc<Code, Global>>,
}

impl Model for KeptCode {
    ghost use Rattle.std.specs.Prelude.{List, [], ◌∷◌, ◌++◌, map};
    ghost use Rattle.std.specs.Arc.{arc_value};
    ghost use Rattle.guest_mem.specs.Code.{CodeFields};

    ghost Value = { List CodeFields };

    ghost view = { λ k. map arc_value k.others.items ++ arc_value k.last ∷ [] };
}

impl KeptCode {
    /// No code.
    pub(crate) fn none(alloc: Global) -> Result<KeptCode, AllocError>
        ensures { IfOk result (λ code. code ≡ no_code ∷ []) }
    {
        let entries = Vec::new(alloc);
        Ok(KeptCode {
            alloc,
            last: Arc::new(alloc, Code { start: 0, entries })?,
            others: Vec::new(alloc),
        })
    }

    /// The same code, with room for one part more.
    pub(crate) fn share(&self) -> Result<KeptCode, AllocError>
        ensures { IfOk result (λ code. code ≡ self.now) }
    {
        let mut others = Vec::with_capacity(self.alloc, self.others.len() + 1)?;
        for part in &self.others {
            others.push(Arc::try_clone(part)?)?;
        }
        Ok(KeptCode {
            alloc: self.alloc,
            last: Arc::try_clone(&self.last)?,
            others,
        })
    }

    /// The code once an area is added with these bytes.
    pub(crate) fn with(&self, area: &Area, at: u32, bytes: &[u8]) -> Result<KeptCode, AllocError>
        requires { at ≤ area.now.end }
        ensures { IfOk result (λ code. code ≡ codes_with area.now at bytes.now self.now) }
    {
        let mut code = self.share()?;
        if area.execute && !area.write && area.end <= MAPS_START {
            let part = Code::of(self.alloc, at, bytes)?;
            let part = Arc::new(self.alloc, part)?;
            let before = mem::replace(&mut code.last, part);
            code.others.push(before)?;
        }
        Ok(code)
    }

    /// The instruction at an address, if it is of the part that was added last.
    #[inline(always)]
    pub(crate) fn last_at(&self, pc: u32) -> Option<&Instr>
        ensures { IfSome result (λ i. IsKeptAmong self.now pc i.now) }
    {
        self.last.at(pc)
    }

    /// The instruction at an address, if it is of the parts before that one.
    pub(crate) fn other_at(&self, pc: u32) -> Option<&Instr>
        ensures { IfSome result (λ i. IsKeptAmong self.now pc i.now) }
    {
        for part in &self.others {
            if let Some(i) = part.at(pc) {
                return Some(i);
            }
        }
        None
    }
}

// What is kept for a word.
fn entry_of(word: u32) -> Instr
    ensures { result ≡ entry_of (decoded word) }
{
    match decode(word) {
        Some(i) => i,
        None => LOOK_AGAIN,
    }
}

// The word at a place of these bytes, the lowest byte first.
#[tactic(auto, unfolding(crate::specs::Code::word_in))]
fn word_in(bytes: &[u8], k: usize) -> u32
    requires { k + 4 ≤ length bytes.now }
    ensures { result ≡ word_in bytes.now k }
{
    number_of(&[bytes[k], bytes[k + 1], bytes[k + 2], bytes[k + 3]])
}
