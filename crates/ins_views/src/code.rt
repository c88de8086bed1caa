// The decoded words of one executable segment.
ghost use Rattle.std.specs.Prelude.{◌≡◌, ◌+◌, ◌^◌, ◌<◌, ◌≤◌, length, slice_get, IfOk, option_and_then};
ghost use Rattle.elf_load.specs.Image.{IsSegment};
ghost use Rattle.ins_views.specs.Memory.{lies_in, memory_byte, memory_word};
ghost use Rattle.ins_views.specs.Views.{code_view, count_words, first_word, word_at, words_of};

use elf_load::Segment;
use rv_isa::{DecodedWord, Instr};
use std::alloc::{AllocError, Global};
use std::marker::Model;

/// The code of one executable segment, decoded.
#[derive(Drop)]
pub struct Code {
    start: u32,
    size: u32,
    // from the first address that is a multiple of 4 on
    words: Vec<DecodedWord>,
}

impl Model for Code {
    ghost use Rattle.ins_views.specs.Views.{CodeFields, IsCode};

    ghost Value = { CodeFields };

    ghost view = { λ c. record { start = c.start; size = c.size; words = c.words.items } };

    ghost invariant = { λ c. IsCode (record { start = c.start; size = c.size; words = c.words.items }) };
}

impl Code {
    /// The code of a segment. Its words are decoded here, once.
    pub(crate) fn new(alloc: Global, segment: &Segment) -> Result<Code, AllocError>
        requires { IsSegment segment.now }
        ensures { IfOk result (λ code. code ≡ code_view segment.now) }
    {
        let words = words_of(alloc, segment)?;
        Ok(Code {
            start: segment.start,
            size: segment.size,
            words,
        })
    }

    /// The address of the first word.
    pub fn first(&self) -> u32
        ensures { result ≡ first_word self.now.start }
    {
        first_word(self.start)
    }

    /// How many words there are. No word of the segment behind them has an instruction.
    pub fn words(&self) -> u32
        ensures { result ≡ length self.now.words }
    {
        self.words.len() as u32
    }

    /// The instruction of the `k`-th word, counted from 0, or None where it decodes to none or there are not so many.
    #[inline(always)]
    pub fn word(&self, k: u32) -> Option<Instr>
        ensures { result ≡ option_and_then (λ word. word) (slice_get self.now.words k) }
    {
        match self.words.get(k as usize) {
            Some(word) => word.instr(),
            None => None,
        }
    }

    /// Whether an address lies in the segment.
    #[inline(always)]
    pub(crate) fn contains(&self, at: u32) -> bool
        ensures { result ≡ lies_in self.now.start self.now.size at }
    {
        self.start <= at && at < self.start + self.size
    }

    /// The instruction at an address of the segment that is a multiple of 4.
    #[inline(always)]
    pub(crate) fn word_at(&self, pc: u32) -> Option<Instr>
        requires { first_word self.now.start ≤ pc }
        ensures { result ≡ word_at self.now pc }
    {
        self.word((pc - first_word(self.start)) / 4)
    }

    /// The address at which the segment starts.
    pub(crate) fn start(&self) -> u32
        ensures { result ≡ self.now.start }
    {
        self.start
    }
}

// The first multiple of 4 from an address of the user's memory on.
#[inline(always)]
fn first_word(start: u32) -> u32
    requires { start < 0x80000000 }
    ensures { result ≡ first_word start }
{
    (start + 3) / 4 * 4
}

// The first address of a segment that is a multiple of 4.
fn first_of(segment: &Segment) -> u32
    requires { IsSegment segment.now }
    ensures { result ≡ first_word segment.now.start }
{
    first_word(segment.start)
}

// How many words of a segment have a byte of the file and lie in the segment to their last byte.
fn count_words(segment: &Segment) -> u32
    requires { IsSegment segment.now }
    ensures { result ≡ count_words segment.now }
{
    let first = first_word(segment.start);
    let in_segment = (segment.start + segment.size).saturating_sub(first) / 4;
    let file_end = segment.start + segment.bytes.len() as u32;
    in_segment.min((file_end.saturating_sub(first) + 3) / 4)
}

// A byte of a segment's memory: of the file, or zero behind the bytes of the file.
fn byte_of(segment: &Segment, at: u32) -> u32
    requires { segment.now.start ≤ at }
    ensures value { result ≡ memory_byte segment.now at }
    ensures fits { result < 256 }
{
    match segment.bytes.get((at - segment.start) as usize) {
        Some(byte) => *byte as u32,
        None => 0,
    }
}

/// The word at an address of a segment's memory, in which zeros stand behind the bytes of the file.
#[tactic(auto, unfolding(crate::specs::Memory::memory_word))]
pub fn memory_word(segment: &Segment, at: u32) -> u32
    requires start { segment.now.start ≤ at }
    requires end { at + 3 < 2 ^ 32 }
    ensures { result ≡ memory_word segment.now at }
{
    let low = byte_of(segment, at) + 0x100 * byte_of(segment, at + 1);
    low + 0x10000 * byte_of(segment, at + 2) + 0x1000000 * byte_of(segment, at + 3)
}

// The words of a segment, decoded.
#[tactic(auto, unfolding(crate::specs::Views::words_of))]
fn words_of(alloc: Global, segment: &Segment) -> Result<Vec<DecodedWord>, AllocError>
    requires { IsSegment segment.now }
    ensures { IfOk result (λ words. words.items ≡ words_of segment.now) }
{
    let first = first_of(segment);
    let count = count_words(segment);
    let mut words = Vec::with_capacity(alloc, count as usize)?;
    for k in 0..count {
        words.push(DecodedWord::of(memory_word(segment, first + 4 * k)))?;
    }
    Ok(words)
}
