//! Laws of the frames that stores take. None of these functions does anything: each carries a law.
ghost use Rattle.std.specs.Prelude.{ℕ, ◌+◌, ◌*◌, ◌/◌, ◌%◌, ◌^◌, ◌≡◌, ◌≤◌, Bool, List, length, true};
ghost use Rattle.cow_pages.specs.Marks.{count_marked};
ghost use Rattle.guest_model.specs.Areas.{is_mapped};
ghost use Rattle.guest_model.specs.Effect.{effect_of, stored_by};
ghost use Rattle.guest_model.specs.Machine.{Machine};
ghost use Rattle.guest_model.specs.Range.{Range, is_page_among};
ghost use Rattle.guest_model.specs.Written.{written_by};
ghost use Rattle.guest_mem.specs.Frames.{Frames, HasAllFrames, frames_for, marked_for_all};
ghost use Rattle.guest_mem.specs.Memory.{Memory, HasFramesWhereWritten};

/// Bytes that lie in `k` pages take at most `k` frames.
pub fn frames_of_pages()
    ensures { (framed : List Bool) (a n k : ℕ) → a % 4096 + n ≤ 4096 * k
        → frames_for framed a n ≤ k }
{}

/// So `n` bytes take at most `(n + 8190) / 4096` frames, wherever they lie.
pub fn frames_of_bytes()
    ensures { (framed : List Bool) (a n : ℕ) → frames_for framed a n ≤ (n + 8190) / 4096 }
{}

/// Two free frames suffice for every instruction.
pub fn frames_of_instructions()
    ensures { (f : Frames) (m : Machine) → 2 ≤ f.free → HasAllFrames f (stored_by (effect_of m)) }
{}

/// 31 free frames suffice for every step.
pub fn frames_of_steps()
    ensures { (f : Frames) (m : Machine) → 31 ≤ f.free → HasAllFrames f (written_by m) }
{}

/// As long as no more pages were written than there are frames, none is lacking: the frames that are as many as the pages
/// written so far, and those of some ranges of mapped pages, suffice for the ranges.
pub fn frames_of_written()
    ensures { (m : Memory) (ranges : List Range) (size : ℕ) → size ≡ 2 ^ 20 → HasFramesWhereWritten m
        → length m.frames.framed ≡ size → length m.frames.written ≡ size
        → ((page : ℕ) → is_page_among ranges page ≡ true → is_mapped m.space.areas (4096 * page) ≡ true)
        → m.frames.count ≤ m.frames.free + count_marked m.frames.written
        → count_marked (marked_for_all m.frames.written ranges) ≤ m.frames.count
        → HasAllFrames m.frames ranges }
{}
