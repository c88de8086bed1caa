// Moves, and how far they bring a slice.

/// How far a slice is.
#[derive(Clone, Copy, Default, PartialEq, Eq)]
pub enum Phase {
    /// Not published yet, or merged.
    #[default]
    Absent,
    /// Published, and nobody has it.
    Ready,
    /// Somebody is at work on it.
    Taken(u32),
    /// Finished, and not merged yet.
    Done,
}

/// One move of a live run. Each is one step on one word of the ring.
#[derive(Clone, Copy)]
pub enum Move {
    /// The next slice becomes ready.
    Publish,
    /// `who` takes a ready slice.
    Claim { slice: u64, who: u32 },
    /// `who` is done with the slice that it took.
    Finish { slice: u64, who: u32 },
    /// The lowest outstanding slice is merged, which is done.
    Merge,
    /// No slice follows.
    Close,
}
