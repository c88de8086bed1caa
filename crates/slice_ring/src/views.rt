// What a ring handles, what lies in its slots, and what a seat knows.
ghost use Rattle.std.specs.Prelude.{◌≡◌};
ghost use Rattle.slice_ring.specs.Ticket.{Ticket};

use std::collections::LinkedList;

/// A job or a piece: a value with a number and a tag, about a topic.
pub trait Numbered {
    /// What all jobs and pieces of a ring are about, for contracts alone.
    type Topic;

    // Its number, its tag and its topic.
    ghost ticket: { Self → Ticket Self.Topic };

    /// The job's number, counted from 0.
    fn number(&self) -> u64
        ensures { result ≡ (ticket self.now).number };

    /// Two numbers that say which job it is. A piece has those of the job that it answers.
    fn tag(&self) -> (u64, u64)
        ensures { result ≡ (ticket self.now).tag };
}

/// What lies in a slot.
#[derive(Drop)]
pub enum Content<J, R> {
    Job(J),
    Piece(R),
}

// The types below are for proofs alone: no value of them is made.

/// A look at a word: the word's place among all of the ring, where the closing word has the place 0 and slot i the place
/// 3 i + 1; what was found there; and the seat's count of looks then.
pub struct Glance {
    pub place: usize,
    pub word: u64,
    pub look: u64,
}

/// What a worker's seat keeps of a slot: its word and the count of looks then, the tag words that were loaded after
/// it, and the word that a lost exchange found.
pub struct Look {
    pub word: u64,
    pub look: u64,
    pub first: Option<u64>,
    pub second: Option<u64>,
    pub lost: Option<Glance>,
}

/// What a seat is for. A retired seat is spent.
pub enum Role {
    Leads,
    Works,
    Spent,
}

/// What the lead knows: how many pieces it merged, the tags of the published jobs, the tag words that it stored for
/// the next job, how many slots it has opened in `create`, and whether it closed the ring.
pub struct Lead {
    pub merged: u64,
    pub tags: LinkedList<(u64, u64)>,
    pub first: Option<u64>,
    pub second: Option<u64>,
    pub opened: u64,
    pub closed: bool,
}

/// What a worker knows: the number and tag of the job that it holds, and what it last saw of each slot.
pub struct Work {
    pub held: Option<(u64, (u64, u64))>,
    pub kept: LinkedList<Look>,
}

/// What a seat knows. `looks` counts its loads and exchanges, and `retired` the seats that it took back. `glance`
/// is the look of a lead's last `collect`, or of a worker's last `is_closed`.
pub struct View<T> {
    pub role: Role,
    pub topic: Option<T>,
    pub looks: u64,
    pub lead: Lead,
    pub work: Work,
    pub glance: Option<Glance>,
    pub retired: u64,
}
