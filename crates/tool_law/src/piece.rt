// What a slice gives back.
use crate::tool::Tool;

/// How many positions passed each of the four tests of a boundary.
#[derive(Clone, Copy)]
pub struct Hits {
    /// The pc and two registers.
    pub quick: u64,
    /// All registers too.
    pub registers: u64,
    /// The 256 bytes from the stack pointer too.
    pub stack: u64,
    /// The whole state.
    pub whole: u64,
}

/// What a slice gives back: its number, the local of its events, how many instructions and calls it made, and how many of its
/// positions passed the tests of its boundary.
#[derive(Drop)]
pub struct Piece<T: Tool> {
    pub index: u64,
    pub local: T::Local,
    pub steps: u64,
    pub calls: u64,
    pub hits: Hits,
}
