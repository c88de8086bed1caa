// What a run with a tool gives.
use crate::merger::SliceLine;
use rv_machine::End;
use tool_law::Tool;

/// A run that came to its end: the tool's state of all its events, how it ended, where it was cut, and a line for each slice.
#[derive(Drop)]
pub struct Finished<T: Tool> {
    pub shared: T::Shared,
    pub end: End,
    /// The positions at which it was cut, ascending.
    pub cuts: Vec<u64>,
    pub lines: Vec<SliceLine>,
}
