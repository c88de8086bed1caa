//! Plays a call of a guest again by its record: without the outside, and without memory.
#![tactic(auto)]

mod areas;
mod fitting;
pub mod laws;
mod playback;
mod storing;

pub use areas::{add_map, grow_heap, remove_map};
pub use fitting::fits;
pub use playback::play;
pub use storing::finish_storing;
