//! Tools that count: instructions, blocks, instructions by their names, and blocks by their heads.
#![tactic(auto)]

mod block_count;
mod block_profile;
mod instruction_count;
pub mod laws;
mod op_mix;

pub use block_count::{BlockCount, BlockTotals};
pub use block_profile::BlockProfile;
pub use instruction_count::InsCount;
pub use op_mix::{OpCounts, OpMix};
