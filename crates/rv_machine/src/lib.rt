//! A guest: one hart of RV32IMA with its memory.
#![tactic(auto)]

mod descriptors;
mod guest;
mod load;
mod snapshot;
mod stack;
mod step;

pub use guest::Guest;
pub use load::LoadFault;
pub use snapshot::Snapshot;
pub use step::{End, FaultKind, Ran, Stepped};
