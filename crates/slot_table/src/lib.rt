//! What stands over each page of a 32-bit address space.
#![tactic(auto)]

mod slot;
mod table;

pub use slot::Slot;
pub use table::SlotTable;
