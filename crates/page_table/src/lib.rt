//! A table of the pages of a 32-bit address space that is cheap to copy: its copies share their pages.
#![tactic(auto)]

mod branch;
mod leaf;
mod page;
mod table;

pub use page::PageBytes;
pub use table::PageTable;
