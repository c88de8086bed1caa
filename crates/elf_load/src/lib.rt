//! Reads static ELF executables for RISC-V.
#![tactic(auto)]

mod fault;
mod fields;
mod functions;
mod header_checks;
mod image;
mod loader;
mod segment_checks;
mod segments;
mod symbol_checks;
mod tables;

pub use fault::ElfFault;
pub use image::{Function, Image, Name, Segment};
pub use loader::load;
