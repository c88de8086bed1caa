//! A guest's memory: areas over pages of bytes.
#![tactic(auto)]

mod areas;
mod clear;
mod code;
mod frozen;
pub mod laws;
mod number;
mod rights;
mod space;
mod threads;

pub use frozen::FrozenSpace;
pub use guest_model::{Access, Area};
pub use space::{Denied, Space};
