//! The pages of a 32-bit address space, which are frozen and forked without a copy of what was not written.
#![tactic(auto)]

mod compare;
mod freeze;
mod overlay;
mod pages;
mod place;
mod shared;
mod threads;

pub use pages::Pages;
pub use shared::Shared;
