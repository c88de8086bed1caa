//! The definitions that several crates cite: a guest's memory as one flat map of bytes, its
//! machine, the effect of an instruction and of a call, and the serial run. No page, host or thread
//! stands in them.
#![tactic(auto)]

pub mod laws;
pub mod platform;
mod system_call;

pub use system_call::SystemCall;

/// A range of whole pages, from `start` to below `end`, and what a guest may do there.
#[derive(Clone, Copy, PartialEq, Eq, Default)]
pub struct Area {
    /// The first address, a multiple of 4,096.
    pub start: u32,
    /// The address behind the last one, a multiple of 4,096.
    pub end: u32,
    pub read: bool,
    pub write: bool,
    pub execute: bool,
}

/// What an access needs.
#[derive(Clone, Copy, PartialEq, Eq)]
pub enum Access {
    Read,
    Write,
    Execute,
}
