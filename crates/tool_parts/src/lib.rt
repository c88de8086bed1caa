//! What tools have in common: how they ask for calls, words of their texts, and, for a tool whose value depends on where a slice
//! starts, what a slice does to every state that it may start from.
#![tactic(auto)]

mod calls;
mod text;

pub use calls::{ask, one_arg, two_args};
pub use text::{push_number, push_routine};
