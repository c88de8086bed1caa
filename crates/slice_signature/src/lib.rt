//! The signature of a position: the part of a state by which a slice first looks for its end.
#![tactic(auto)]

mod signature;

pub use signature::Signature;
