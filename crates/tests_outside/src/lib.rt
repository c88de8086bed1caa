//! Tests of the outside over its public calls: what no clause says, and each call once.
#![tactic(auto)]

#[cfg(test)]
mod hosts;
#[cfg(test)]
mod memory;
#[cfg(test)]
mod pacer;
#[cfg(test)]
mod steady;
#[cfg(test)]
mod system;
#[cfg(test)]
mod whole;
