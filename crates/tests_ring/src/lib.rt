//! Tests of the ring and its core, over their public calls alone: that the calls succeed, and that real threads
//! meet.
#![tactic(auto)]

#[cfg(test)]
mod moves;
#[cfg(test)]
mod squares;
#[cfg(test)]
mod threads;
#[cfg(test)]
mod turns;
