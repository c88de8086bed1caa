//! Tests of the tools over their public calls: their texts, by one local and by pieces, and the events that their plans give.
#![tactic(auto)]

#[cfg(test)]
mod pieces;
#[cfg(test)]
mod plans;
#[cfg(test)]
mod samples;
#[cfg(test)]
mod texts;
