//! Tests of the command words over the public calls: lists of words and what is to be read of them, by hand.
#![tactic(auto)]

#[cfg(test)]
mod asked;
#[cfg(test)]
mod refused;
#[cfg(test)]
mod words;
