//! Tests of the demonstration: its whole text for one number, and its lines for others.
#![tactic(auto)]

#[cfg(test)]
mod texts;
