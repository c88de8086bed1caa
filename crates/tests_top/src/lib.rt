//! Tests of the top call over a host in memory: what no clause says, and each call once.
#![tactic(auto)]

#[cfg(test)]
mod faults;
#[cfg(test)]
mod outside;
#[cfg(test)]
mod refusals;
#[cfg(test)]
mod runs;
#[cfg(test)]
mod tools;
#[cfg(test)]
mod views;
#[cfg(test)]
mod windows;
#[cfg(test)]
mod words;
