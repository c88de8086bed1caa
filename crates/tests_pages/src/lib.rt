//! Tests of pages, their frames and their forks over public calls: what no clause says, and each call once.
#![tactic(auto)]

#[cfg(test)]
mod chain;
#[cfg(test)]
mod compare;
#[cfg(test)]
mod forks;
#[cfg(test)]
mod pool;
#[cfg(test)]
mod threads;
#[cfg(test)]
mod writes;
