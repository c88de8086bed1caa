//! Tests of a guest's memory over public calls: what no clause says, and each call once.
#![tactic(auto)]

#[cfg(test)]
mod chain;
#[cfg(test)]
mod compare;
#[cfg(test)]
mod forks;
#[cfg(test)]
mod full;
#[cfg(test)]
mod space;
#[cfg(test)]
mod threads;
#[cfg(test)]
mod writes;
