//! Tests of a guest and of its calls over public calls: what no clause says, and each call once.
#![tactic(auto)]

#[cfg(test)]
mod atomics;
#[cfg(test)]
mod calls;
#[cfg(test)]
mod files;
#[cfg(test)]
mod kept;
#[cfg(test)]
mod loading;
#[cfg(test)]
mod steps;
