//! Tests of runs that are cut at hostile places, and of one that never ends.
#![tactic(auto)]

#[cfg(test)]
mod cuts;
#[cfg(test)]
mod never;
#[cfg(test)]
mod run;
