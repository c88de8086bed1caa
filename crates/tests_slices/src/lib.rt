//! Tests of jobs that are made from their parts, and of the slices that repeat them.
#![tactic(auto)]

#[cfg(test)]
mod cuts;
#[cfg(test)]
mod jobs;
#[cfg(test)]
mod slices;
