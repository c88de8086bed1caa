//! Tests of runs by windows: where they are cut, their lines, what stops them, and that the slices of one window run side by side.
#![tactic(auto)]

#[cfg(test)]
mod meeting;
#[cfg(test)]
mod programs;
#[cfg(test)]
mod runs;
#[cfg(test)]
mod setting;
#[cfg(test)]
mod stops;
