//! Tests of the tools whose slices are reconciled: the call trace and the direct-mapped cache, by one local and by two, and the
//! events that their plans give.
#![tactic(auto)]

#[cfg(test)]
mod cache;
#[cfg(test)]
mod calls;
#[cfg(test)]
mod plans;
#[cfg(test)]
mod samples;
