//! Tests of live runs, over the top call: that real workers meet, and what a run leaves.
#![tactic(auto)]

#[cfg(test)]
mod call;
#[cfg(test)]
mod hostile;
#[cfg(test)]
mod meeting;
#[cfg(test)]
mod rows;
