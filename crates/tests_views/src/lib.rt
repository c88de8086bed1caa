//! Tests of the views, of plans and of the printed lines over their public calls: what no clause says, and each call once.
#![tactic(auto)]

#[cfg(test)]
mod files;
#[cfg(test)]
mod lines;
#[cfg(test)]
mod plans;
#[cfg(test)]
mod texts;
#[cfg(test)]
mod views;
