//! Tests of records: those that served calls leave are played on a second guest, and those made by hand fit or not.
#![tactic(auto)]

#[cfg(test)]
mod fitting;
#[cfg(test)]
mod playing;
