//! Tests of what reads a file, a word and the record of a call, over public calls: what no clause
//! says, and each call once.
#![tactic(auto)]

#[cfg(test)]
mod files;
#[cfg(test)]
mod instructions;
#[cfg(test)]
mod records;
