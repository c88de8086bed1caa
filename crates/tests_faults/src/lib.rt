//! Tests of the top call where the outside fails at each of its calls in turn.
#![tactic(auto)]

#[cfg(test)]
mod inputs;
#[cfg(test)]
mod places;
#[cfg(test)]
mod run;
