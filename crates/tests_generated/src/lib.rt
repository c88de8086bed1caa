//! Tests of generated programs through the top call: what they print, and that runs by windows and live report what the serial one does.
#![tactic(auto)]

#[cfg(test)]
mod counter;
#[cfg(test)]
mod period;
