//! What a run that is cut into slices answers, whatever runs its slices: the definitions, the
//! turns of its master, and a job as a slice.
#![tactic(auto)]

mod slice;
mod turn;

pub use slice::run_job;
pub use turn::next_turn;
