//! Serves the calls of a guest over any host.
#![tactic(auto)]

mod clock;
mod fault;
mod finish;
mod input;
mod maps;
mod output;
mod ranges;
mod run_step;
mod server;

pub use fault::{CallFault, RunFault};
pub use run_step::serve_step;
pub use server::{Served, serve};
