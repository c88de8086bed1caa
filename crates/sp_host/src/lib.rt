//! The outside, as a program sees it: files, input, moments, three ports to write to, and a pacer
//! that says when it is time.
//!
//! [`Host`], [`Pacer`] and [`Gate`] are traits. [`MemoryHost`] and [`ListPacer`] follow a plan,
//! [`SteadyHost`] never fails, [`EveryPacer`] counts, [`FreeGate`] is always open, and [`StdHost`]
//! and [`TimePacer`] are the system.
#![tactic(auto)]

mod gate;
mod host;
mod memory;
mod pacer;
mod real;
mod steady;
mod timed;
mod whole;

pub use gate::{FreeGate, Gate};
pub use host::{Failed, Host, Port};
pub use memory::{FaultPlan, MemoryHost};
pub use pacer::{EveryPacer, ListPacer, Pacer};
pub use real::StdHost;
pub use steady::SteadyHost;
pub use timed::TimePacer;
pub use whole::{MAX_FILE, ReadFault, read_whole, read_within, write_whole};
