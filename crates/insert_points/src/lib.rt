//! Where a tool is called, and the events that a step gives.
#![tactic(auto)]

mod call;
mod index;
pub mod laws;
mod operands;
mod plan;
mod planned;
mod pool;
mod step_events;

pub use call::{Arg, Args, Call, Event, Point, Thing};
pub use operands::Operands;
pub use plan::{CallsAt, Found, Plan};
pub use planned::{PlannedCall, Source, Sources};
pub use rv_isa::StepView;
pub use step_events::fire;
