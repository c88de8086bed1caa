//! A ring of slots that hands numbered jobs to workers, and their pieces back in order.
#![tactic(auto)]

mod create;
pub mod laws;
mod lead;
mod plays;
mod ring;
mod seats;
mod table;
mod views;
mod work;

pub use ring::Ring;
pub use seats::{LeadSeat, WorkSeat};
pub use views::{Content, Glance, Lead, Look, Numbered, Role, View, Work};
