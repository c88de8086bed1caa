//! Files and guests that several test crates need.
#![tactic(auto)]

mod calls;
mod files;
mod guests;

pub use calls::{push_call, set_register};
pub use files::{
    EDITS, EXIT_7, Edit, LOAD_PAST_DATA, edited, one_segment, symbol_file, two_segments,
};
pub use guests::guest_of;
