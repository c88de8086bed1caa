//! Runs in which something outside fails, and runs that are cut at hostile places: what they meet, and what they must leave. The
//! call that makes the runs is the tests' own, so that each call that answers as the program does can be tried on the same rows.
#![tactic(auto)]

mod faults;
mod programs;
mod row;
mod schedules;

pub use faults::{
    INPUT_FAILS, INPUT_LASTS, OUT_AND_REPORT_FAIL, file_fault, out_fault, report_fault,
};
pub use programs::{Program, file_of};
pub use row::{FAULTLESS, Faults, Row, Wanted, host_of, is_met, words_of};
pub use schedules::{
    ACROSS_PAGES, TEXTS, TURNS_FOR_EVER, ToolText, each_step_cut, once_cut, one_answer,
};
