//! The top call of `superpin_live`: from the command words to the answer, by runs whose slices go to workers while the program
//! still runs. It shares what comes before and behind such a run with `superpin_top`.
#![tactic(auto)]

mod engine;
mod program;
mod run;
mod top;

pub use program::{answer_live_words, run_live_program};
pub use sp_report::{Answer, Cuts, Refusal, exit_code};
pub use top::superpin_live;
