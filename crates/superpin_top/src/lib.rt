//! The top call of `superpin`: from the command words to the answer.
#![tactic(auto)]

mod answer;
mod engine;
mod file;
mod load;
mod program;
mod report;
mod run;
mod show;
mod top;
mod view;
mod words;

pub use answer::{answer_attempt, refuse};
pub use engine::{Done, How};
pub use load::{LoadedRun, load_run};
pub use program::{answer_words, command_words, refuse_words, run_program};
pub use run::{Planned, finish, plan_run};
pub use sp_report::{Answer, Cuts, Refusal, exit_code};
pub use top::superpin;
pub use words::refusal_of_words;
