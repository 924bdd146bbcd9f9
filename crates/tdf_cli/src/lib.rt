//! The command: its words, its jobs and its answer.
//!
//! * `command`: the top call.
//! * `drive`: the job `drive`.
//! * `input`: the words, and the text of the model: read, or made.
//! * `jobs`: what each outcome writes, but for runs.
//! * `run`: the job `run`.
//! * `save`: the job `save`.
//! * `resume`: the job `resume`.
//! * `nowhere`: a sink that keeps nothing.
//! * `measure`: the job `load`.
//! * `tables`: the jobs `sample` and `stats`.
//! * `notes`: outcomes that only leave a note.
//! * `parts`: the two parts of the text of `drive`.
//! * `refusals`: the faults of texts, and how they are noted.
//! * `status`: the answers and their numbers.
//! * `laws`: there is at most one outcome.
#![tactic(auto)]

mod command;
mod drive;
mod input;
mod jobs;
mod laws;
mod measure;
mod notes;
mod nowhere;
mod parts;
mod refusals;
mod resume;
mod run;
mod save;
mod status;
mod tables;

pub use command::tool;
pub use laws::law_one_outcome;
pub use status::{NO_MEMORY, USAGE, WRITE_FAULT};
pub use tdf_sim::{Ran, check_tree, elaborate};
