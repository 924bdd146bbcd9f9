//! The words of the command: which are taken, and what they ask for.
//!
//! - `asked`: what the words ask for, and why they are not taken.
//! - `command`: the command, and the texts that words give its arguments.
//! - `jobs`: what a job and its options ask for.
//! - `words`: the call of the crate.
//! - `laws`: what some words give.
#![tactic(auto)]

mod asked;
mod command;
mod jobs;
mod laws;
mod words;

pub use asked::{RunOptions, SavePart, Settings, WordsErr};
pub use laws::law_worked;
pub use words::settings;
