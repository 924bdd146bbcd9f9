//! The line numbers of a tree's canonical text: a walk that gives each part the number of its line there.
//!
//! - `stmts`: statements and bodies.
//! - `lines`: parts of one line each.
//! - `blocks`: blocks and their parts.
//! - `tree`: [`number_lines`], the whole tree.
//! - `laws`: what holds of the numbers.
//!
//! Numbers grow as far as 32 bits go and stay there, so that the last one tells whether they ran out.
#![tactic(auto)]

mod blocks;
mod laws;
mod lines;
mod stmts;
mod tree;

pub use laws::{law_numbered, law_places};
pub use tree::number_lines;
