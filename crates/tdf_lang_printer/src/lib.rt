//! The canonical text of a model: what is printed for a tree, of which no token is seen.
//!
//! - `tree`: [`push_tree`], which appends it.
//! - `blocks`: its blocks and their parts.
//! - `lines`: the lines of blocks.
//! - `stmts`: statements.
//! - `exprs`: expressions and indices.
//! - `words`: the words of a line.
#![tactic(auto)]

mod blocks;
mod exprs;
mod lines;
mod stmts;
mod tree;
mod words;

pub use tree::push_tree;
