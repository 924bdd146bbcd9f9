//! The text of a snapshot: how it is written, and where the text of its model begins.
//!
//! - `members`: what the text needs of a model: the paths of its parts, and how many numbers each has.
//! - `writing`: the text is appended. `words`, `parts` and `columns` append what it consists of.
//! - `start`: where the text of the model begins.
//! - `laws`: what holds of the texts of snapshots.
#![tactic(auto)]

mod columns;
mod laws;
mod members;
mod parts;
mod start;
mod words;
mod writing;

pub use laws::law_text;
pub use members::{BlockMembers, ClusterMembers, Members, ModuleMembers};
pub use start::text_start;
pub use writing::push_snapshot;
