//! The table that a run writes, where it is read as a table, has the rows of its trace. No crate stands on this one.
//!
//! There is no code here but laws, and the definitions are in `specs`.
//!
//! - `laws`: the text of a run's table, that it is read as this table, when it is one, and what choices and statistics make of it.
#![tactic(auto)]

mod laws;

pub use laws::{law_read_table, law_run_table, law_used_table, law_whole_table};
