//! What holds of the flat model of a model whose last instance is one of a block with one process. No crate of the program stands on
//! this one.
//!
//! There is no code here but laws, and the definitions are in `specs`.
//!
//! - `laws`: where the last instance stands, and that its signals have no other driver; which ports a process
//!   marks.
#![tactic(auto)]

mod laws;

pub use laws::{law_last_alone, law_last_block, law_marks};
