//! The law on driven signals: in a run of the driven tree of a table each driven signal has the value of its cell of the last row at or
//! before each time. No crate of the program stands on this one.
//!
//! There is no code here but laws, and the definitions are in `specs`.
//!
//! - `laws`: the law.
#![tactic(auto)]

mod laws;

pub use laws::law_driven;
