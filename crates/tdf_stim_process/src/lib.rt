//! What holds of the driver of a table in a flat model. No crate of the program stands on this one.
//!
//! There is no code here but laws, and the definitions are in `specs`.
//!
//! - `laws`: a placed driver is a driver; its signals have the literals of their columns; times rise; an instance of its block by the
//!   text.
#![tactic(auto)]

mod laws;

pub use laws::{law_placed, law_ports, law_text, law_times_rise};
