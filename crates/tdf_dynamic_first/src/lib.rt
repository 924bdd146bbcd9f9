//! The attributes of a cluster as the text says them, and its first plan or its first fault.
//!
//! - `table`: the table of attributes as the text says it.
//! - `first`: the plan as the text says it, or the first fault.
//! - `laws`: what holds of faults and plans.
#![tactic(auto)]

mod first;
mod laws;
mod table;

pub use first::{First, first_plan};
pub use laws::{law_numbers, law_one_plan, law_plannable};
pub use table::first_table;
