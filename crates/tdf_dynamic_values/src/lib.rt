//! The attributes of a cluster by values that are given, and the plan under such a table.
//!
//! - `values`: the table of attributes by given flags, rates and timesteps.
//! - `planned`: a table with its plan, or its first fault.
//! - `states`: the table and the plan by the states of the modules.
//! - `laws`: what holds of such tables and plans.
#![tactic(auto)]

mod laws;
mod planned;
mod states;
mod values;

pub use laws::law_one_table;
pub use planned::plan_of;
pub use states::plan_of_states;
pub use values::from_values;
