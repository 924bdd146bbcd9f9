//! Choices and statistics of finished tables, so that long traces are thinned and measured without a new run.
//!
//! - `asked`: what a choice is, and why there is none.
//! - `order`: cells by value.
//! - `columns`: what is kept of the cells of a column.
//! - `groups`: the columns of some rows.
//! - `windows`: rows, window after window.
//! - `choosing`: the rows of a choice.
//! - `stats`: the calls for statistics.
//! - `laws`: what holds of choices and of the least number.
#![tactic(auto)]

mod asked;
mod choosing;
mod columns;
mod groups;
mod laws;
mod order;
mod stats;
mod windows;

pub use asked::{Choice, ChooseErr};
pub use choosing::choose;
pub use laws::{law_choice, law_least};
pub use stats::{push_stats, write_stats};
