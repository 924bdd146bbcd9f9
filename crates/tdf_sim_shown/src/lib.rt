//! What the trace of a run shows, as a snapshot has it, and a trace that goes on from one.
//!
//! - `resumed`: a trace that goes on from the columns of a snapshot.
//! - `saved`: the time from which rows are still to be written, and the states of the columns.
//! - `members`: its times and turns, and how many states it has.
//! - `windows`: the positions of traced signals in the periods of their clusters.
//! - `missing`: the time from which rows are still to be written.
//! - `column_states`: whether a run can go on from each column.
//! - `alike`: whether columns of one signal are equal.
//! - `judging`: all that is asked of columns.
#![tactic(auto)]

mod alike;
mod column_states;
mod judging;
mod members;
mod missing;
mod resumed;
mod saved;
mod windows;

pub use judging::valid_rows;
pub use members::{has_members, has_times};
pub use resumed::{positions_before, shown_from_columns};
pub use saved::{rows_from, shown_columns};
pub use tdf_sim_resumed::{law_restored, law_resumed, law_saved, restored_clusters};
pub use tdf_sim_traces::{Clock, Shown, law_can};
