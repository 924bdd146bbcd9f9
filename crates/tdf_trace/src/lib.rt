//! Traces: the rows of a run as text, written while the run goes on.
//!
//! A [`Trace`] takes cells by column and time, in any order of the columns and also ahead of the run, holds them back until the
//! rows below a time are whole, and writes those rows: as a table, or as a value change dump after IEEE 1364-2005, 18.
//!
//! - `about`: what a trace is of, its variables.
//! - `column`, `columns`: the cells of one column that wait; going from row to row.
//! - `states`: the states of columns.
//! - `tables`, `vcd`: the lines of both kinds.
//! - `rows`: writing rows up to a time.
//! - `heads`: writing what is before the rows, and after them.
//! - `stage`, `trace`: the type [`Trace`] and its calls.
//! - `notes`: noting a cell in some columns.
//! - `tracked`: a traced signal.
//! - `tracking`: all traced signals.
//! - `laws`: what holds of the texts.
#![tactic(auto)]

mod about;
mod column;
mod columns;
mod heads;
mod laws;
mod notes;
mod rows;
mod stage;
mod states;
mod tables;
mod trace;
mod tracked;
mod tracking;
mod vcd;

pub use about::Variable;
pub use laws::{law_left, law_resumed, law_whole};
pub use trace::Trace;
pub use tracking::Tracking;
