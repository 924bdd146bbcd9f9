//! The states of columns.

ghost use Rattle.std.specs.Prelude.{◌≡◌, ◌↔◌, ◌++◌, IfOk, OnOk, length, map, true};
ghost use Rattle.tdf_trace.specs.States.{AreColumnStates, column_state, stamp_of, stamps_held};
ghost use Rattle.tdf_trace.specs.machine.Resuming.{AreColumnsIn, held_in};

use crate::about::Variable;
use crate::column::{Column, Held};
use std::alloc::Global;
use std::collections::VecDeque;
use tdf_base::Memory;
use tdf_fixed::Format;
use tdf_saved::{ColumnState, Stamp};
use tdf_trace_states::{is_column_state, sample_in};

/// A cell with a value as a sample.
fn push_stamp(list: &mut Vec<Stamp>, item: Held) -> Result<(), Memory>
    ensures { OnOk result
        (list.new.items ≡ list.old.items ++ stamp_of item.time item.value) }
{
    match item.value {
        None => Ok(()),
        Some(value) => {
            list.push(Stamp {
                time: item.time,
                num: value.num,
            })?;
            Ok(())
        }
    }
}

/// The cells with a value as samples.
#[tactic(auto, using(crate::proofs::Stated::stamps_more))]
pub(crate) fn stamps_of(alloc: Global, held: &VecDeque<Held>) -> Result<Vec<Stamp>, Memory>
    ensures { IfOk result (λ list. list.items ≡ stamps_held held.now.items) }
{
    let mut list = Vec::new(alloc);
    for i in 0..held.len() {
        push_stamp(&mut list, held[i])?;
    }
    Ok(list)
}

/// Samples of a format as cells that wait.
pub(crate) fn held_in(
    alloc: Global,
    format: Format,
    samples: &[Stamp],
) -> Result<VecDeque<Held>, Memory>
    ensures { IfOk result (λ held. held.items ≡ map (held_in format) samples.now) }
{
    let mut held = VecDeque::new(alloc);
    for i in 0..samples.len() {
        held.push_back(Held {
            time: samples[i].time,
            value: Some(sample_in(format, samples[i].num)),
        })?;
    }
    Ok(held)
}

/// The states of all columns.
#[tactic(auto, using(crate::proofs::Fresh::fresh_laws))]
pub(crate) fn states_of(alloc: Global, columns: &Vec<Column>) -> Result<Vec<ColumnState>, Memory>
    ensures { IfOk result (λ states. states.items ≡ map column_state columns.now.items) }
{
    let mut states = Vec::new(alloc);
    for i in 0..columns.len() {
        let state = columns[i].state(alloc)?;
        states.push(state)?;
    }
    Ok(states)
}

/// Whether states are those of the columns of variables at a time.
pub(crate) fn are_states(variables: &Vec<Variable>, states: &Vec<ColumnState>, time: u64) -> bool
    ensures { (result ≡ true) ↔ AreColumnStates variables.now.items time states.now.items }
{
    if states.len() != variables.len() {
        return false;
    }
    for i in 0..states.len() {
        let variable = &variables[i];
        if !is_column_state(variable.format, variable.first.is_some(), &states[i], time) {
            return false;
        }
    }
    true
}

/// The columns that go on from states of variables.
pub(crate) fn columns_in(
    alloc: Global,
    variables: &Vec<Variable>,
    states: &Vec<ColumnState>,
) -> Result<Vec<Column>, Memory>
    requires { length states.now.items ≡ length variables.now.items }
    ensures { IfOk result (λ columns. AreColumnsIn variables.now.items states.now.items
        (length states.now.items) columns.items) }
{
    let mut columns = Vec::new(alloc);
    for i in 0..states.len() {
        let column = Column::from_state(alloc, variables[i].format, &states[i])?;
        columns.push(column)?;
    }
    Ok(columns)
}
