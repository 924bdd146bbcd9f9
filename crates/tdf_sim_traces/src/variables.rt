//! The variables of a trace: one for each trace of a model.

ghost use Rattle.std.specs.Prelude.{◌≡◌, ◌<◌, Some, false, true, length, IfOk};
ghost use Rattle.tdf_sim_traces.specs.Signals.{AreTold};
ghost use Rattle.tdf_sim_traces.specs.Variables.{variable_for, trace_variable, variables_of};

use std::alloc::Global;
use tdf_base::{Memory, Name};
use tdf_bind_connections::{SignalRow, TraceRow};
use tdf_bind_tables::FlatTables;
use tdf_trace::Variable;

/// The variable of a trace of a signal.
fn variable(alloc: Global, row: &TraceRow, signal: &SignalRow) -> Result<Variable, Memory>
    ensures { IfOk result (λ variable. variable ≡ variable_for row.now signal.now) }
{
    let label = Name::copied(alloc, row.label.as_bytes())?;
    let first = if row.event { Some(signal.start) } else { None };
    Ok(Variable {
        label,
        format: signal.format,
        first,
    })
}

/// The variable of a trace.
fn variable_at(alloc: Global, tables: &FlatTables, row: &TraceRow) -> Result<Variable, Memory>
    requires samples { row.now.event ≡ false → row.now.signal < length tables.now.signals }
    requires events { row.now.event ≡ true → row.now.signal < length tables.now.de_signals }
    ensures { IfOk result (λ variable. trace_variable tables.now row.now ≡ Some variable) }
{
    let place = row.signal as usize;
    if row.event {
        return variable(alloc, row, &tables.de_signals[place]);
    }
    variable(alloc, row, &tables.signals[place])
}

/// The variables of a trace: one for each trace of the model.
///
/// # Errors
/// Out of memory.
pub(crate) fn variables(alloc: Global, tables: &FlatTables) -> Result<Vec<Variable>, Memory>
    requires { AreTold tables.now }
    ensures { IfOk result (λ list. list.items ≡ variables_of tables.now) }
{
    let mut list = Vec::new(alloc);
    for c in 0..tables.traces.len() {
        list.push(variable_at(alloc, tables, &tables.traces[c])?)?;
    }
    Ok(list)
}
