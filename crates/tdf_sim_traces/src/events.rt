//! The columns of event signals.

use tdf_fixed::Raw;

/// The column of a trace of an event signal.
#[derive(Clone, Copy, Debug, PartialEq, Eq)]
pub struct EventColumn {
    /// The number of the column.
    pub column: u32,
    /// The number of the signal among the event signals.
    pub signal: u32,
    /// The value that it shows.
    pub shown: Raw,
}

ghost use Rattle.std.specs.Prelude.{◌≡◌, ◌+◌, ◌<◌, ◌≤◌, Some, length, slice_get, All, IfOk, OnOk};
ghost use Rattle.tdf_base.specs.Limits.{most_traces};
ghost use Rattle.tdf_sim_history.specs.Cells.{is_same_value};
ghost use Rattle.tdf_sim_traces.specs.Calls.{CanBeShown, start_values};
ghost use Rattle.tdf_sim_traces.specs.Events.{AreEventColumns};
ghost use Rattle.tdf_sim_traces.specs.declared.events.EventColumn.{EventColumn as Column};
ghost use Rattle.tdf_sim_traces.specs.GoingOn.{HaveValues};
ghost use Rattle.tdf_sim_traces.specs.machine.Noting.{HaveShown, IsShowing, TakesChange, with_shown};
ghost use Rattle.tdf_sim_traces.specs.machine.Pushing.{AreColumnsTo};

use std::alloc::Global;
use tdf_base::Memory;
use tdf_bind_tables::FlatTables;
use tdf_trace::Trace;
use tdf_trace_rows::Cell;

/// The trace of an event signal gets its column.
fn push_column(
    tables: &FlatTables,
    column: usize,
    list: &mut Vec<EventColumn>,
) -> Result<(), Memory>
    requires can { CanBeShown tables.now }
    requires column { column < length tables.now.traces }
    requires so_far { AreColumnsTo tables.now.traces (start_values tables.now) column list.old.items }
    ensures { OnOk result
        (AreColumnsTo tables.now.traces (start_values tables.now) (column + 1) list.new.items) }
{
    let row = &tables.traces[column];
    if !row.event {
        return Ok(());
    }
    list.push(EventColumn {
        column: column as u32,
        signal: row.signal,
        shown: tables.de_signals[row.signal as usize].start,
    })?;
    Ok(())
}

/// The columns of the traces of event signals, which show the values that these start with.
///
/// # Errors
/// Out of memory.
pub(crate) fn event_columns(alloc: Global, tables: &FlatTables) -> Result<Vec<EventColumn>, Memory>
    requires { CanBeShown tables.now }
    ensures { IfOk result (λ list.
        AreEventColumns tables.now.traces (start_values tables.now) list.items) }
{
    let mut list = Vec::new(alloc);
    for column in 0..tables.traces.len() {
        push_column(tables, column, &mut list)?;
    }
    Ok(list)
}

/// Whether two values are the same.
fn is_same(a: Raw, b: Raw) -> bool
    ensures { result ≡ is_same_value a b }
{
    a.num == b.num && a.frac == b.frac
}

impl EventColumn {
    /// The column shows the value of its signal; it has a cell at this time, if that is another value.
    fn show(&mut self, trace: &mut Trace, time: u64, values: &[Raw]) -> Result<(), Memory>
        requires column { self.old.column < length trace.old.about.variables }
        requires signal { self.old.signal < length values.now }
        requires time { trace.old.rows.upto ≤ time }
        requires few { All (λ value. value.frac ≤ 120) values.now }
        ensures shown { self.new ≡ with_shown values.now self.old }
        ensures took { OnOk result
            (TakesChange values.now time self.old trace.old.rows trace.new.rows) }
        ensures upto { trace.new.rows.upto ≡ trace.old.rows.upto }
        ensures stage { trace.new.stage ≡ trace.old.stage }
        ensures about { trace.new.about ≡ trace.old.about }
    {
        let before = self.shown;
        let value = values[self.signal as usize];
        self.shown = value;
        if is_same(before, value) {
            return Ok(());
        }
        trace.note(Cell {
            column: self.column,
            time,
            value: Some(value),
        })
    }
}

/// All columns of event signals show the values of a time, with a cell for each that is another one.
///
/// # Errors
/// Out of memory; some cells may be noted then.
pub(crate) fn show_all(
    events: &mut Vec<EventColumn>,
    trace: &mut Trace,
    time: u64,
    values: &[Raw],
) -> Result<(), Memory>
    requires columns { (k : _) (e : Column) → slice_get events.old.items k ≡ Some e
        → e.column < length trace.old.about.variables }
    requires signals { (k : _) (e : Column) → slice_get events.old.items k ≡ Some e
        → e.signal < length values.now }
    requires time { trace.old.rows.upto ≤ time }
    requires few { All (λ value. value.frac ≤ 120) values.now }
    ensures showed { OnOk result (IsShowing values.now time (length events.old.items) events.old.items
        events.new.items trace.old trace.new) }
    ensures upto { trace.new.rows.upto ≡ trace.old.rows.upto }
    ensures stage { trace.new.stage ≡ trace.old.stage }
    ensures about { trace.new.about ≡ trace.old.about }
{
    for k in 0..events.len() {
        events[k].show(trace, time, values)?;
    }
    Ok(())
}

/// All columns of event signals show these values, without a cell.
pub(crate) fn settle_all(events: &mut Vec<EventColumn>, values: &[Raw])
    requires { HaveValues events.old.items values.now }
    ensures { HaveShown values.now (length events.old.items) events.old.items events.new.items }
{
    for k in 0..events.len() {
        let signal = events[k].signal as usize;
        events[k].shown = values[signal];
    }
}
