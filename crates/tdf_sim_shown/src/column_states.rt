//! Whether a run can go on from each column.

ghost use Rattle.std.specs.Prelude.{◌≡◌, ◌<◌, ◌↔◌, IfSome, length, true};
ghost use Rattle.tdf_sim_resumed.specs.Valid.{IsValidEvents, IsValidNothing};
ghost use Rattle.tdf_sim_shown.specs.machine.Alike.{AreAlike};
ghost use Rattle.tdf_sim_shown.specs.machine.Windows.{AreColumnsBy, HasRoom, HaveRoom, IsColumnBy, IsSamplesBy, window_from};
ghost use Rattle.tdf_sim_traces.specs.Signals.{AreTold};

use crate::alike::are_alike;
use crate::resumed::positions_before;
use tdf_bind::Flat;
use tdf_bind_connections::TraceRow;
use tdf_saved::{ColumnState, Stamp};
use tdf_trace_states::{Window, is_events_state, is_samples_state};

/// A window whose rows are written up to a time.
fn window_from(window: Window, rows: u64) -> Window
    ensures { result ≡ window_from rows window }
{
    Window {
        since: window.since,
        step: window.step,
        count: window.count,
        first: positions_before(window.since, window.step, window.count, rows),
        known: window.known,
    }
}

/// Whether a column shows nothing.
fn is_nothing(state: &ColumnState) -> bool
    ensures { (result ≡ true) ↔ IsValidNothing state.now }
{
    let samples: &[Stamp] = &state.samples;
    let later: &[i128] = &state.later;
    state.carry.is_none() && samples.is_empty() && later.is_empty()
}

/// Whether a run can go on from the column of a signal of samples with this window; one that no port drives has none.
fn is_samples_column(window: Option<Window>, rows: u64, state: &ColumnState) -> bool
    requires room { IfSome window HasRoom }
    ensures { (result ≡ true) ↔ IsSamplesBy rows window state.now }
{
    match window {
        None => is_nothing(state),
        Some(window) => is_samples_state(rows, window_from(window, rows), state),
    }
}

/// Whether it can from the column of an event signal at a time, where the event signals have these values.
fn is_events_column(
    flat: &Flat,
    row: &TraceRow,
    values: &[i128],
    rows: u64,
    time: u64,
    state: &ColumnState,
) -> bool
    requires signal { row.now.signal < length flat.now.tables.de_signals }
    ensures { (result ≡ true) ↔ IsValidEvents flat.now rows time values.now row.now state.now }
{
    let place = row.signal as usize;
    if place >= values.len() {
        return false;
    }
    let start = flat.tables.de_signals[place].start.num;
    is_events_state(rows, time, start, values[place], state)
}

/// Whether it can from the column of a trace.
fn is_column(
    flat: &Flat,
    row: &TraceRow,
    window: Option<Window>,
    values: &[i128],
    rows: u64,
    time: u64,
    state: &ColumnState,
) -> bool
    requires room { IfSome window HasRoom }
    requires signal { row.now.event ≡ true → row.now.signal < length flat.now.tables.de_signals }
    ensures { (result ≡ true)
        ↔ IsColumnBy flat.now rows time values.now row.now window state.now }
{
    if row.event {
        return is_events_column(flat, row, values, rows, time, state);
    }
    is_samples_column(window, rows, state)
}

/// Whether it can from the columns of all traces.
fn are_columns(
    flat: &Flat,
    windows: &[Option<Window>],
    values: &[i128],
    rows: u64,
    time: u64,
    columns: &[ColumnState],
) -> bool
    requires told { AreTold flat.now.tables }
    requires room { HaveRoom windows.now }
    requires windows { length windows.now ≡ length flat.now.tables.traces }
    requires columns { length columns.now ≡ length flat.now.tables.traces }
    ensures { (result ≡ true)
        ↔ AreColumnsBy flat.now rows time values.now windows.now columns.now }
{
    for n in 0..flat.tables.traces.len() {
        let row = &flat.tables.traces[n];
        if !is_column(flat, row, windows[n], values, rows, time, &columns[n]) {
            return false;
        }
    }
    true
}

/// Whether it can, and columns of one signal are equal.
pub(crate) fn are_good(
    flat: &Flat,
    windows: &[Option<Window>],
    values: &[i128],
    rows: u64,
    time: u64,
    columns: &[ColumnState],
) -> bool
    requires told { AreTold flat.now.tables }
    requires room { HaveRoom windows.now }
    requires windows { length windows.now ≡ length flat.now.tables.traces }
    requires columns { length columns.now ≡ length flat.now.tables.traces }
    ensures { (result ≡ true)
        ↔ (AreColumnsBy flat.now rows time values.now windows.now columns.now
        × AreAlike flat.now.tables.traces columns.now) }
{
    are_columns(flat, windows, values, rows, time, columns)
        && are_alike(&flat.tables.traces, columns)
}
