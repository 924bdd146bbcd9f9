//! Whether columns of one signal are equal.

ghost use Rattle.std.specs.Prelude.{◌≡◌, ◌<◌, ◌↔◌, length, true};
ghost use Rattle.tdf_sim_shown.specs.machine.Alike.{AreAlike, IsFirstLike};

use tdf_bind_connections::TraceRow;
use tdf_saved::{ColumnState, Stamp};

/// Whether both are the same number, or none.
fn is_same_number(one: Option<i128>, other: Option<i128>) -> bool
    ensures { (result ≡ true) ↔ (one ≡ other) }
{
    match one {
        None => other.is_none(),
        Some(a) => match other {
            None => false,
            Some(b) => a == b,
        },
    }
}

/// Whether the numbers are the same.
fn are_same_numbers(one: &[i128], other: &[i128]) -> bool
    ensures { (result ≡ true) ↔ (one.now ≡ other.now) }
{
    one == other
}

/// Whether the samples are the same.
fn are_same_samples(one: &[Stamp], other: &[Stamp]) -> bool
    ensures { (result ≡ true) ↔ (one.now ≡ other.now) }
{
    one == other
}

/// Whether the states are the same.
fn is_same_state(one: &ColumnState, other: &ColumnState) -> bool
    ensures { (result ≡ true) ↔ (one.now ≡ other.now) }
{
    is_same_number(one.carry, other.carry)
        && are_same_samples(&one.samples, &other.samples)
        && are_same_numbers(&one.later, &other.later)
}

/// Whether two traces show one signal.
fn is_like(one: &TraceRow, other: &TraceRow) -> bool
    ensures { (result ≡ true)
        ↔ (one.now.event ≡ other.now.event) × (one.now.signal ≡ other.now.signal) }
{
    one.event == other.event && one.signal == other.signal
}

/// The first trace of the signal that a trace shows.
fn first_like(traces: &[TraceRow], column: usize) -> usize
    requires { column < length traces.now }
    ensures { IsFirstLike traces.now column result }
{
    for k in 0..column {
        if is_like(&traces[k], &traces[column]) {
            return k;
        }
    }
    column
}

/// Whether each column is the one of the first trace of its signal.
pub(crate) fn are_alike(traces: &[TraceRow], columns: &[ColumnState]) -> bool
    requires { length columns.now ≡ length traces.now }
    ensures { (result ≡ true) ↔ AreAlike traces.now columns.now }
{
    for n in 0..traces.len() {
        let first = first_like(traces, n);
        if !is_same_state(&columns[first], &columns[n]) {
            return false;
        }
    }
    true
}
