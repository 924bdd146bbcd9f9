//! A trace that goes on from the columns of a snapshot.

ghost use Rattle.std.specs.Prelude.{◌≡◌, ◌+◌, ◌*◌, ◌^◌, ◌<◌, ◌≤◌, All, Err, IfOk, OnOk, length};
ghost use Rattle.tdf_saved.specs.declared.err.StateErr.TheVariants as why;
ghost use Rattle.tdf_sim_shown.specs.Resumed.{CanGoOnFrom, HaveEventValues, LeavesSince, ShowsResumed, skipped_in};
ghost use Rattle.tdf_sim_shown.specs.machine.Resuming.{HaveTaken, TakesAt, TakesState, given_from, later_in, rest_in};
ghost use Rattle.tdf_sim_traces.specs.GoingOn.{IsNotMade};
ghost use Rattle.tdf_sim_traces.specs.Periods.{CanBegin, clock_of, positions_in};
ghost use Rattle.tdf_sim_traces.specs.Variables.{variables_of};
ghost use Rattle.tdf_bind_invariants.specs.Limits.{AreWithinLimits};
ghost use Rattle.tdf_trace.specs.States.{AreColumnStates, AreStampedFrom};
ghost use Rattle.tdf_trace.specs.Writings.{about_of};
ghost use Rattle.tdf_trace.specs.declared.stage.Stage.TheVariants.{Open};

use std::alloc::Global;
use std::collections::VecDeque;
use tdf_base::Memory;
use tdf_bind::Flat;
use tdf_fixed::{Format, Raw};
use tdf_saved::{ColumnState, Stamp, StateErr};
use tdf_sim_resumed::Cluster;
use tdf_sim_traces::{Clock, Shown, TracedSignal, positions, traced_at};
use tdf_trace::Tracking;
use tdf_trace_rows::{Stamps, TraceKind};
use tdf_trace_states::samples_in;

/// How many samples stand at a time or after it.
fn count_from(samples: &[Stamp], time: u64) -> u64
    ensures { result ≡ given_from time samples.now }
{
    let mut count = 0;
    for i in 0..samples.len() {
        if samples[i].time >= time {
            count += 1;
        }
    }
    count
}

/// How many of the positions of a period lie before a time. Without a step all of them lie at its start. It takes no memory.
pub fn positions_before(since: u64, step: u64, count: u64, time: u64) -> u64
    ensures is { result ≡ skipped_in since step count time }
    ensures within { result ≤ count }
{
    if time <= since {
        return 0;
    }
    if step == 0 {
        return count;
    }
    count.min((time - since - 1) / step + 1)
}

/// The stamps of the positions of a period that have no sample: from the first position at a time or after it on, so many have
/// theirs.
fn rest_of(since: u64, step: u64, count: u64, rows: u64, given: u64) -> Stamps
    requires small { since + count * step < 2 ^ 64 }
    ensures is { result ≡ rest_in since step count rows given }
    ensures end { result.time + result.left * result.step ≤ since + count * step }
{
    let skipped = positions_before(since, step, count, rows);
    let done = given.min(count - skipped);
    Stamps {
        time: since + skipped * step + done * step,
        step,
        left: count - skipped - done,
    }
}

/// The samples that wait for a later period; none while the period has positions without a sample.
fn later_of(
    alloc: Global,
    format: Format,
    nums: &[i128],
    left: u64,
) -> Result<VecDeque<Raw>, Memory>
    ensures is { IfOk result (λ samples. samples.items ≡ later_in format nums.now left) }
    ensures few { IfOk result (λ samples. All (λ v. v.frac ≤ 120) samples.items) }
{
    if left > 0 {
        return Ok(VecDeque::new(alloc));
    }
    samples_in(alloc, format, nums)
}

/// A signal goes on inside the period of its cluster with what the state of a column of it has.
fn resume_signal(
    alloc: Global,
    tracking: &mut Tracking,
    flat: &Flat,
    since: u64,
    cluster: &Cluster,
    traced: TracedSignal,
    state: &ColumnState,
    rows: u64,
) -> Result<(), Memory>
    requires limits { AreWithinLimits flat.now }
    requires can { CanBegin flat.now since cluster.now traced }
    requires signal { traced.signal < length flat.now.tables.signals }
    ensures took { OnOk result (TakesState flat.now since cluster.now traced state.now rows
        tracking.old.list tracking.new.list) }
    ensures width { tracking.new.width ≡ tracking.old.width }
{
    let count = positions(flat, cluster, traced);
    let step = cluster.period() / count;
    let given = count_from(&state.samples, since);
    let stamps = rest_of(since, step, count, rows, given);
    let format = flat.tables.signals[traced.signal as usize].format;
    let later = later_of(alloc, format, &state.later, stamps.left)?;
    tracking.resume(traced.signal, since, stamps, later);
    Ok(())
}

/// The signal that a column shows goes on, if it is one of samples that a port of a module drives.
fn resume_column(
    alloc: Global,
    tracking: &mut Tracking,
    flat: &Flat,
    clock: &Clock,
    states: &[ColumnState],
    column: usize,
    rows: u64,
) -> Result<(), Memory>
    requires can { CanGoOnFrom flat.now (clock_of clock.now) }
    requires column { column < length flat.now.tables.traces }
    ensures took { OnOk result (TakesAt flat.now (clock_of clock.now) states.now rows column
        tracking.old.list tracking.new.list) }
    ensures width { tracking.new.width ≡ tracking.old.width }
{
    let traced = match traced_at(flat, column) {
        None => return Ok(()),
        Some(traced) => traced,
    };
    match states.get(column) {
        None => Ok(()),
        Some(state) => {
            let place = traced.cluster as usize;
            let cluster = &clock.clusters[place];
            resume_signal(
                alloc,
                tracking,
                flat,
                clock.since[place],
                cluster,
                traced,
                state,
                rows,
            )
        }
    }
}

/// All signals of samples go on.
fn resume_all(
    alloc: Global,
    tracking: &mut Tracking,
    flat: &Flat,
    clock: &Clock,
    states: &[ColumnState],
    rows: u64,
) -> Result<(), Memory>
    requires can { CanGoOnFrom flat.now (clock_of clock.now) }
    ensures took { OnOk result (HaveTaken flat.now (clock_of clock.now) states.now rows
        (length flat.now.tables.traces) tracking.old.list tracking.new.list) }
    ensures width { tracking.new.width ≡ tracking.old.width }
{
    for column in 0..flat.tables.traces.len() {
        resume_column(alloc, tracking, flat, clock, states, column, rows)?;
    }
    Ok(())
}

/// A trace that goes on from the columns of a snapshot: `clock` has its time, and the clusters inside the periods that it says, and
/// `values` those of the event signals. Rows are to be written from `rows` on.
///
/// # Errors
/// Bad where the columns aren't one for each trace, or one isn't a state of a column of its signal; out of memory.
pub fn shown_from_columns(
    alloc: Global,
    flat: &Flat,
    kind: TraceKind,
    columns: Vec<ColumnState>,
    values: &[Raw],
    clock: &Clock,
    rows: u64,
) -> Result<Shown, StateErr>
    requires can { CanGoOnFrom flat.now (clock_of clock.now) }
    requires values { HaveEventValues flat.now.tables.traces values.now }
    requires from { AreStampedFrom rows columns.items }
    ensures shown { IfOk result (ShowsResumed flat.now (clock_of clock.now) columns.items
        values.now rows) }
    ensures upto { IfOk result (λ shown. shown.trace.rows.upto ≡ rows) }
    ensures stage { IfOk result (λ shown. shown.trace.stage ≡ Open) }
    ensures about { IfOk result (λ shown. shown.trace.about
        ≡ about_of kind flat.now.resolution (variables_of flat.now.tables)) }
    ensures since { IfOk result (LeavesSince flat.now (clock_of clock.now) columns.items rows) }
    ensures fit { IfOk result (λ shown.
        AreColumnStates (variables_of flat.now.tables) clock.now.time columns.items) }
    ensures bad { result ≡ Err why.Bad
        → AreColumnStates (variables_of flat.now.tables) clock.now.time columns.items → ⊥ }
    ensures bad_always { (AreColumnStates (variables_of flat.now.tables) clock.now.time
        columns.items → ⊥) → IsNotMade result }
{
    let mut shown = Shown::new(alloc, flat, kind)?;
    resume_all(alloc, &mut shown.tracking, flat, clock, &columns, rows)?;
    shown.go_on(alloc, flat, kind, columns, values, clock.time, rows)?;
    Ok(shown)
}
