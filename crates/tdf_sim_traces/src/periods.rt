//! The periods of traced signals that begin.

use tdf_sim_refinement::Cluster;

/// What goes by time in a run: the time, the start of the period of each cluster, and the clusters, in order of number.
#[derive(Drop)]
pub struct Clock<'a> {
    /// The time, in counts of the resolution.
    pub time: u64,
    /// When the period of each cluster began.
    pub since: &'a [u64],
    /// The clusters.
    pub clusters: &'a [Cluster],
}

ghost use Rattle.std.specs.Prelude.{◌≡◌, ◌<◌, ◌≤◌, ◌/◌, ◌^◌, length, OnOk};
ghost use Rattle.tdf_trace.specs.Calls.{HasNoneLeft, HasStarted, TakesPeriod};
ghost use Rattle.tdf_sim_refinement.specs.Below.{IsClusterOf};
ghost use Rattle.tdf_bind_invariants.specs.Limits.{AreWithinLimits};
ghost use Rattle.tdf_sim_traces.specs.Periods.{CanBegin, CanBeginAll, clock_of, positions_in, span_in};
ghost use Rattle.tdf_sim_traces.specs.machine.Beginning.{HasBegun, IsBeginning};

use crate::signals::TracedSignal;
use tdf_base::Memory;
use tdf_bind::Flat;
use tdf_trace::{Trace, Tracking};

/// How many positions a signal has in a period of its cluster. It takes no memory.
pub fn positions(flat: &Flat, cluster: &Cluster, traced: TracedSignal) -> u64
    requires limits { AreWithinLimits flat.now }
    requires of { IsClusterOf flat.now cluster.now }
    requires port { traced.port < length flat.now.tables.ports }
    requires few { positions_in flat.now.tables cluster.now traced < 2 ^ 64 }
    ensures { result ≡ positions_in flat.now.tables cluster.now traced }
{
    let rate = u64::from(cluster.rate(flat, traced.port));
    cluster.activations(traced.module) * rate
}

/// The step of the positions of a period of a cluster. Where there is one, it is the period.
#[inline(always)]
#[tactic(auto, using(crate::proofs::Spans::by_one))]
fn step_of(cluster: &Cluster, count: u64) -> u64
    requires { 0 < count }
    ensures { result ≡ cluster.now.period / count }
{
    if count == 1 {
        return cluster.period();
    }
    cluster.period() / count
}

/// The period of a signal's cluster begins, and parts into equal steps.
fn begin_one(
    tracking: &mut Tracking,
    trace: &mut Trace,
    flat: &Flat,
    time: u64,
    cluster: &Cluster,
    traced: TracedSignal,
) -> Result<(), Memory>
    requires limits { AreWithinLimits flat.now }
    requires can { CanBegin flat.now time cluster.now traced }
    requires width { tracking.old.width ≤ length trace.old.about.variables }
    requires none { HasNoneLeft traced.signal tracking.old.list }
    requires upto { trace.old.rows.upto ≤ time }
    ensures took { OnOk result (TakesPeriod traced.signal
        (span_in flat.now.tables time cluster.now traced)
        tracking.old.list tracking.new.list trace.old.rows trace.new.rows) }
    ensures started { HasStarted traced.signal time tracking.old.list tracking.new.list }
    ensures width { tracking.new.width ≡ tracking.old.width }
    ensures upto { trace.new.rows.upto ≡ trace.old.rows.upto }
    ensures stage { trace.new.stage ≡ trace.old.stage }
    ensures about { trace.new.about ≡ trace.old.about }
{
    let count = positions(flat, cluster, traced);
    let step = step_of(cluster, count);
    tracking.begin(trace, traced.signal, time, step, count)
}

/// The periods of all signals whose clusters begin one at this time.
///
/// # Errors
/// Out of memory; some cells may be noted then.
#[inline(always)]
pub(crate) fn begin_all(
    tracking: &mut Tracking,
    trace: &mut Trace,
    flat: &Flat,
    clock: &Clock,
    signals: &[TracedSignal],
) -> Result<(), Memory>
    requires can { CanBeginAll flat.now (clock_of clock.now) signals.now
        tracking.old.list }
    requires width { tracking.old.width ≤ length trace.old.about.variables }
    requires upto { trace.old.rows.upto ≤ clock.now.time }
    ensures began { OnOk result (IsBeginning flat.now.tables
        (clock_of clock.now) signals.now (length signals.now)
        tracking.old tracking.new trace.old trace.new) }
    ensures upto { trace.new.rows.upto ≡ trace.old.rows.upto }
    ensures stage { trace.new.stage ≡ trace.old.stage }
    ensures about { trace.new.about ≡ trace.old.about }
{
    for k in 0..signals.len() {
        let place = signals[k].cluster as usize;
        if clock.since[place] == clock.time {
            let cluster = &clock.clusters[place];
            begin_one(tracking, trace, flat, clock.time, cluster, signals[k])?;
        }
    }
    Ok(())
}

/// The same at a time after the start: the periods that begin at the start have begun before its instant.
///
/// # Errors
/// Out of memory; some cells may be noted then.
#[inline(always)]
pub(crate) fn begin_later(
    tracking: &mut Tracking,
    trace: &mut Trace,
    flat: &Flat,
    clock: &Clock,
    signals: &[TracedSignal],
) -> Result<(), Memory>
    requires can { 0 < clock.now.time → CanBeginAll flat.now (clock_of clock.now)
        signals.now tracking.old.list }
    requires width { tracking.old.width ≤ length trace.old.about.variables }
    requires upto { trace.old.rows.upto ≤ clock.now.time }
    ensures began { OnOk result (HasBegun flat.now.tables
        (clock_of clock.now) signals.now tracking.old tracking.new
        trace.old trace.new) }
    ensures upto { trace.new.rows.upto ≡ trace.old.rows.upto }
    ensures stage { trace.new.stage ≡ trace.old.stage }
    ensures about { trace.new.about ≡ trace.old.about }
{
    if clock.time == 0 {
        return Ok(());
    }
    begin_all(tracking, trace, flat, clock, signals)
}
