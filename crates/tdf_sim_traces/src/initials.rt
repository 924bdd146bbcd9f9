//! The samples that traced signals start with.

ghost use Rattle.std.specs.Prelude.{◌≡◌, ◌≤◌, Some, length, slice_get, All, IfOk, OnOk};
ghost use Rattle.tdf_trace.specs.Calls.{TakesSamples};
ghost use Rattle.tdf_trace.specs.Tracked.{AreSince, labels, sinces};
ghost use Rattle.tdf_sim_traces.specs.declared.signals.TracedSignal.{TracedSignal as Signal};
ghost use Rattle.tdf_sim_traces.specs.machine.Giving.{IsGivingTo, initials_of, traced_with};
ghost use Rattle.tdf_streams.specs.Cluster.{initial_samples};

use crate::signals::TracedSignal;
use std::alloc::Global;
use tdf_base::Memory;
use tdf_bind_connections::EdgeRow;
use tdf_bind_tables::FlatTables;
use tdf_convert::Traced;
use tdf_exec_layout::initial_samples;
use tdf_fixed::Raw;
use tdf_trace::{Trace, Tracking};

/// The initial samples of a port: those of an edge that it gives and that no port drives.
fn port_initials(alloc: Global, tables: &FlatTables, port: u32) -> Result<Vec<Raw>, Memory>
    ensures { IfOk result (λ samples.
        samples.items ≡ initial_samples tables.now (slice_get tables.now.ports port)) }
{
    let edge = EdgeRow {
        port,
        driver: None,
        writer: 0,
        reader: 0,
        initial: 0,
    };
    initial_samples(alloc, tables, edge)
}

/// Samples of one signal, as firings trace them.
fn traced_with(alloc: Global, signal: u32, values: &[Raw]) -> Result<Vec<Traced>, Memory>
    ensures { IfOk result (λ list. list.items ≡ traced_with signal values.now) }
{
    let mut list = Vec::new(alloc);
    for j in 0..values.len() {
        list.push(Traced {
            signal,
            value: values[j],
        })?;
    }
    Ok(list)
}

/// A signal gets its initial samples.
fn give_one(
    alloc: Global,
    tracking: &mut Tracking,
    trace: &mut Trace,
    tables: &FlatTables,
    traced: TracedSignal,
) -> Result<(), Memory>
    requires width { tracking.old.width ≤ length trace.old.about.variables }
    requires since { AreSince trace.old.rows.upto tracking.old.list }
    requires few { All (λ value. value.frac ≤ 120) (initials_of tables.now traced) }
    ensures took { OnOk result (TakesSamples
        (traced_with traced.signal (initials_of tables.now traced))
        tracking.old.list tracking.new.list trace.old.rows trace.new.rows) }
    ensures width { tracking.new.width ≡ tracking.old.width }
    ensures labels { labels tracking.new.list ≡ labels tracking.old.list }
    ensures sinces { sinces tracking.new.list ≡ sinces tracking.old.list }
    ensures since { AreSince trace.old.rows.upto tracking.new.list }
    ensures upto { trace.new.rows.upto ≡ trace.old.rows.upto }
    ensures stage { trace.new.stage ≡ trace.old.stage }
    ensures about { trace.new.about ≡ trace.old.about }
{
    let values = port_initials(alloc, tables, traced.port)?;
    let list = traced_with(alloc, traced.signal, &values)?;
    tracking.give(trace, &list)
}

/// All signals get their initial samples.
///
/// # Errors
/// Out of memory; some cells may be noted then.
pub(crate) fn give_all(
    alloc: Global,
    tracking: &mut Tracking,
    trace: &mut Trace,
    tables: &FlatTables,
    signals: &[TracedSignal],
) -> Result<(), Memory>
    requires width { tracking.old.width ≤ length trace.old.about.variables }
    requires since { AreSince trace.old.rows.upto tracking.old.list }
    requires few { (k : _) (t : Signal) → slice_get signals.now k ≡ Some t
        → All (λ value. value.frac ≤ 120) (initials_of tables.now t) }
    ensures gave { OnOk result (IsGivingTo tables.now signals.now (length signals.now)
        tracking.old tracking.new trace.old trace.new) }
    ensures upto { trace.new.rows.upto ≡ trace.old.rows.upto }
    ensures stage { trace.new.stage ≡ trace.old.stage }
    ensures about { trace.new.about ≡ trace.old.about }
{
    for k in 0..signals.len() {
        give_one(alloc, tracking, trace, tables, signals[k])?;
    }
    Ok(())
}
