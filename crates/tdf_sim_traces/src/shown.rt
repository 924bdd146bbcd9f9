//! The trace of a run with all that leads to its columns.

use crate::events::{EventColumn, event_columns, settle_all, show_all};
use crate::signals::{TracedSignal, traced_signals};
use tdf_trace::{Trace, Tracking};

/// The trace of a run while it goes on: the trace, the samples on their way to it, and which signals it shows.
#[derive(Drop)]
pub struct Shown {
    /// The trace.
    pub trace: Trace,
    /// The samples of traced signals on their way to their cells.
    pub tracking: Tracking,
    /// The traced signals of samples that ports of modules drive.
    pub signals: Vec<TracedSignal>,
    /// The columns of event signals.
    pub events: Vec<EventColumn>,
}

ghost use Rattle.std.specs.Prelude.{◌≡◌, ◌≤◌, Err, length, IfOk, OnOk};
ghost use Rattle.tdf_trace.specs.Tracked.{AreSince};
ghost use Rattle.tdf_events.specs.Runnable.{IsRunnable};
ghost use Rattle.tdf_sim_refinement.specs.Below.{IsSoundFlat};
ghost use Rattle.tdf_sim_traces.specs.Calls.{CanBeShown, CanStart, CanTake, IsUnshown, ShowsEnd, ShowsInstant, StartsShowing};
ghost use Rattle.tdf_sim_traces.specs.GoingOn.{GoesOnFromStates, HaveValues, IsNotMade};
ghost use Rattle.tdf_sim_traces.specs.Periods.{clock_at, clock_of};
ghost use Rattle.tdf_sim_traces.specs.Variables.{variables_of};
ghost use Rattle.tdf_saved.specs.declared.err.StateErr.TheVariants as why;
ghost use Rattle.tdf_trace.specs.States.{AreColumnStates, AreStampedFrom};

use crate::initials::give_all;
use crate::periods::{Clock, begin_all, begin_later};
use crate::variables::variables;
use std::alloc::Global;
use tdf_base::{Memory, row_number};
use tdf_bind::Flat;
use tdf_convert::Traced;
use tdf_fixed::Raw;
use tdf_saved::{ColumnState, StateErr};
use tdf_sim_refinement::Cluster;
use tdf_trace_rows::TraceKind;

impl Shown {
    /// A trace of a run that has not begun, before its head is written. The traces of event signals show the values that these
    /// start with.
    ///
    /// # Errors
    /// Out of memory.
    pub fn new(alloc: Global, flat: &Flat, kind: TraceKind) -> Result<Shown, Memory>
        requires can { CanBeShown flat.now.tables }
        ensures { IfOk result (IsUnshown kind flat.now) }
    {
        let signals = traced_signals(alloc, flat)?;
        let events = event_columns(alloc, &flat.tables)?;
        let count = row_number(flat.tables.signals.len())?;
        let tracking = Tracking::new(alloc, &flat.tables.traces, count)?;
        let columns = variables(alloc, &flat.tables)?;
        let trace = Trace::new(alloc, columns, flat.resolution, kind)?;
        Ok(Shown {
            trace,
            tracking,
            signals,
            events,
        })
    }

    /// The trace goes on from the states of its columns at a time, with rows to be written from `rows` on; the columns of event signals
    /// show the values that these have then.
    ///
    /// # Errors
    /// Bad where they are no such states; out of memory.
    pub fn go_on(
        &mut self,
        alloc: Global,
        flat: &Flat,
        kind: TraceKind,
        states: Vec<ColumnState>,
        values: &[Raw],
        time: u64,
        rows: u64,
    ) -> Result<(), StateErr>
        requires can { CanBeShown flat.now.tables }
        requires from { AreStampedFrom rows states.items }
        requires signals { HaveValues self.old.events.items values.now }
        ensures goes_on { OnOk result
            (GoesOnFromStates kind flat.now states.items values.now rows self.old self.new) }
        ensures fit { OnOk result
            (AreColumnStates (variables_of flat.now.tables) time states.items) }
        ensures bad { result ≡ Err why.Bad
            → AreColumnStates (variables_of flat.now.tables) time states.items → ⊥ }
        ensures bad_always { (AreColumnStates (variables_of flat.now.tables) time states.items → ⊥)
            → IsNotMade result }
    {
        let columns = variables(alloc, &flat.tables)?;
        self.trace = Trace::from_columns(
            alloc,
            columns,
            flat.resolution,
            kind,
            states,
            time,
            rows,
        )?;
        settle_all(&mut self.events, values);
        Ok(())
    }

    /// The run starts: each traced signal has its initial samples, and its first period begins. `since` has the start of the period
    /// of each cluster.
    ///
    /// # Errors
    /// Out of memory.
    pub fn start(
        &mut self,
        alloc: Global,
        flat: &Flat,
        since: &[u64],
        clusters: &[Cluster],
    ) -> Result<(), Memory>
        requires { CanStart flat.now (clock_at 0 since.now clusters.now) self.old }
        ensures shown { OnOk result
            (StartsShowing flat.now (clock_at 0 since.now clusters.now) self.old self.new) }
        ensures upto { self.new.trace.rows.upto ≡ self.old.trace.rows.upto }
        ensures stage { self.new.trace.stage ≡ self.old.trace.stage }
        ensures about { self.new.trace.about ≡ self.old.trace.about }
    {
        let clock = Clock {
            time: 0,
            since,
            clusters,
        };
        begin_all(
            &mut self.tracking,
            &mut self.trace,
            flat,
            &clock,
            &self.signals,
        )?;
        give_all(
            alloc,
            &mut self.tracking,
            &mut self.trace,
            &flat.tables,
            &self.signals,
        )
    }

    /// Takes what an instant gave: the periods that began, the samples that firings traced, and the values that the event signals have
    /// settled.
    ///
    /// # Errors
    /// Out of memory.
    #[inline(always)]
    pub fn take(
        &mut self,
        flat: &Flat,
        clock: &Clock,
        traced: &[Traced],
        values: &[Raw],
    ) -> Result<(), Memory>
        requires { CanTake flat.now (clock_of clock.now) traced.now values.now self.old }
        ensures shown { OnOk result
            (ShowsInstant flat.now (clock_of clock.now) traced.now values.now self.old self.new) }
        ensures since { OnOk result
            (AreSince self.old.trace.rows.upto self.new.tracking.list) }
        ensures upto { self.new.trace.rows.upto ≡ self.old.trace.rows.upto }
        ensures stage { self.new.trace.stage ≡ self.old.trace.stage }
        ensures about { self.new.trace.about ≡ self.old.trace.about }
    {
        begin_later(
            &mut self.tracking,
            &mut self.trace,
            flat,
            clock,
            &self.signals,
        )?;
        self.tracking.give(&mut self.trace, traced)?;
        show_all(&mut self.events, &mut self.trace, clock.time, values)
    }

    /// The run ends: the positions of traced signals below the end that have no sample are unknown.
    ///
    /// # Errors
    /// Out of memory.
    pub fn close(&mut self, end: u64) -> Result<(), Memory>
        requires width { self.old.tracking.width ≤ length self.old.trace.about.variables }
        requires since { AreSince self.old.trace.rows.upto self.old.tracking.list }
        ensures shown { OnOk result (ShowsEnd end self.old self.new) }
        ensures upto { self.new.trace.rows.upto ≡ self.old.trace.rows.upto }
        ensures stage { self.new.trace.stage ≡ self.old.trace.stage }
        ensures about { self.new.trace.about ≡ self.old.trace.about }
        ensures rest { self.new ≡ record self.old { trace = self.new.trace } }
    {
        self.tracking.close(&mut self.trace, end)
    }
}
