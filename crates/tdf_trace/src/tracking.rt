//! All traced signals.
ghost use Rattle.std.specs.Prelude.{◌≡◌, ◌≤◌, ◌<◌, ◌+◌, ◌*◌, ◌^◌, [], ◌∷◌, false, length, All, IfOk, OnOk};
ghost use Rattle.tdf_base.specs.Limits.{most_traces};
ghost use Rattle.tdf_trace.specs.Calls.{AreBelow, HasNoneLeft, HasStarted, IsFresh, NotesRest, TakesPeriod, TakesSamples};
ghost use Rattle.tdf_trace.specs.Missing.{IsFirstMissing};
ghost use Rattle.tdf_trace.specs.Starts.{IsLaterOf, IsResumed, TakesStart};
ghost use Rattle.tdf_trace.specs.Tracked.{AreLater, AreSince, labels, sinces};
ghost use Rattle.tdf_trace.specs.machine.Finding.{HasNone, IsPlaceOf, found};
ghost use Rattle.tdf_trace.specs.machine.Going.{AddsTrace, IsAdding};
ghost use Rattle.tdf_trace_rows.specs.Positions.{span_of};

use crate::trace::Trace;
use crate::tracked::Tracked;
use std::alloc::Global;
use std::collections::VecDeque;
use std::marker::Model;
use tdf_base::Memory;
use tdf_bind_connections::TraceRow;
use tdf_convert::Traced;
use tdf_fixed::Raw;
use tdf_trace_rows::Stamps;
use tdf_trace_states::numbers_of;

/// The traced signals of samples of a trace with `width` columns, found by their numbers.
#[derive(Drop)]
pub struct Tracking {
    width: u32,
    list: Vec<Tracked>,
    places: Vec<Option<usize>>,
}

impl Model for Tracking {
    ghost use Rattle.std.specs.Prelude.{length};
    ghost use Rattle.tdf_trace.specs.Tracked.{TrackingOf};
    ghost use Rattle.tdf_trace.specs.machine.Finding.{Finds, HaveColumns};

    ghost Value = { TrackingOf };

    ghost view = { λ a. record {
      width = a.width;
      signals = length a.places.items;
      list = a.list.items;
    } };

    ghost invariant = { λ a. record {
      finds : Finds a.places.items a.list.items;
      columns : HaveColumns a.width a.list.items;
    } };
}

/// The place that is kept for a signal.
fn found_in(places: &Vec<Option<usize>>, signal: u32) -> Option<usize>
    ensures { result ≡ found places.now.items signal }
{
    match places.get(signal as usize) {
        None => None,
        Some(place) => *place,
    }
}

impl Tracking {
    /// The place of a signal in the list, if it is tracked.
    fn place_of(&self, signal: u32) -> Option<usize>
        ensures { IsPlaceOf self.now.list signal result }
    {
        found_in(&self.places, signal)
    }

    /// A signal that isn't tracked yet gets its first column.
    fn track(&mut self, alloc: Global, row: &TraceRow, column: u32) -> Result<(), Memory>
        requires none { HasNone self.old.list row.now.signal }
        requires signal { row.now.signal < self.old.signals }
        requires column { column < self.old.width }
        requires samples { row.now.event ≡ false }
        ensures adds { OnOk result (AddsTrace row.now column self.old.list self.new.list) }
        ensures width { self.new.width ≡ self.old.width }
        ensures signals { self.new.signals ≡ self.old.signals }
    {
        let place = self.list.len();
        let tracked = Tracked::new(alloc, row.signal, column)?;
        self.list.push(tracked)?;
        self.places[row.signal as usize] = Some(place);
        Ok(())
    }

    /// A trace of samples gets its column.
    fn show(&mut self, alloc: Global, row: &TraceRow, column: u32) -> Result<(), Memory>
        requires signal { row.now.signal < self.old.signals }
        requires column { column < self.old.width }
        requires samples { row.now.event ≡ false }
        ensures adds { OnOk result (AddsTrace row.now column self.old.list self.new.list) }
        ensures width { self.new.width ≡ self.old.width }
        ensures signals { self.new.signals ≡ self.old.signals }
    {
        match self.place_of(row.signal) {
            None => self.track(alloc, row, column),
            Some(place) => self.list[place].show_in(column),
        }
    }

    /// A trace gets the next column.
    fn add(&mut self, alloc: Global, row: &TraceRow) -> Result<(), Memory>
        requires few { self.old.width < most_traces }
        requires signal { row.now.event ≡ false → row.now.signal < self.old.signals }
        ensures adds { OnOk result
            (AddsTrace row.now self.old.width self.old.list self.new.list) }
        ensures width { self.new.width ≡ self.old.width + 1 }
        ensures signals { self.new.signals ≡ self.old.signals }
    {
        let column = self.width;
        self.width += 1;
        if row.event {
            return Ok(());
        }
        self.show(alloc, row, column)
    }

    /// All traces get their columns.
    fn add_all(&mut self, alloc: Global, traces: &[TraceRow]) -> Result<(), Memory>
        requires empty { IsAdding [] self.old.signals self.old }
        requires few { length traces.now ≤ most_traces }
        requires signals { AreBelow self.old.signals traces.now }
        ensures { OnOk result (IsFresh traces.now self.new) }
    {
        for i in 0..traces.len() {
            self.add(alloc, &traces[i])?;
        }
        Ok(())
    }

    /// What is kept of the traced signals before the first period: each signal with a trace of samples is tracked, with the columns
    /// of its traces. The numbers of the signals are below `signals`.
    ///
    /// # Errors
    /// Out of memory.
    pub fn new(alloc: Global, traces: &[TraceRow], signals: u32) -> Result<Tracking, Memory>
        requires few { length traces.now ≤ most_traces }
        requires signals { AreBelow signals traces.now }
        ensures { IfOk result (IsFresh traces.now) }
    {
        let places = vec![in alloc; None; signals as usize]?;
        let mut tracking = Tracking {
            width: 0,
            list: Vec::new(alloc),
            places,
        };
        match tracking.add_all(alloc, traces) {
            Ok(()) => Ok(tracking),
            Err(error) => {
                drop(tracking);
                Err(error)
            }
        }
    }

    /// A sample of a signal came.
    #[inline(always)]
    fn give_one(&mut self, trace: &mut Trace, sample: Traced) -> Result<(), Memory>
        requires width { self.old.width ≤ length trace.old.about.variables }
        requires since { AreSince trace.old.rows.upto self.old.list }
        requires few { sample.value.frac ≤ 120 }
        ensures took { OnOk result (TakesSamples (sample ∷ []) self.old.list self.new.list
            trace.old.rows trace.new.rows) }
        ensures width { self.new.width ≡ self.old.width }
        ensures labels { labels self.new.list ≡ labels self.old.list }
        ensures sinces { sinces self.new.list ≡ sinces self.old.list }
        ensures later { AreLater self.old.list self.new.list }
        ensures since { AreSince trace.old.rows.upto self.new.list }
        ensures upto { trace.new.rows.upto ≡ trace.old.rows.upto }
        ensures stage { trace.new.stage ≡ trace.old.stage }
        ensures about { trace.new.about ≡ trace.old.about }
    {
        match self.place_of(sample.signal) {
            None => Ok(()),
            Some(place) => self.list[place].give(trace, sample.value),
        }
    }

    /// Samples of signals came, in this order: each is noted in the columns of its signal, if its position has a time, else it
    /// waits. Those of signals that aren't tracked are passed over.
    ///
    /// # Errors
    /// Out of memory; some cells may be noted then.
    #[inline(always)]
    pub fn give(&mut self, trace: &mut Trace, traced: &[Traced]) -> Result<(), Memory>
        requires width { self.old.width ≤ length trace.old.about.variables }
        requires since { AreSince trace.old.rows.upto self.old.list }
        requires few { All (λ sample. sample.value.frac ≤ 120) traced.now }
        ensures took { OnOk result (TakesSamples traced.now self.old.list self.new.list
            trace.old.rows trace.new.rows) }
        ensures width { self.new.width ≡ self.old.width }
        ensures labels { labels self.new.list ≡ labels self.old.list }
        ensures sinces { sinces self.new.list ≡ sinces self.old.list }
        ensures later { AreLater self.old.list self.new.list }
        ensures since { AreSince trace.old.rows.upto self.new.list }
        ensures upto { trace.new.rows.upto ≡ trace.old.rows.upto }
        ensures stage { trace.new.stage ≡ trace.old.stage }
        ensures about { trace.new.about ≡ trace.old.about }
    {
        for i in 0..traced.len() {
            self.give_one(trace, traced[i])?;
        }
        Ok(())
    }

    /// A period begins in which a signal has `count` positions from `start` on, `step` apart; all those of its last one have their
    /// times. Samples that wait are noted as far as they have a position now. Nothing happens where the signal isn't tracked.
    ///
    /// # Errors
    /// Out of memory; some cells may be noted then.
    pub fn begin(
        &mut self,
        trace: &mut Trace,
        signal: u32,
        start: u64,
        step: u64,
        count: u64,
    ) -> Result<(), Memory>
        requires width { self.old.width ≤ length trace.old.about.variables }
        requires none { HasNoneLeft signal self.old.list }
        requires small { start + count * step < 2 ^ 64 }
        requires upto { trace.old.rows.upto ≤ start }
        ensures took { OnOk result (TakesPeriod signal (span_of start step count) self.old.list
            self.new.list trace.old.rows trace.new.rows) }
        ensures started { HasStarted signal start self.old.list self.new.list }
        ensures width { self.new.width ≡ self.old.width }
        ensures upto { trace.new.rows.upto ≡ trace.old.rows.upto }
        ensures stage { trace.new.stage ≡ trace.old.stage }
        ensures about { trace.new.about ≡ trace.old.about }
    {
        match self.place_of(signal) {
            None => Ok(()),
            Some(place) => self.list[place].begin(trace, start, step, count),
        }
    }

    /// A signal goes on inside a period that began at `since`: the stamps are those of its positions without a sample, and `later`
    /// are its samples without a position. Nothing happens where the signal isn't tracked.
    pub fn resume(&mut self, signal: u32, since: u64, stamps: Stamps, later: VecDeque<Raw>)
        requires after { since ≤ stamps.time }
        requires small { stamps.time + stamps.left * stamps.step < 2 ^ 64 }
        requires few { All (λ value. value.frac ≤ 120) later.items }
        requires idle { 0 < length later.items → stamps.left ≡ 0 }
        ensures resumed { IsResumed signal since stamps later.items self.old.list self.new.list }
        ensures took { TakesStart signal stamps later.items self.old.list self.new.list }
        ensures width { self.new.width ≡ self.old.width }
    {
        match self.place_of(signal) {
            None => drop(later),
            Some(place) => self.list[place].resume(since, stamps, later),
        }
    }

    /// The numbers of the samples of a signal that wait for a position, in order; none where the signal isn't tracked.
    ///
    /// # Errors
    /// Out of memory.
    pub fn later(&self, alloc: Global, signal: u32) -> Result<Vec<i128>, Memory>
        ensures { IfOk result (λ nums. IsLaterOf signal self.now.list nums.items) }
    {
        match self.place_of(signal) {
            None => Ok(Vec::new(alloc)),
            Some(place) => {
                let tracked = &self.list[place];
                numbers_of(alloc, &tracked.waiting)
            }
        }
    }

    /// The least time, below a limit, of a position that has no sample; the limit where there is none.
    pub fn first_missing(&self, limit: u64) -> u64
        ensures { IsFirstMissing self.now.list (length self.now.list) limit result }
    {
        let mut least = limit;
        for i in 0..self.list.len() {
            let tracked = &self.list[i];
            if tracked.stamps.left > 0 && tracked.stamps.time < least {
                least = tracked.stamps.time;
            }
        }
        least
    }

    /// Notes the positions below an end that have no sample as unknown.
    ///
    /// # Errors
    /// Out of memory; some of them may be noted then.
    pub fn close(&self, trace: &mut Trace, end: u64) -> Result<(), Memory>
        requires width { self.now.width ≤ length trace.old.about.variables }
        requires since { AreSince trace.old.rows.upto self.now.list }
        ensures noted { OnOk result
            (NotesRest end self.now.list trace.old.rows trace.new.rows) }
        ensures upto { trace.new.rows.upto ≡ trace.old.rows.upto }
        ensures stage { trace.new.stage ≡ trace.old.stage }
        ensures about { trace.new.about ≡ trace.old.about }
    {
        for i in 0..self.list.len() {
            self.list[i].close(trace, end)?;
        }
        Ok(())
    }
}
