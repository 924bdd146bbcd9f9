//! A traced signal: its samples on their way to the cells of its columns.
ghost use Rattle.std.specs.Prelude.{◌≡◌, ◌≤◌, ◌<◌, ◌+◌, ◌*◌, ◌^◌, ◌++◌, [], ◌∷◌, length, ℕ, IfOk, OnOk};
ghost use Rattle.tdf_trace.specs.Tracked.{label};
ghost use Rattle.tdf_trace.specs.machine.Going.{IsNewFor};
ghost use Rattle.tdf_trace.specs.machine.Showing.{AreColumns, CatchesUp, HaveFewPlaces, NotesOne, TakesCells, TakesOne, TakesOnePeriod};
ghost use Rattle.tdf_trace_rows.specs.Positions.{span_of};
ghost use Rattle.tdf_trace_rows.specs.Stamping.{stamps_after};

use crate::notes::note_all;
use crate::trace::Trace;
use std::alloc::Global;
use std::collections::VecDeque;
use std::marker::Model;
use tdf_base::Memory;
use tdf_fixed::Raw;
use tdf_trace_rows::Stamps;

/// A signal that is traced: the columns that show it, the start of the period that has begun last, the stamps of its positions
/// without a time, and its samples without a position.
#[derive(Drop)]
pub(crate) struct Tracked {
    signal: u32,
    columns: Vec<u32>,
    since: u64,
    pub(crate) stamps: Stamps,
    pub(crate) waiting: VecDeque<Raw>,
}

impl Model for Tracked {
    ghost use Rattle.std.specs.Prelude.{◌≤◌, ◌<◌, ◌+◌, ◌*◌, ◌^◌};
    ghost use Rattle.tdf_trace.specs.Tracked.{TrackedOf};
    ghost use Rattle.tdf_trace.specs.machine.Showing.{HaveFewPlaces};

    ghost Value = { TrackedOf };

    ghost view = { λ a. record {
      signal = a.signal;
      columns = a.columns.items;
      since = a.since;
      stamps = a.stamps;
      waiting = a.waiting.items;
    } };

    ghost invariant = { λ a. record {
      later : a.since ≤ a.stamps.time;
      small : a.stamps.time + a.stamps.left * a.stamps.step < 2 ^ 64;
      few : HaveFewPlaces a.waiting.items;
    } };
}

impl Tracked {
    /// A signal with one column, before its first period.
    pub(crate) fn new(alloc: Global, signal: u32, column: u32) -> Result<Tracked, Memory>
        ensures { IfOk result (IsNewFor signal column) }
    {
        let mut columns = Vec::new(alloc);
        columns.push(column)?;
        Ok(Tracked {
            signal,
            columns,
            since: 0,
            stamps: Stamps::new(),
            waiting: VecDeque::new(alloc),
        })
    }

    /// One column more.
    pub(crate) fn show_in(&mut self, column: u32) -> Result<(), Memory>
        ensures ok { OnOk result
            (self.new ≡ record self.old { columns = self.old.columns ++ column ∷ [] }) }
        ensures signal { self.new.signal ≡ self.old.signal }
        ensures within { (width : ℕ) → column < width → AreColumns width self.old.columns
            → AreColumns width self.new.columns }
    {
        self.columns.push(column)?;
        Ok(())
    }

    /// The next position gets its time and its sample.
    #[inline(always)]
    fn stamp(&mut self, trace: &mut Trace, value: Raw) -> Result<(), Memory>
        requires left { 0 < self.old.stamps.left }
        requires columns { AreColumns (length trace.old.about.variables) self.old.columns }
        requires upto { trace.old.rows.upto ≤ self.old.stamps.time }
        requires few { value.frac ≤ 120 }
        ensures took { OnOk result (TakesCells self.old.columns self.old.stamps.time (Some value)
            trace.old.rows trace.new.rows) }
        ensures on { self.new ≡ record self.old { stamps = stamps_after self.old.stamps } }
        ensures upto { trace.new.rows.upto ≡ trace.old.rows.upto }
        ensures stage { trace.new.stage ≡ trace.old.stage }
        ensures about { trace.new.about ≡ trace.old.about }
    {
        let time = self.stamps.next();
        note_all(trace, &self.columns, time, Some(value))
    }

    /// A sample came: it is noted if its position has a time, else it waits.
    #[inline(always)]
    pub(crate) fn give(&mut self, trace: &mut Trace, value: Raw) -> Result<(), Memory>
        requires columns { AreColumns (length trace.old.about.variables) self.old.columns }
        requires upto { 0 < self.old.stamps.left → trace.old.rows.upto ≤ self.old.stamps.time }
        requires few { value.frac ≤ 120 }
        ensures took { OnOk result
            (TakesOne value self.old self.new trace.old.rows trace.new.rows) }
        ensures label { label self.new ≡ label self.old }
        ensures since { self.new.since ≡ self.old.since }
        ensures time { self.old.stamps.time ≤ self.new.stamps.time }
        ensures left { self.new.stamps.left ≤ self.old.stamps.left }
        ensures upto { trace.new.rows.upto ≡ trace.old.rows.upto }
        ensures stage { trace.new.stage ≡ trace.old.stage }
        ensures about { trace.new.about ≡ trace.old.about }
    {
        if 0 < self.stamps.left {
            return self.stamp(trace, value);
        }
        self.waiting.push_back(value)?;
        Ok(())
    }

    /// Samples that wait get their times, as far as there are positions.
    #[inline(never)]
    fn catch_up(&mut self, trace: &mut Trace) -> Result<(), Memory>
        requires columns { AreColumns (length trace.old.about.variables) self.old.columns }
        requires upto { trace.old.rows.upto ≤ self.old.stamps.time }
        ensures took { OnOk result (CatchesUp self.old self.new trace.old.rows trace.new.rows) }
        ensures label { label self.new ≡ label self.old }
        ensures since { self.new.since ≡ self.old.since }
        ensures time { self.old.stamps.time ≤ self.new.stamps.time }
        ensures upto { trace.new.rows.upto ≡ trace.old.rows.upto }
        ensures stage { trace.new.stage ≡ trace.old.stage }
        ensures about { trace.new.about ≡ trace.old.about }
    {
        while 0 < self.stamps.left {
            match self.waiting.pop_front() {
                None => return Ok(()),
                Some(value) => self.stamp(trace, value)?,
            }
        }
        Ok(())
    }

    /// A period begins, in which the signal has `count` positions; all those of the last one have their times.
    pub(crate) fn begin(
        &mut self,
        trace: &mut Trace,
        start: u64,
        step: u64,
        count: u64,
    ) -> Result<(), Memory>
        requires none { self.old.stamps.left ≡ 0 }
        requires small { start + count * step < 2 ^ 64 }
        requires columns { AreColumns (length trace.old.about.variables) self.old.columns }
        requires upto { trace.old.rows.upto ≤ start }
        ensures took { OnOk result (TakesOnePeriod (span_of start step count) self.old self.new
            trace.old.rows trace.new.rows) }
        ensures label { label self.new ≡ label self.old }
        ensures since { self.new.since ≡ start }
        ensures time { start ≤ self.new.stamps.time }
        ensures upto { trace.new.rows.upto ≡ trace.old.rows.upto }
        ensures stage { trace.new.stage ≡ trace.old.stage }
        ensures about { trace.new.about ≡ trace.old.about }
    {
        self.stamps.begin(start, step, count);
        self.since = start;
        if self.waiting.is_empty() {
            return Ok(());
        }
        self.catch_up(trace)
    }

    /// The signal goes on inside a period that began at `since`, with these stamps, and with these samples that wait.
    pub(crate) fn resume(&mut self, since: u64, stamps: Stamps, later: VecDeque<Raw>)
        requires after { since ≤ stamps.time }
        requires small { stamps.time + stamps.left * stamps.step < 2 ^ 64 }
        requires few { HaveFewPlaces later.items }
        ensures { self.new ≡ record self.old { since = since; stamps = stamps; waiting = later.items } }
    {
        self.since = since;
        self.stamps = stamps;
        self.waiting = later;
    }

    /// The positions below an end that have a time and no sample are noted as unknown.
    pub(crate) fn close(&self, trace: &mut Trace, end: u64) -> Result<(), Memory>
        requires columns { AreColumns (length trace.old.about.variables) self.now.columns }
        requires upto { 0 < self.now.stamps.left → trace.old.rows.upto ≤ self.now.stamps.time }
        ensures noted { OnOk result (NotesOne end self.now trace.old.rows trace.new.rows) }
        ensures upto { trace.new.rows.upto ≡ trace.old.rows.upto }
        ensures stage { trace.new.stage ≡ trace.old.stage }
        ensures about { trace.new.about ≡ trace.old.about }
    {
        let mut stamps = self.stamps;
        while 0 < stamps.left && stamps.time < end {
            let time = stamps.next();
            note_all(trace, &self.columns, time, None)?;
        }
        Ok(())
    }
}
