//! The cells of one column that wait for their rows.
ghost use Rattle.std.specs.Prelude.{◌≡◌, ◌<◌, ◌-◌, ◌^◌, [], length, IfOk, OnOk, OnErr};
ghost use Rattle.tdf_trace.specs.States.{column_state};
ghost use Rattle.tdf_trace.specs.machine.Putting.{AreInOrder, IsPlace, column_with, put};
ghost use Rattle.tdf_trace.specs.machine.Resuming.{column_in};
ghost use Rattle.tdf_trace.specs.machine.Turning.{front_time, turned, waits};

use crate::states::{held_in, stamps_of};
use std::alloc::{AllocError, Global};
use std::collections::VecDeque;
use std::marker::Model;
use tdf_base::Memory;
use tdf_fixed::{Format, Raw};
use tdf_saved::ColumnState;
use tdf_trace_states::{carry_in, number_of};

/// A cell that waits for its row.
#[derive(Clone, Copy)]
pub struct Held {
    /// Its time, in counts of the model's resolution.
    pub time: u64,
    /// Its value, or `None` where it is only announced.
    pub value: Option<Raw>,
}

/// A column: the cells of its rows to come, what its last row shows, and what the row before showed.
#[derive(Drop)]
pub(crate) struct Column {
    held: VecDeque<Held>,
    before: Option<Raw>,
    shown: Option<Raw>,
}

impl Model for Column {
    ghost use Rattle.tdf_trace.specs.Columns.{ColumnSeen};

    ghost Value = { ColumnSeen };

    ghost view = { λ a. record { held = a.held.items; before = a.before; shown = a.shown } };
}

impl Column {
    /// A column without cells, which begins with this value.
    pub(crate) fn new(alloc: Global, first: Option<Raw>) -> Column
        ensures { result ≡ record { held = []; before = first; shown = first } }
    {
        Column {
            held: VecDeque::new(alloc),
            before: first,
            shown: first,
        }
    }

    /// A column that goes on from a state, for a signal of this format.
    pub(crate) fn from_state(
        alloc: Global,
        format: Format,
        state: &ColumnState,
    ) -> Result<Column, Memory>
        ensures { IfOk result (λ column. column ≡ column_in format state.now) }
    {
        let held = held_in(alloc, format, &state.samples)?;
        let shown = carry_in(format, state.carry);
        Ok(Column {
            held,
            before: shown,
            shown,
        })
    }

    /// Its state: what it shows, and its cells with a value.
    pub(crate) fn state(&self, alloc: Global) -> Result<ColumnState, Memory>
        ensures { IfOk result (λ state. state ≡ column_state self.now) }
    {
        let samples = stamps_of(alloc, &self.held)?;
        Ok(ColumnState {
            carry: number_of(self.shown),
            samples,
            later: Vec::new(alloc),
        })
    }

    /// The time of its first cell, or `limit` where it has none.
    pub(crate) fn front_time(&self, limit: u64) -> u64
        ensures { result ≡ front_time self.now.held limit }
    {
        match self.held.front() {
            None => limit,
            Some(item) => item.time,
        }
    }

    /// Whether its first cell is of this time and only announced.
    pub(crate) fn waits(&self, time: u64) -> bool
        ensures { result ≡ waits self.now.held time }
    {
        match self.held.front() {
            None => false,
            Some(item) => item.time == time && item.value.is_none(),
        }
    }

    /// What the row before its last one showed.
    pub(crate) fn before(&self) -> Option<Raw>
        ensures { result ≡ self.now.before }
    {
        self.before
    }

    /// What its last row shows.
    pub(crate) fn shown(&self) -> Option<Raw>
        ensures { result ≡ self.now.shown }
    {
        self.shown
    }

    /// Goes to the row of this time. Returns the time of its first cell then, or the last of all times where it has none.
    #[inline(always)]
    pub(crate) fn turn(&mut self, time: u64) -> u64
        ensures turned { self.new ≡ turned time self.old }
        ensures next { result ≡ front_time self.new.held (2 ^ 64 - 1) }
    {
        self.before = self.shown;
        let front = self.front_time(u64::MAX);
        if front != time {
            return front;
        }
        if let Some(item) = self.held.front() {
            self.shown = item.value;
        }
        self.held.pop_front();
        self.front_time(u64::MAX)
    }

    /// One cell more, or the value of one that was announced.
    #[inline(always)]
    pub(crate) fn put(&mut self, item: Held) -> Result<(), AllocError>
        requires { AreInOrder self.old.held }
        ensures ok { OnOk result (self.new ≡ column_with item self.old) }
        ensures err { OnErr result (self.new ≡ self.old) }
    {
        put_into(&mut self.held, item)?;
        Ok(())
    }
}

/// The place of a time: after all cells before it. New cells mostly come last.
#[inline(always)]
fn place_of(held: &VecDeque<Held>, time: u64) -> usize
    requires { AreInOrder held.now.items }
    ensures { IsPlace held.now.items time result }
{
    let mut k = held.len();
    if k == 0 || held[k - 1].time < time {
        return k;
    }
    while 0 < k && time <= held[k - 1].time {
        k -= 1;
    }
    k
}

/// One cell more at the place of its time, before the cell that stands there, or in its stead where that was announced.
#[inline(never)]
fn put_at(held: &mut VecDeque<Held>, place: usize, item: Held) -> Result<(), AllocError>
    requires place { IsPlace held.old.items item.time place }
    requires before { place < length held.old.items }
    ensures ok { OnOk result (held.new.items ≡ put item held.old.items) }
    ensures err { OnErr result (held.new.items ≡ held.old.items) }
{
    if held[place].time == item.time {
        held[place] = item;
        return Ok(());
    }
    held.insert(place, item)?;
    Ok(())
}

/// One cell more, or the value of one that was announced.
#[inline(always)]
fn put_into(held: &mut VecDeque<Held>, item: Held) -> Result<(), AllocError>
    requires { AreInOrder held.old.items }
    ensures ok { OnOk result (held.new.items ≡ put item held.old.items) }
    ensures err { OnErr result (held.new.items ≡ held.old.items) }
{
    let place = place_of(held, item.time);
    if place == held.len() {
        held.reserve(1)?;
        held.push_back_reserved(item);
        return Ok(());
    }
    // `put_at` gets a copy of its own: a cell that comes last is then never laid down anywhere but in the queue.
    let again = Held {
        time: item.time,
        value: item.value,
    };
    put_at(held, place, again)
}
