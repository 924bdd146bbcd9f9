//! Whether a run can go on from the state of a column.

ghost use Rattle.std.specs.Prelude.{◌≡◌, ◌+◌, ◌*◌, ◌<◌, ◌^◌, ◌↔◌, All, map, true};
ghost use Rattle.tdf_saved.specs.declared.state.Stamp.{Stamp};
ghost use Rattle.tdf_trace_states.specs.Windows.{AreChangesTo, AreRisingFrom, CarriesFrom, IsEventsState, IsSamplesState};
ghost use Rattle.tdf_trace_states.specs.machine.{StandFrom};

use crate::fitting::do_rise;
use tdf_saved::{ColumnState, Stamp};

/// The positions of a signal of samples in a period that is in progress.
#[derive(Clone, Copy)]
pub struct Window {
    /// When the period began.
    pub since: u64,
    /// The distance of two positions.
    pub step: u64,
    /// How many positions the period has.
    pub count: u64,
    /// The first of them that has no row yet.
    pub first: u64,
    /// How many samples are known, from the first position of the period on.
    pub known: u64,
}

/// Whether samples stand at rising times from a time on.
fn are_rising_from(time: u64, samples: &[Stamp]) -> bool
    ensures { (result ≡ true) ↔ AreRisingFrom time samples.now }
{
    if !do_rise(samples) {
        return false;
    }
    match samples.first() {
        None => true,
        Some(first) => time <= first.time,
    }
}

/// Whether a number is carried exactly where rows begin after the time 0; where they begin there and the period doesn't, the first
/// sample stands there.
fn carries_from(rows: u64, since: u64, state: &ColumnState) -> bool
    ensures { (result ≡ true) ↔ CarriesFrom rows since state.now }
{
    if rows > 0 {
        return state.carry.is_some();
    }
    if state.carry.is_some() {
        return false;
    }
    if since == 0 {
        return true;
    }
    match state.samples.first() {
        None => false,
        Some(sample) => sample.time == 0,
    }
}

/// Whether the samples in the period are those at its positions that are known and have no row yet.
fn stand_from(window: Window, samples: &[Stamp]) -> bool
    requires small { window.since + window.count * window.step < 2 ^ 64 }
    ensures { (result ≡ true) ↔ StandFrom window window.first samples.now }
{
    let end = window.known.min(window.count);
    let mut place = window.first;
    for i in 0..samples.len() {
        let sample = samples[i];
        if sample.time >= window.since {
            if place >= end || sample.time != window.since + place * window.step {
                return false;
            }
            place += 1;
        }
    }
    place >= end
}

/// Whether a run can go on from the state of the column of a signal of samples, where rows are written from `rows` on.
pub fn is_samples_state(rows: u64, window: Window, state: &ColumnState) -> bool
    requires small { window.since + window.count * window.step < 2 ^ 64 }
    ensures { (result ≡ true) ↔ IsSamplesState rows window state.now }
{
    if !are_rising_from(rows, &state.samples) {
        return false;
    }
    if !carries_from(rows, window.since, state) {
        return false;
    }
    if !stand_from(window, &state.samples) {
        return false;
    }
    let later: &[i128] = &state.later;
    later.len() as u64 == window.known.saturating_sub(window.count)
}

/// Whether numbers of samples lead from a value to another: each differs from the one before it, and the last of all is that other
/// value.
fn are_changes_to(value: i128, samples: &[Stamp], last: i128) -> bool
    ensures { (result ≡ true)
        ↔ AreChangesTo value (map (λ (x : Stamp). x.num) samples.now) last }
{
    let mut before = value;
    for i in 0..samples.len() {
        if samples[i].num == before {
            return false;
        }
        before = samples[i].num;
    }
    before == last
}

/// Whether all samples stand below a time.
fn are_before(time: u64, samples: &[Stamp]) -> bool
    ensures { (result ≡ true) ↔ All (λ (x : Stamp). x.time < time) samples.now }
{
    for i in 0..samples.len() {
        if samples[i].time >= time {
            return false;
        }
    }
    true
}

/// Whether a run can go on from the state of the column of an event signal at a time, where rows are written from `rows` on. The signal
/// started with `start`, and has `value` at that time.
pub fn is_events_state(rows: u64, time: u64, start: i128, value: i128, state: &ColumnState) -> bool
    ensures { (result ≡ true) ↔ IsEventsState rows time start value state.now }
{
    let carry = match state.carry {
        None => return false,
        Some(carry) => carry,
    };
    if rows == 0 && carry != start {
        return false;
    }
    let later: &[i128] = &state.later;
    if !later.is_empty() || !are_rising_from(rows, &state.samples) {
        return false;
    }
    are_before(time, &state.samples) && are_changes_to(carry, &state.samples, value)
}
