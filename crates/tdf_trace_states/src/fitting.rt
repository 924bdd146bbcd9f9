//! Whether a state is one of a column.

ghost use Rattle.std.specs.Prelude.{◌≡◌, ◌<◌, ◌↔◌, IfSome, None, Some, true};
ghost use Rattle.tdf_trace_states.specs.ColumnStates.{DoRise, IsColumnState, IsInFormat, ShowsChanges};
ghost use Rattle.tdf_trace_states.specs.machine.{AreChanges, AreInFormat, AreStampsInFormat};

use tdf_fixed::Format;
use tdf_saved::{ColumnState, Stamp};

/// Whether numbers lie in the range of the format.
fn are_numbers(format: Format, nums: &[i128]) -> bool
    ensures { (result ≡ true) ↔ AreInFormat format nums.now }
{
    for i in 0..nums.len() {
        if !format.holds(nums[i]) {
            return false;
        }
    }
    true
}

/// Whether the numbers of samples do.
fn are_stamped(format: Format, samples: &[Stamp]) -> bool
    ensures { (result ≡ true) ↔ AreStampsInFormat format samples.now }
{
    for i in 0..samples.len() {
        if !format.holds(samples[i].num) {
            return false;
        }
    }
    true
}

/// Whether what is shown before all else does, if there is something.
fn is_carry(format: Format, carry: Option<i128>) -> bool
    ensures { (result ≡ true) ↔ IfSome carry (IsInFormat format) }
{
    match carry {
        None => true,
        Some(num) => format.holds(num),
    }
}

/// Whether samples stand at rising times.
pub(crate) fn do_rise(samples: &[Stamp]) -> bool
    ensures { (result ≡ true) ↔ DoRise samples.now }
{
    for i in 1..samples.len() {
        if samples[i].time <= samples[i - 1].time {
            return false;
        }
    }
    true
}

/// Whether each sample is another than the value before it, and stands below a time.
fn are_changes(carry: i128, samples: &[Stamp], time: u64) -> bool
    ensures { (result ≡ true) ↔ AreChanges carry samples.now time }
{
    let mut before = carry;
    for i in 0..samples.len() {
        let sample = samples[i];
        if time <= sample.time || sample.num == before {
            return false;
        }
        before = sample.num;
    }
    true
}

/// Whether the state is one of a column of an event signal, where the column is one.
fn may_change(event: bool, state: &ColumnState, time: u64) -> bool
    ensures { (result ≡ true) ↔ (event ≡ true → ShowsChanges time state.now) }
{
    if !event {
        return true;
    }
    match state.carry {
        None => false,
        Some(carry) => {
            let later: &[i128] = &state.later;
            if !later.is_empty() {
                return false;
            }
            are_changes(carry, &state.samples, time)
        }
    }
}

/// Whether a state is one of a column at a time, for a signal of this format.
pub fn is_column_state(format: Format, event: bool, state: &ColumnState, time: u64) -> bool
    ensures { (result ≡ true) ↔ IsColumnState format event time state.now }
{
    if !is_carry(format, state.carry) {
        return false;
    }
    if !are_stamped(format, &state.samples) {
        return false;
    }
    if !are_numbers(format, &state.later) {
        return false;
    }
    if !do_rise(&state.samples) {
        return false;
    }
    may_change(event, state, time)
}
