//! Timed notifications come.

ghost use Rattle.std.specs.Prelude.{◌≡◌, ◌<◌, ◌≤◌, ℕ, None, Some, if◌then◌else◌, length, map, slice_get};
ghost use Rattle.tdf_events_queue.specs.Lists.{list_at};
ghost use Rattle.tdf_events_queue.specs.Times.{pending_time};
ghost use Rattle.tdf_events.specs.Delta.{is_due};
ghost use Rattle.tdf_events.specs.machine.Due.{IsDueEvent, comes};
ghost use Rattle.tdf_events.specs.machine.Updating.{AreAllReached};

use tdf_events_queue::{Calendar, Lists, NumberSet, trigger};

/// An event whose notification comes at a time, where none is pending before it.
fn due_event(calendar: &Calendar, time: u64) -> Option<u32>
    requires { (e t : ℕ) → pending_time calendar.now e ≡ Some t → time ≤ t }
    ensures { IsDueEvent calendar.now time result }
{
    match calendar.first() {
        None => None,
        Some(pending) => {
            if pending.time == time {
                Some(pending.event)
            } else {
                None
            }
        }
    }
}

/// The notifications of a time come: they are gone, and the processes that are sensitive to their events are triggered.
pub(crate) fn take_due(calendar: &mut Calendar, time: u64, lists: &Lists, set: &mut NumberSet)
    requires early { (e t : ℕ) → pending_time calendar.old e ≡ Some t → time ≤ t }
    requires lists { length lists.now ≡ length calendar.old }
    requires members { (s j p : ℕ) → slice_get (list_at lists.now s) j ≡ Some p
        → p < length set.old.flags }
    ensures times { calendar.new
        ≡ map (λ pending. if is_due time pending then None else pending) calendar.old }
    ensures reached { AreAllReached lists.now (comes time calendar.old) set.old.flags
        set.new.flags }
{
    while let Some(event) = due_event(calendar, time) {
        calendar.cancel(event);
        trigger(lists, event, set);
    }
}
