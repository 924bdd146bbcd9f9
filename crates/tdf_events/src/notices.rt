//! Pending notifications: at most one for each event.

use std::marker::Model;
use tdf_events_queue::{Calendar, NumberSet};

/// The pending notifications. None of its calls but [`Notices::new`] takes memory.
#[derive(Drop)]
pub(crate) struct Notices {
    pub(crate) calendar: Calendar,
    pub(crate) delta: NumberSet,
}

impl Model for Notices {
    ghost use Rattle.std.specs.Prelude.{length, ◌≡◌};
    ghost use Rattle.tdf_events.specs.Notices.{NoticesOf};

    ghost Value = { NoticesOf };

    ghost view = { λ a. record { times = a.calendar; delta = a.delta.flags } };

    ghost invariant = { λ a. length a.calendar ≡ length a.delta.flags };
}

ghost use Rattle.std.specs.Prelude.{◌≡◌, ◌<◌, ◌^◌, ℕ, IfOk, None, Some, false, if◌then◌else◌, length, map, replicate, slice_get, slice_set};
ghost use Rattle.tdf_events_queue.specs.Lists.{list_at};
ghost use Rattle.tdf_events_queue.specs.Sets.{is_on};
ghost use Rattle.tdf_events_queue.specs.Times.{IsNextTime, pending_time};
ghost use Rattle.tdf_events.specs.Delta.{IsNoneBefore, is_due};
ghost use Rattle.tdf_events.specs.machine.Due.{comes};
ghost use Rattle.tdf_events.specs.machine.Updating.{AreAllReached};
ghost use Rattle.tdf_events.specs.Notices.{event_noticed, noticed_after, noticed_first, time_after};
ghost use Rattle.tdf_expr.specs.Frames.{ArePortsFit};

use crate::due::take_due;
use std::alloc::Global;
use tdf_base::Memory;
use tdf_events_queue::{Lists, trigger_all};
use tdf_expr::Ports;

/// The time after another one, at most the greatest.
fn time_after(time: u64, after: u64) -> u64
    ensures { result ≡ time_after time after }
{
    time.saturating_add(after)
}

impl Notices {
    /// Nothing is pending.
    ///
    /// # Errors
    /// Out of memory.
    pub(crate) fn new(alloc: Global, events: u32) -> Result<Notices, Memory>
        ensures { IfOk result (λ n. n ≡ record { times = replicate events None; delta = replicate events false }) }
    {
        let calendar = Calendar::new(alloc, events)?;
        let delta = NumberSet::new(alloc, events)?;
        Ok(Notices { calendar, delta })
    }

    /// The time of the timed notification of an event.
    pub(crate) fn time(&self, event: u32) -> Option<u64>
        requires { event < length self.now.times }
        ensures { result ≡ pending_time self.now.times event }
    {
        self.calendar.time(event)
    }

    /// Gives an event without a timed notification one.
    pub(crate) fn set_time(&mut self, event: u32, time: u64)
        requires event { event < length self.old.times }
        requires free { pending_time self.old.times event ≡ None }
        ensures { self.new
            ≡ record self.old { times = slice_set self.old.times event (Some time) } }
    {
        self.calendar.notify(event, time);
    }

    /// The least time of a timed notification, none where there is none.
    pub(crate) fn next_time(&self) -> Option<u64>
        ensures { IsNextTime self.now.times result }
    {
        self.calendar.next_time()
    }

    /// Delta notification: the processes that are sensitive to an event with one are triggered, and they are gone.
    pub(crate) fn take_delta(&mut self, lists: &Lists, set: &mut NumberSet)
        requires lists { length lists.now ≡ length self.old.times }
        requires members { (s j p : ℕ) → slice_get (list_at lists.now s) j ≡ Some p
            → p < length set.old.flags }
        ensures reached { AreAllReached lists.now (is_on self.old.delta) set.old.flags
            set.new.flags }
        ensures gone { self.new ≡ record self.old { delta = map (λ on. false) self.old.delta } }
    {
        trigger_all(lists, self.delta.members(), set);
        self.delta.clear();
    }

    /// Timed notification: those of a time come, where none is pending before it.
    pub(crate) fn come(&mut self, time: u64, lists: &Lists, set: &mut NumberSet)
        requires early { IsNoneBefore time self.old.times }
        requires lists { length lists.now ≡ length self.old.times }
        requires members { (s j p : ℕ) → slice_get (list_at lists.now s) j ≡ Some p
            → p < length set.old.flags }
        ensures reached { AreAllReached lists.now (comes time self.old.times) set.old.flags
            set.new.flags }
        ensures gone { self.new ≡ record self.old {
          times = map (λ pending. if is_due time pending then None else pending) self.old.times;
        } }
    {
        take_due(&mut self.calendar, time, lists, set);
    }

    /// Notifies an event, to come after a time; 0 is a delta notification.
    fn notify_after(&mut self, time: u64, event: u32, after: u64)
        requires { event < length self.old.times }
        ensures { self.new ≡ noticed_after time event after self.old }
    {
        if self.delta.contains(event) {
            return;
        }
        if after == 0 {
            self.calendar.cancel(event);
            self.delta.insert(event);
        } else {
            self.calendar.notify(event, time_after(time, after));
        }
    }

    /// Notifies an event, if that was asked for.
    fn notify(&mut self, time: u64, event: u32, asked: Option<u64>)
        requires { event < length self.old.times }
        ensures { self.new ≡ event_noticed time event asked self.old }
    {
        match asked {
            None => {}
            Some(after) => self.notify_after(time, event, after),
        }
    }
}

/// Notifies the events of an instance, by what its process asked for: those alone are gone through.
pub(crate) fn notify_all(notices: &mut Notices, time: u64, events: &[u32], ports: &Ports)
    requires inside { (i e : ℕ) → slice_get events.now i ≡ Some e → e < length notices.old.times }
    requires asked { length events.now ≡ length ports.now.state.notified }
    ensures { notices.new ≡ noticed_first time events.now ports.now.state.notified (length events.now) notices.old }
{
    let asked = ports.notified_events();
    for i in 0..asked.len() {
        let event = asked[i];
        notices.notify(time, events[event as usize], ports.notified(event));
    }
}
