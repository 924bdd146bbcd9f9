//! The events that were notified.

use std::marker::Model;
use tdf_events_queue::NumberSet;

/// By event the least time of its notifications, with a list of the events that were notified. None of its calls but
/// [`Notified::new`] takes memory, and each goes through the events that were notified alone.
#[derive(Drop)]
pub(crate) struct Notified {
    times: Vec<Option<u64>>,
    events: NumberSet,
}

impl Model for Notified {
    ghost use Rattle.std.specs.Prelude.{List, Option, ℕ, ◌≡◌, ◌<◌, ◌^◌, is_some, length, map};
    ghost use Rattle.tdf_events_queue.specs.Sets.{AreRisingFlags};

    ghost Value = { List (Option ℕ) };

    ghost view = { λ a. a.times.items };

    ghost invariant = { λ a. record {
      flags : a.events.flags ≡ map is_some a.times.items;
      rising : AreRisingFlags a.events.flags a.events.members;
      few : length a.times.items < 2 ^ 32;
    } };
}

ghost use Rattle.std.specs.Prelude.{◌≡◌, ◌<◌, ℕ, IfOk, None, Some, is_some, length, map, replicate, slice_get};
ghost use Rattle.tdf_events_queue.specs.Sets.{AreForgotten, AreRisingFlags};
ghost use Rattle.tdf_expr_state.specs.Resets.{no_times};
ghost use Rattle.tdf_expr_state.specs.State.{least_time, noticed, standing};

use std::alloc::Global;
use tdf_base::Memory;

/// The earlier of a time and one from before.
fn least_time(before: Option<u64>, after: u64) -> u64
    ensures { result ≡ least_time before after }
{
    match before {
        None => after,
        Some(time) => time.min(after),
    }
}

/// No time stands for the listed events.
#[inline(always)]
fn forget(times: &mut Vec<Option<u64>>, events: &[u32])
    requires { (i e : ℕ) → slice_get events.now i ≡ Some e → e < length times.old.items }
    ensures { AreForgotten events.now (length events.now) times.old.items times.new.items }
{
    for i in 0..events.len() {
        times[events[i] as usize] = None;
    }
}

impl Notified {
    /// No event is notified, of so many.
    pub(crate) fn new(alloc: Global, events: u32) -> Result<Notified, Memory>
        ensures { IfOk result (λ notified. notified ≡ replicate events None) }
    {
        let times = vec![in alloc; None; events as usize]?;
        let events = NumberSet::new(alloc, events)?;
        Ok(Notified { times, events })
    }

    /// The least time of the notifications of an event.
    pub(crate) fn time(&self, event: usize) -> Option<u64>
        requires { event < length self.now }
        ensures { result ≡ standing (slice_get self.now event) }
    {
        self.times[event]
    }

    /// The events that were notified, in rising order.
    pub(crate) fn events(&self) -> &[u32]
        ensures { AreRisingFlags (map is_some self.now) result.now }
    {
        self.events.members()
    }

    /// One more notification of an event; the least time stays.
    pub(crate) fn note(&mut self, event: usize, after: u64)
        requires { event < length self.old }
        ensures { self.new ≡ noticed self.old event after }
    {
        self.times[event] = Some(least_time(self.times[event], after));
        self.events.insert_rising(event as u32);
    }

    /// No event is notified.
    #[inline(always)]
    pub(crate) fn clear(&mut self)
        ensures { self.new ≡ no_times self.old }
    {
        forget(&mut self.times, self.events.members());
        self.events.clear();
    }
}
