//! The pending time of each event, and the least of all.

use std::marker::Model;

/// A pending notification of an event.
#[derive(Clone, Copy, Debug)]
pub struct Pending {
    /// The time at which it comes.
    pub time: u64,
    /// The number of the event.
    pub event: u32,
}

/// The pending time of each event, at most one, with a tree over all events whose root has a least time. Only [`Calendar::new`]
/// takes memory.
#[derive(Drop)]
pub struct Calendar {
    times: Vec<Option<u64>>,
    /// Two for each event: the inner nodes, from the root at place 1 on, then the leaves.
    nodes: Vec<Option<Pending>>,
}

impl Model for Calendar {
    ghost use Rattle.std.specs.Prelude.{◌≡◌, ◌^◌, ◌*◌, ◌<◌, List, ℕ, Option, length};
    ghost use Rattle.tdf_events_queue.specs.machine.Calendar.{AreEarlier, AreLeaves};

    ghost Value = { List (Option ℕ) };

    ghost view = { λ a. a.times.items };

    ghost invariant = { λ a. record {
      many : length a.nodes.items ≡ 2 * length a.times.items;
      few : length a.times.items < 2 ^ 32;
      leaves : AreLeaves a.times.items a.nodes.items;
      earlier : AreEarlier a.nodes.items;
    } };
}

ghost use Rattle.std.specs.Prelude.{◌≡◌, ◌<◌, ◌≤◌, ◌+◌, ◌*◌, ◌/◌, ◌^◌, ℕ, IfOk, None, Some, is_some, length, replicate, slice_set, true};
ghost use Rattle.tdf_events_queue.specs.Times.{IsNextPending, IsNextTime, earliest, pending_time};
ghost use Rattle.tdf_events_queue.specs.machine.Calendar.{AreEarlier, IsCancelled, IsNoticed, earlier_of, is_after, is_of, node_at};

use std::alloc::{AllocError, Global};

/// The earlier of two, the first where none is.
fn earlier(one: Option<Pending>, other: Option<Pending>) -> Option<Pending>
    ensures { result ≡ earlier_of one other }
{
    match one {
        None => other,
        Some(first) => match other {
            None => one,
            Some(second) => {
                if second.time < first.time {
                    return other;
                }
                one
            }
        },
    }
}

/// Whether it is of an event.
fn is_of(one: Option<Pending>, event: u32) -> bool
    ensures { result ≡ is_of event one }
{
    match one {
        None => false,
        Some(pending) => pending.event == event,
    }
}

/// Whether it comes after a time, as one that never comes does.
fn is_after(one: Option<Pending>, time: u64) -> bool
    ensures { result ≡ is_after time one }
{
    match one {
        None => true,
        Some(pending) => time < pending.time,
    }
}

/// The nodes above a leaf that is noticed earlier than before take its notification, up to one that is no later.
fn hurry(nodes: &mut Vec<Option<Pending>>, leaf: usize, new: Pending)
    requires within { 2 * (leaf / 2) + 1 < length nodes.old.items }
    requires changed { IsNoticed new leaf nodes.old.items }
    ensures many { length nodes.new.items ≡ length nodes.old.items }
    ensures leaves { (place : ℕ) → length nodes.old.items ≤ 2 * place
        → node_at nodes.new.items place ≡ node_at nodes.old.items place }
    ensures earlier { AreEarlier nodes.new.items }
{
    let mut at = leaf;
    while 1 < at {
        let place = at / 2;
        if !is_after(nodes[place], new.time) {
            return;
        }
        nodes[place] = Some(new);
        at = place;
    }
}

/// The nodes above the leaf of a cancelled event get the earlier of those below them, up to one of another event.
fn retire(nodes: &mut Vec<Option<Pending>>, leaf: usize, event: u32)
    requires within { 2 * (leaf / 2) + 1 < length nodes.old.items }
    requires changed { IsCancelled event leaf nodes.old.items }
    ensures many { length nodes.new.items ≡ length nodes.old.items }
    ensures leaves { (place : ℕ) → length nodes.old.items ≤ 2 * place
        → node_at nodes.new.items place ≡ node_at nodes.old.items place }
    ensures earlier { AreEarlier nodes.new.items }
{
    let mut at = leaf;
    while 1 < at {
        let place = at / 2;
        if !is_of(nodes[place], event) {
            return;
        }
        nodes[place] = earlier(nodes[2 * place], nodes[2 * place + 1]);
        at = place;
    }
}

impl Calendar {
    /// Nothing is pending, for events below a bound.
    ///
    /// # Errors
    /// Out of memory.
    pub fn new(alloc: Global, events: u32) -> Result<Calendar, AllocError>
        ensures { IfOk result (λ calendar. calendar ≡ replicate events None) }
    {
        let nodes = Vec::from_elem(alloc, None, 2 * events as usize)?;
        let times = Vec::from_elem(alloc, None, events as usize)?;
        Ok(Calendar { times, nodes })
    }

    /// A pending notification with the least time, none where nothing is pending.
    pub fn first(&self) -> Option<Pending>
        ensures { IsNextPending self.now result }
    {
        if self.times.is_empty() {
            return None;
        }
        self.nodes[1]
    }

    /// The least pending time, none where nothing is pending.
    pub fn next_time(&self) -> Option<u64>
        ensures { IsNextTime self.now result }
    {
        match self.first() {
            None => None,
            Some(pending) => Some(pending.time),
        }
    }

    /// How many events there are.
    pub fn len(&self) -> usize
        ensures { result ≡ length self.now }
    {
        self.times.len()
    }

    /// The pending time of an event.
    pub fn time(&self, event: u32) -> Option<u64>
        requires { event < length self.now }
        ensures { result ≡ pending_time self.now event }
    {
        self.times[event as usize]
    }

    /// Gives an event without a pending time, or with a later one, this time.
    fn put(&mut self, event: u32, time: u64)
        requires inside { event < length self.old }
        requires earlier { (t : ℕ) → pending_time self.old event ≡ Some t → time < t }
        ensures { self.new ≡ slice_set self.old event (Some time) }
    {
        let leaf = self.times.len() + event as usize;
        let new = Pending { time, event };
        self.times[event as usize] = Some(time);
        self.nodes[leaf] = Some(new);
        hurry(&mut self.nodes, leaf, new);
    }

    /// Takes the pending time of an event away.
    fn remove(&mut self, event: u32)
        requires inside { event < length self.old }
        requires some { is_some (pending_time self.old event) ≡ true }
        ensures { self.new ≡ slice_set self.old event None }
    {
        let leaf = self.times.len() + event as usize;
        self.times[event as usize] = None;
        self.nodes[leaf] = None;
        retire(&mut self.nodes, leaf, event);
    }

    /// Notifies an event at a time. An earlier time replaces a pending one; a later one changes nothing.
    pub fn notify(&mut self, event: u32, time: u64)
        requires { event < length self.old }
        ensures { self.new
            ≡ slice_set self.old event (Some (earliest (pending_time self.old event) time)) }
    {
        match self.time(event) {
            None => self.put(event, time),
            Some(pending) => {
                if time < pending {
                    self.put(event, time);
                }
            }
        }
    }

    /// Takes the pending notification of an event away, where there is one.
    pub fn cancel(&mut self, event: u32)
        requires { event < length self.old }
        ensures { self.new ≡ slice_set self.old event None }
    {
        if self.time(event).is_some() {
            self.remove(event);
        }
    }
}
