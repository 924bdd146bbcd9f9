//! The values that wait for the next update.

use std::marker::Model;
use tdf_events_queue::NumberSet;
use tdf_fixed::Raw;

/// By signal the value that waits for it, with a list of those signals. None of its calls but [`Waiting::new`] takes memory.
#[derive(Drop)]
pub(crate) struct Waiting {
    pub(crate) values: Vec<Option<Raw>>,
    pub(crate) signals: NumberSet,
}

impl Model for Waiting {
    ghost use Rattle.std.specs.Prelude.{List, Option, ◌≡◌, is_some, map};
    ghost use Rattle.tdf_fixed.specs.declared.raw.Raw.{Raw};

    ghost Value = { List (Option Raw) };

    ghost view = { λ a. a.values.items };

    ghost invariant = { λ a. a.signals.flags ≡ map is_some a.values.items };
}

ghost use Rattle.std.specs.Prelude.{◌≡◌, ◌<◌, ◌^◌, ℕ, IfOk, None, Some, length, map, replicate, slice_get, slice_set};
ghost use Rattle.tdf_events_queue.specs.Lists.{list_at};
ghost use Rattle.tdf_convert.specs.declared.writes.SignalWrite.{SignalWrite as SignalWriteOf};
ghost use Rattle.tdf_events.specs.Delta.{updated, waiting_with};
ghost use Rattle.tdf_events.specs.Processes.{written, written_first, value_of_port};
ghost use Rattle.tdf_events.specs.machine.Updating.{AreAllReached, does_change};
ghost use Rattle.tdf_expr.specs.declared.spans.PortSpan.{PortSpan as PortSpanOf};

use crate::updating::{give_values, trigger_changed};
use std::alloc::Global;
use tdf_base::Memory;
use tdf_convert::SignalWrite;
use tdf_events_queue::Lists;
use tdf_expr::Ports;

impl Waiting {
    /// Nothing waits, for signals below a bound.
    ///
    /// # Errors
    /// Out of memory.
    pub(crate) fn new(alloc: Global, signals: u32) -> Result<Waiting, Memory>
        ensures { IfOk result (λ waiting. waiting ≡ replicate signals None) }
    {
        let values = vec![in alloc; None; signals as usize]?;
        let signals = NumberSet::new(alloc, signals)?;
        Ok(Waiting { values, signals })
    }

    /// The processes that are sensitive to a signal with another value than waits for it are triggered.
    pub(crate) fn trigger(&self, values: &[Raw], lists: &Lists, set: &mut NumberSet)
        requires values { length values.now ≡ length self.now }
        requires lists { length lists.now ≡ length self.now }
        requires members { (s j p : ℕ) → slice_get (list_at lists.now s) j ≡ Some p
            → p < length set.old.flags }
        ensures { AreAllReached lists.now (does_change values.now self.now) set.old.flags
            set.new.flags }
    {
        trigger_changed(self.signals.members(), values, &self.values, lists, set);
    }

    /// Each signal takes the value that waits for it, and nothing waits any more.
    pub(crate) fn give(&mut self, values: &mut Vec<Raw>)
        requires { length values.old.items ≡ length self.old }
        ensures values { values.new.items ≡ updated values.old.items self.old }
        ensures waiting { self.new ≡ map (λ value. None) self.old }
    {
        give_values(self.signals.members(), &mut self.values, values);
        self.signals.clear();
    }

    /// A value waits for a signal, in place of any other.
    fn put(&mut self, signal: u32, value: Raw)
        requires { signal < length self.old }
        ensures { self.new ≡ slice_set self.old signal (Some value) }
    {
        self.values[signal as usize] = Some(value);
        self.signals.insert(signal);
    }
}

/// A port that was assigned gives its value to its signal.
fn write_one(waiting: &mut Waiting, signal: u32, ports: &Ports, port: u32)
    requires signal { signal < length waiting.old }
    requires port { port < length ports.now.spans }
    requires one { (p : PortSpanOf) → slice_get ports.now.spans port ≡ Some p → p.count ≡ 1 }
    requires assigned { length ports.now.state.assigned ≡ length ports.now.spans }
    ensures { waiting.new ≡ written signal ports.now.state port (slice_get ports.now.spans port)
        waiting.old }
{
    if ports.assigned(port) {
        waiting.put(signal, ports.sample(port, 0));
    }
}

/// The ports of an instance that were assigned give their values to their signals.
#[tactic(auto, using(crate::proofs::Writing::writings))]
pub(crate) fn write_all(waiting: &mut Waiting, signals: &[u32], ports: &Ports)
    requires inside { (i s : ℕ) → slice_get signals.now i ≡ Some s → s < length waiting.old }
    requires few { length signals.now < 2 ^ 32 }
    requires long { length signals.now ≡ length ports.now.spans }
    requires one { (n : ℕ) (p : PortSpanOf) → slice_get ports.now.spans n ≡ Some p → p.count ≡ 1 }
    requires assigned { length ports.now.state.assigned ≡ length ports.now.spans }
    ensures { waiting.new ≡ written_first signals.now ports.now.spans ports.now.state
        (length signals.now) waiting.old }
{
    for i in 0..signals.len() {
        write_one(waiting, signals[i], ports, i as u32);
    }
}

/// The values that sinks write wait.
#[tactic(auto, using(crate::proofs::Writing::sinks))]
pub(crate) fn write_sinks(waiting: &mut Waiting, writes: &[SignalWrite])
    requires { (i : ℕ) (w : SignalWriteOf) → slice_get writes.now i ≡ Some w
        → w.signal < length waiting.old }
    ensures { waiting.new ≡ waiting_with writes.now waiting.old }
{
    for i in 0..writes.len() {
        let write = writes[i];
        waiting.put(write.signal, write.value);
    }
}
