//! The samples of the ports, and what statements asked for.

use crate::notified::Notified;
use std::marker::Model;

/// The samples of the ports of a block, port after port, and what the statements of its bodies asked for.
#[derive(Drop)]
pub struct Signals {
    samples: Vec<i128>,
    assigned: Vec<bool>,
    notified: Notified,
    steps: Vec<Option<u64>>,
    /// Whether a timestep was given since all were cleared.
    has_steps: bool,
    accepts: Option<bool>,
    out_of_range: bool,
}

impl Model for Signals {
    ghost use Rattle.std.specs.Prelude.{◌≡◌, false};
    ghost use Rattle.tdf_expr_state.specs.Resets.{no_times};
    ghost use Rattle.tdf_expr_state.specs.State.{PortsState};

    ghost Value = { PortsState };

    ghost view = { λ a. record {
      samples = a.samples.items;
      assigned = a.assigned.items;
      notified = a.notified;
      steps = a.steps.items;
      accepts = a.accepts;
      out_of_range = a.out_of_range;
    } };

    ghost invariant = { λ a. record {
      steps : a.has_steps ≡ false → a.steps.items ≡ no_times a.steps.items;
    } };
}

ghost use Rattle.std.specs.Prelude.{◌≡◌, ◌<◌, ◌≤◌, ◌+◌, IfOk, is_some, length, map, replicate, pos, slice_set, slice_index_or, slice_get, Some, None, true, false};
ghost use Rattle.tdf_events_queue.specs.Sets.{AreRisingFlags};
ghost use Rattle.tdf_expr_state.specs.Resets.{no_times, none_set, with_zeros};
ghost use Rattle.tdf_expr_state.specs.State.{cell_at, standing, noticed};

use crate::resets::{blank, forget, unset};
use std::alloc::Global;
use tdf_base::Memory;

impl Signals {
    /// The ports with so many samples in all, each 0, and nothing asked for.
    pub fn new(alloc: Global, samples: u32, ports: u32, events: u32) -> Result<Signals, Memory>
        ensures samples { IfOk result (λ s. s.samples ≡ replicate samples (pos 0)) }
        ensures assigned { IfOk result (λ s. s.assigned ≡ replicate ports false) }
        ensures notified { IfOk result (λ s. s.notified ≡ replicate events None) }
        ensures steps { IfOk result (λ s. s.steps ≡ replicate (ports + 1) None) }
        ensures accepts { IfOk result (λ s. s.accepts ≡ None) }
        ensures out_of_range { IfOk result (λ s. s.out_of_range ≡ false) }
    {
        Ok(Signals {
            samples: vec![in alloc; 0; samples as usize]?,
            assigned: vec![in alloc; false; ports as usize]?,
            notified: Notified::new(alloc, events)?,
            steps: vec![in alloc; None; ports as usize + 1]?,
            has_steps: false,
            accepts: None,
            out_of_range: false,
        })
    }

    /// All samples, port after port, in units of the last place of the port's format.
    #[inline]
    pub fn samples(&self) -> &[i128]
        ensures { result.now ≡ self.now.samples }
    {
        &self.samples
    }

    /// A sample, in units of the last place of the port's format.
    #[inline]
    pub fn sample(&self, place: usize) -> i128
        requires { place < length self.now.samples }
        ensures { result ≡ cell_at self.now.samples place }
    {
        self.samples[place]
    }

    /// Whether a body assigned a sample of this port.
    pub fn is_assigned(&self, port: usize) -> bool
        requires { port < length self.now.assigned }
        ensures { result ≡ slice_index_or self.now.assigned port false }
    {
        self.assigned[port]
    }

    /// The least time of the notifications of an event.
    pub fn notified(&self, event: usize) -> Option<u64>
        requires { event < length self.now.notified }
        ensures { result ≡ standing (slice_get self.now.notified event) }
    {
        self.notified.time(event)
    }

    /// The events that were notified, in rising order.
    pub fn notified_events(&self) -> &[u32]
        ensures { AreRisingFlags (map is_some self.now.notified) result.now }
    {
        self.notified.events()
    }

    /// The timestep that was given last: of the module at place 0, of a port at place 1 + its number.
    pub fn step(&self, place: usize) -> Option<u64>
        requires { place < length self.now.steps }
        ensures { result ≡ standing (slice_get self.now.steps place) }
    {
        self.steps[place]
    }

    /// The last accept (true) or reject (false).
    pub fn accepts(&self) -> Option<bool>
        ensures { result ≡ self.now.accepts }
    {
        self.accepts
    }

    /// Whether a rate statement gave a value that isn't allowed.
    pub fn out_of_range(&self) -> bool
        ensures { result ≡ self.now.out_of_range }
    {
        self.out_of_range
    }

    /// A sample comes from outside, in units of the last place of the port's format.
    #[inline]
    pub fn put_sample(&mut self, place: usize, num: i128)
        requires { place < length self.old.samples }
        ensures { self.new ≡ record self.old { samples = slice_set self.old.samples place num } }
    {
        self.samples[place] = num;
    }

    /// A body assigns a sample of a port, in units of the last place of the port's format.
    #[inline]
    pub fn set_sample(&mut self, port: usize, place: usize, num: i128)
        requires port { port < length self.old.assigned }
        requires place { place < length self.old.samples }
        ensures { self.new
            ≡ record self.old {
              samples = slice_set self.old.samples place num;
              assigned = slice_set self.old.assigned port true;
            } }
    {
        self.samples[place] = num;
        self.assigned[port] = true;
    }

    /// An event is notified; the least time stays.
    pub fn notify(&mut self, event: usize, after: u64)
        requires { event < length self.old.notified }
        ensures { self.new ≡ record self.old { notified = noticed self.old.notified event after } }
    {
        self.notified.note(event, after);
    }

    /// The module (place 0) or a port (place 1 + its number) is given a timestep.
    pub fn set_step(&mut self, at: usize, step: u64)
        requires { at < length self.old.steps }
        ensures { self.new ≡ record self.old { steps = slice_set self.old.steps at (Some step) } }
    {
        self.steps[at] = Some(step);
        self.has_steps = true;
    }

    /// The rates are accepted or rejected; the last answer stands.
    pub fn answer(&mut self, accepted: bool)
        ensures { self.new ≡ record self.old { accepts = Some accepted } }
    {
        self.accepts = Some(accepted);
    }

    /// A rate statement gave a value that isn't allowed.
    pub fn mark_range_fault(&mut self)
        ensures { self.new ≡ record self.old { out_of_range = true } }
    {
        self.out_of_range = true;
    }

    /// The samples from `from` on, `count` of them, are 0. It takes no memory.
    #[inline(always)]
    pub fn clear_samples(&mut self, from: usize, count: usize)
        requires { from + count ≤ length self.old.samples }
        ensures { self.new ≡ record self.old { samples = with_zeros from count self.old.samples } }
    {
        blank(&mut self.samples, from, count);
    }

    /// No port has an assigned sample. It takes no memory.
    #[inline(always)]
    pub fn clear_assigned(&mut self)
        ensures { self.new ≡ record self.old { assigned = none_set self.old.assigned } }
    {
        unset(&mut self.assigned);
    }

    /// No event is notified. It takes no memory, and goes through the events that were notified alone.
    #[inline(always)]
    pub fn clear_notified(&mut self)
        ensures { self.new ≡ record self.old { notified = no_times self.old.notified } }
    {
        self.notified.clear();
    }

    /// No timestep is given. It takes no memory.
    #[inline(always)]
    pub fn clear_steps(&mut self)
        ensures { self.new ≡ record self.old { steps = no_times self.old.steps } }
    {
        if self.has_steps {
            forget(&mut self.steps);
            self.has_steps = false;
        }
    }

    /// Nothing is accepted or rejected, and no rate was out of range. It takes no memory.
    #[inline(always)]
    pub fn clear_answers(&mut self)
        ensures { self.new ≡ record self.old { accepts = None; out_of_range = false } }
    {
        self.accepts = None;
        self.out_of_range = false;
    }
}
