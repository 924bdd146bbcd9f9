//! A cluster in progress, and its calls.

use crate::actors::Actors;
use crate::asking::Spare;
use std::marker::Model;
use tdf_dynamic_plans::Attrs;
use tdf_exec_firing::Edges;
use tdf_schedule::{Entry, Plan};

/// A cluster in progress: its attributes, its plan and the place in it, the rates in force and the samples by edge, and
/// what its actors need to fire. It keeps what is its own alone; edges and actors are seen by the numbers of the flat model.
#[derive(Drop)]
pub struct Cluster {
    pub(crate) number: u32,
    pub(crate) attrs: Attrs,
    pub(crate) plan: Plan,
    pub(crate) place: usize,
    pub(crate) crossed: bool,
    /// The numbers of the actors whose firings are counted: its own, where signals of one are traced, else none.
    pub(crate) counted: Vec<u32>,
    /// How often each of them fires in a period of the plan.
    pub(crate) firings: Vec<u64>,
    pub(crate) edges: Edges,
    pub(crate) actors: Actors,
    pub(crate) spare: Spare,
}

impl Model for Cluster {
    ghost use Rattle.std.specs.Prelude.{◌≤◌, length};
    ghost use Rattle.tdf_cluster_net.specs.Numbers.{Rise};
    ghost use Rattle.tdf_cluster_plans.specs.Counted.{AreCounted};
    ghost use Rattle.tdf_convert.specs.Sampled.{AreByOffset};
    ghost use Rattle.tdf_exec.specs.Cluster.{ClusterOf};

    ghost Value = { ClusterOf };

    ghost view = { λ a. record {
      number = a.number;
      table = a.attrs.rows;
      entries = a.plan.entries.items;
      bounds = a.plan.bounds.items;
      period = a.plan.period;
      known = a.attrs.known;
      place = a.place;
      crossed = a.crossed;
      reads = a.edges.reads;
      writes = a.edges.writes;
      rings = a.edges.rings;
      runners = a.actors.runners;
      positions = a.actors.positions;
    } };

    ghost invariant = { λ a. record {
      sorted : AreByOffset a.plan.entries.items;
      rising : Rise a.counted.items;
      counted : AreCounted a.counted.items a.plan.entries.items a.firings.items;
      room : length a.attrs.rows ≤ a.spare;
    } };
}

ghost use Rattle.std.specs.Prelude.{◌≡◌, ◌<◌, ◌≤◌, ◌-◌, ℕ, length, Some};
ghost use Rattle.tdf_convert.specs.Sampled.{AreByOffset};
ghost use Rattle.tdf_exec.specs.Cluster.{due_count, due_from, is_next_due, next_offset};
ghost use Rattle.tdf_exec.specs.Gained.{HasGained, HaveRoom};
ghost use Rattle.tdf_exec.specs.Made.{IsClusterOf};
ghost use Rattle.tdf_exec.specs.Played.{AreDone, AreInputsFor, HasPlayed, KeepsStanding};
ghost use Rattle.tdf_exec.specs.machine.Steps.{AreInputsNext, HasRoomNext, HasStepped};

use tdf_bind::Flat;
use tdf_convert::{Inputs, Outputs, first_after, first_from};

/// How many entries have this offset, from a place on.
fn due_from(entries: &[Entry], place: usize, offset: u64) -> u64
    requires sorted { AreByOffset entries.now }
    ensures { result ≡ due_from place offset entries.now }
{
    let low = first_from(entries, place, offset).max(place);
    let high = first_after(entries, place, offset);
    if low < high {
        return (high - low) as u64;
    }
    0
}

impl Cluster {
    /// The offset of the next entry of the plan; none where the period is done.
    pub fn next_offset(&self) -> Option<u64>
        ensures { result ≡ next_offset self.now }
    {
        if self.place < self.plan.entries.len() {
            return Some(self.plan.entries[self.place].offset);
        }
        None
    }

    /// Whether the next entry of the plan has this offset.
    fn is_due(&self, offset: u64) -> bool
        ensures { result ≡ is_next_due self.now offset }
    {
        match self.next_offset() {
            Some(next) => next == offset,
            None => false,
        }
    }

    /// How many entries of the period are still to come.
    pub fn waiting(&self) -> u64
        ensures left { result ≡ length self.now.entries - self.now.place }
        ensures due { (offset : ℕ) → due_count self.now offset ≤ result }
    {
        self.plan.entries.len().saturating_sub(self.place) as u64
    }

    /// How many entries of this offset are still to come.
    pub fn due_count(&self, offset: u64) -> u64
        ensures { result ≡ due_count self.now offset }
    {
        due_from(&self.plan.entries, self.place, offset)
    }

    /// Does the next entry of the plan.
    fn fire_next(&mut self, flat: &Flat, inputs: &Inputs, outputs: &mut Outputs)
        requires of { IsClusterOf flat.now self.old }
        requires within { self.old.place < length self.old.entries }
        requires inputs { AreInputsNext flat.now self.old inputs.now }
        requires room { HasRoomNext self.old outputs.old }
        ensures of { IsClusterOf flat.now self.new }
        ensures stepped { HasStepped flat.now inputs.now self.old self.new outputs.old outputs.new }
    {
        let number = self.plan.entries[self.place].actor;
        let edges = &mut self.edges;
        self.actors
            .fire(&flat.checked, inputs, number, edges, outputs);
        self.place += 1;
    }

    /// Does all entries of this offset, in the order of the plan. `inputs` has the values of the samplers; `outputs` gains
    /// the samples of sinks and those of traced signals. It takes no memory and is never refused. The answer is how many
    /// entries these are.
    #[inline(never)]
    pub fn fire_at(
        &mut self,
        flat: &Flat,
        offset: u64,
        inputs: &Inputs,
        outputs: &mut Outputs,
    ) -> u64
        requires of { IsClusterOf flat.now self.old }
        requires next { next_offset self.old ≡ Some offset }
        requires inputs { AreInputsFor flat.now offset self.old inputs.now }
        requires room { HaveRoom offset self.old outputs.old }
        ensures of { IsClusterOf flat.now self.new }
        ensures done { AreDone offset self.old self.new }
        ensures played { HasPlayed flat.now offset inputs.now self.old self.new }
        ensures stands { KeepsStanding flat.now offset inputs.now self.old self.new }
        ensures gained { HasGained flat.now offset inputs.now self.old self.new
            outputs.old outputs.new }
        ensures count { result ≡ due_count self.old offset }
    {
        let first = self.place;
        while self.is_due(offset) {
            self.fire_next(flat, inputs, outputs);
        }
        (self.place - first) as u64
    }
}
