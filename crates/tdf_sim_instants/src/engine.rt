//! All that runs of a model, and its instants.

use tdf_convert::{Inputs, Links, Outputs, Writes};
use tdf_events::Kernel;
use tdf_sim_refinement::{Room, TableGroups};

/// All that runs of a model: its clusters and its event side.
#[derive(Drop)]
pub struct Engine {
    /// The clusters in progress, in order of number.
    pub clusters: Vec<Cluster>,
    /// The start of the period of each cluster.
    pub since: Vec<u64>,
    /// Which signals the samplers of each cluster read.
    pub links: Vec<Links>,
    /// What the samplers of each cluster read last.
    pub inputs: Vec<Inputs>,
    /// Which signals the sinks write.
    pub sinks: Links,
    /// What firings gave.
    pub outputs: Outputs,
    /// What sinks wrote in an instant, by signal.
    pub writes: Writes,
    /// The event side.
    pub kernel: Kernel,
    /// The clusters that got a new plan in the last instant, by place, in their order.
    pub planned: Vec<usize>,
    /// The numbers of the actors, edges and ports of each cluster.
    pub groups: TableGroups,
    /// How many samples come from one offset of each cluster, at most.
    pub rooms: Vec<Room>,
}

ghost use Rattle.std.specs.Prelude.{◌≡◌, ◌<◌, ◌≤◌, ◌+◌, ℕ, [], false, true, length, map, IsOk, None, Ok, OnOk, Some};
ghost use Rattle.tdf_base.specs.Limits.{time_end};
ghost use Rattle.std.specs.Global.{Box as BoxOf};
ghost use Rattle.tdf_base.specs.declared.faults.Fault.{Fault as FaultOf};
ghost use Rattle.tdf_convert.specs.Emitted.{write_of_sent};
ghost use Rattle.tdf_convert.specs.Links.{AreRising};
ghost use Rattle.tdf_sim_instants.specs.Crossing.{HasNoTurn, HasStopped, NoneChanges, crossing_of};
ghost use Rattle.tdf_sim_instants.specs.Engine.{AreRoomsBut, AreRoomy, CanFireAll, HasBeenSpent, HasBeenStopped, HasHadInstant, HaveBoundaries, IsEngineOf, IsReadyAt};
ghost use Rattle.tdf_sim_instants.specs.Sampling.{HaveSampled, sampling_at};
ghost use Rattle.tdf_sim_instants.specs.Settling.{CanSettle, event_turn};
ghost use Rattle.tdf_sim_instants.specs.Times.{IsNextDue};
ghost use Rattle.tdf_sim_instants.specs.declared.crossing.Pass.TheVariants.{Done, Spent, Stopped};
ghost use Rattle.tdf_events.specs.Kernel.{IsKernelOf, side_of};
ghost use Rattle.tdf_events.specs.Runnable.{IsRunnable};
ghost use Rattle.tdf_sim_refinement.specs.Below.{IsSoundFlat};
ghost use Rattle.tdf_expr.specs.Checked.{IsCheckedOf};
ghost use Rattle.tdf_sim_refinement.specs.Pass.{HasPassedAll, HasPassedPart, pass_at, pass_run};
ghost use Rattle.tdf_lang_tree.specs.Pure.{PureTree};

use crate::crossing::{Pass, cross_all};
use crate::making_room::{set_rooms, whole_room};
use crate::sampling::sample_all;
use crate::settling::settle;
use crate::times::next_time;
use std::alloc::Global;
use tdf_base::Memory;
use tdf_bind::Flat;
use tdf_bind_invariants::law_limits;
use tdf_convert::{emit_due, law_by_offset};
use tdf_sim_refinement::{Cluster, Moment, fire_all};

impl Engine {
    /// The least time at which something is next due; the stop where there is none before it.
    pub fn next_time(&self, stop: u64) -> u64
        requires starts { length self.now.clusters.items ≤ length self.now.since.items }
        requires going { self.now.kernel.spent ≡ false }
        ensures { IsNextDue self.now.clusters.items self.now.since.items
            (side_of self.now.kernel) stop result }
    {
        next_time(&self.clusters, &self.since, &self.kernel, stop)
    }

    /// The boundaries of an instant.
    fn cross(
        &mut self,
        alloc: Global,
        flat: &Flat,
        time: u64,
        left: &mut u64,
    ) -> Result<Pass, Memory>
        requires sound { IsSoundFlat flat.now }
        requires engine { IsEngineOf flat.now self.old }
        requires ready { IsReadyAt time self.old }
        ensures all { result ≡ Ok Done → HaveBoundaries flat.now time self.old left.old (crossing_of
            self.new.clusters.items self.new.since.items left.new self.new.planned.items) }
        ensures part { result ≡ Ok Spent → HasNoTurn flat.now time
            (crossing_of self.old.clusters.items self.old.since.items left.old []) (crossing_of
            self.new.clusters.items self.new.since.items left.new self.new.planned.items) }
        ensures stopped { (number : ℕ) (fault : BoxOf FaultOf) → result ≡ Ok (Stopped number fault)
            → HasStopped flat.now time number fault.value
            (crossing_of self.old.clusters.items self.old.since.items left.old []) (crossing_of
            self.new.clusters.items self.new.since.items left.new self.new.planned.items) }
        ensures rest { self.new ≡ record self.old {
          clusters = self.new.clusters;
          since = self.new.since;
          planned = self.new.planned;
        } }
        ensures never { NoneChanges flat.now self.old.clusters.items → IsOk result }
        ensures unplanned { NoneChanges flat.now self.old.clusters.items
            → self.new.planned.items ≡ [] }
    {
        self.planned.clear();
        cross_all(
            alloc,
            flat,
            &self.groups,
            time,
            &mut self.since,
            &mut self.clusters,
            &mut self.planned,
            left,
        )
    }

    /// Room for what one offset of each cluster gives at most, where one got a new plan: the others give no more than before.
    fn make_room(&mut self, alloc: Global) -> Result<(), Memory>
        requires kept { self.old.planned.items ≡ []
            → AreRoomy self.old.clusters.items self.old.outputs self.old.writes }
        requires rooms { AreRoomsBut self.old.planned.items self.old.clusters.items
            self.old.rooms.items }
        ensures roomy { OnOk result (AreRoomy self.new.clusters.items self.new.outputs self.new.writes) }
        ensures rooms { OnOk result (AreRoomsBut [] self.new.clusters.items self.new.rooms.items) }
        ensures rest { self.new ≡ record self.old {
          rooms = self.new.rooms;
          outputs = self.new.outputs;
          writes = self.new.writes;
        } }
        ensures never { self.old.planned.items ≡ [] → IsOk result }
    {
        if self.planned.is_empty() {
            return Ok(());
        }
        set_rooms(&self.clusters, &self.planned, &mut self.rooms)?;
        let room = whole_room(&self.rooms)?;
        self.outputs = Outputs::new(alloc, room.sent, room.traced)?;
        self.writes = Writes::new(alloc, room.sent)?;
        Ok(())
    }

    /// The firings of an instant, with the values that samplers read.
    fn fire(&mut self, flat: &Flat, time: u64, left: &mut u64) -> bool
        requires { CanFireAll flat.now time self.old left.old }
        ensures sampled { HaveSampled (sampling_at time self.old.since.items self.old.clusters.items
            self.old.links.items self.old.kernel.values) (length self.old.clusters.items)
            self.old.inputs.items self.new.inputs.items }
        ensures all { result ≡ true → HasPassedAll flat.now
            (pass_at time self.old.since.items self.new.inputs.items)
            (pass_run self.old.clusters.items self.old.outputs left.old)
            (pass_run self.new.clusters.items self.new.outputs left.new) }
        ensures part { result ≡ false → HasPassedPart flat.now
            (pass_at time self.old.since.items self.new.inputs.items)
            (pass_run self.old.clusters.items self.old.outputs left.old)
            (pass_run self.new.clusters.items self.new.outputs left.new) }
        ensures rest { self.new ≡ record self.old {
          clusters = self.new.clusters;
          inputs = self.new.inputs;
          outputs = self.new.outputs;
        } }
    {
        sample_all(
            time,
            &self.since,
            &self.clusters,
            &self.links,
            self.kernel.values(),
            &mut self.inputs,
        );
        let moment = Moment {
            time,
            since: &self.since,
            inputs: &self.inputs,
        };
        fire_all(flat, &moment, &mut self.clusters, &mut self.outputs, left)
    }

    /// The event part of an instant, with what sinks sent.
    fn settle(&mut self, flat: &Flat, time: u64, left: &mut u64) -> Pass
        requires rising { AreRising self.old.sinks.list.items }
        requires none { self.old.writes.list ≡ [] }
        requires room { length self.old.outputs.sent ≤ self.old.writes.room }
        requires settle { CanSettle flat.now time self.old.kernel
            (map (write_of_sent self.old.sinks.list.items) self.old.outputs.sent) }
        ensures kernel { result ≡ Done → IsKernelOf flat.now self.new.kernel }
        ensures events { (model : PureTree) → IsCheckedOf model flat.now.checked → result ≡ Done
            → event_turn model flat.now time
            (map (write_of_sent self.old.sinks.list.items) self.old.outputs.sent)
            (side_of self.old.kernel) left.old ≡ Some (side_of self.new.kernel, left.new) }
        ensures spent { (model : PureTree) → IsCheckedOf model flat.now.checked → result ≡ Spent
            → event_turn model flat.now time
            (map (write_of_sent self.old.sinks.list.items) self.old.outputs.sent)
            (side_of self.old.kernel) left.old ≡ None }
        ensures never { (number : ℕ) (fault : BoxOf FaultOf) → result ≡ Stopped number fault → ⊥ }
        ensures rest { self.new ≡ record self.old {
          outputs = record self.old.outputs { sent = [] };
          writes = record self.old.writes { list = [] };
          kernel = self.new.kernel;
        } }
    {
        emit_due(&mut self.outputs, &self.sinks, &mut self.writes);
        let settled = settle(flat, time, self.writes.list(), &mut self.kernel, left);
        self.writes.clear();
        match settled {
            Ok(()) => Pass::Done,
            Err(_) => Pass::Spent,
        }
    }

    /// An instant, within the turns that are left: boundaries by cluster, then firings by cluster and in the order of the plan, then the
    /// event part. Each boundary, firing, process that runs and delta step takes a turn. However it ends, `planned` has the clusters
    /// that got a new plan.
    ///
    /// # Errors
    /// Out of memory; only where some cluster's modules may change attributes.
    pub fn instant(
        &mut self,
        alloc: Global,
        flat: &Flat,
        time: u64,
        left: &mut u64,
    ) -> Result<Pass, Memory>
        requires sound { IsSoundFlat flat.now }
        requires runnable { IsRunnable flat.now }
        requires engine { IsEngineOf flat.now self.old }
        requires ready { IsReadyAt time self.old }
        requires none { self.old.outputs.traced ≡ [] }
        requires early { time < time_end }
        ensures engine { result ≡ Ok Done → IsEngineOf flat.now self.new }
        ensures had { result ≡ Ok Done
            → HasHadInstant flat.now time self.old self.new left.old left.new }
        ensures later { result ≡ Ok Done → IsReadyAt (time + 1) self.new }
        ensures spent { result ≡ Ok Spent
            → HasBeenSpent flat.now time self.old self.new left.old }
        ensures stopped { (number : ℕ) (fault : BoxOf FaultOf) → result ≡ Ok (Stopped number fault)
            → HasBeenStopped flat.now time number fault.value self.old self.new left.old }
        ensures groups { self.new.groups ≡ self.old.groups }
        ensures never { NoneChanges flat.now self.old.clusters.items → IsOk result }
    {
        law_by_offset();
        law_limits();
        match self.cross(alloc, flat, time, left)? {
            Pass::Done => {}
            ended => return Ok(ended),
        }
        self.make_room(alloc)?;
        if !self.fire(flat, time, left) {
            return Ok(Pass::Spent);
        }
        Ok(self.settle(flat, time, left))
    }
}
