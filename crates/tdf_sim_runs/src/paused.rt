//! A run that waits at a time.

use crate::running::Running;
use tdf_bind::Flat;
use tdf_trace_rows::TraceKind;

/// A run that waits at a time: all its instants before it have happened, its rows are written up to the first position of a traced
/// signal whose sample isn't known, and its notes have all plans that came.
#[derive(Drop)]
pub struct Paused {
    /// Its flat model.
    pub flat: Flat,
    /// The run.
    pub run: Running,
    /// The form of its trace.
    pub kind: TraceKind,
    /// The turns that it was given, those included that were taken.
    pub turns: u64,
}

ghost use Rattle.std.specs.Prelude.{◌≡◌, ◌<◌, ◌≤◌, ℕ, [], IfOk, List, OnOk};
ghost use Rattle.tdf_base.specs.Limits.{time_end};
ghost use Rattle.tdf_dynamic_first.specs.declared.first.First.{First};
ghost use Rattle.tdf_events.specs.Side.{SideOf};
ghost use Rattle.tdf_io.specs.Faults.{CountsTwoSinks};
ghost use Rattle.tdf_io.specs.declared.writing.SinkErr.TheVariants.{Failed};
ghost use Rattle.tdf_lang_tree.specs.Pure.{PureTree};
ghost use Rattle.tdf_sim_history.specs.Rules.{start_world};
ghost use Rattle.tdf_sim_history.specs.Telling.{world_told};
ghost use Rattle.tdf_sim_history.specs.World.{Change, World};
ghost use Rattle.tdf_sim_instants.specs.InstantLaws.{IsModelOf};
ghost use Rattle.tdf_sim_runs.specs.Paused.{IsPaused, IsPausedAt, IsSnapshotOfRun};
ghost use Rattle.tdf_sim_runs.specs.Saving.{is_vcd};
ghost use Rattle.tdf_sim_shown.specs.Below.{IsSnapshot};
ghost use Rattle.tdf_sim_runs.specs.Ongoing.{AreToldTo};
ghost use Rattle.tdf_sim_runs.specs.Rest.{GoesOnAs};
ghost use Rattle.tdf_sim_runs.specs.Running.{IsRunningAt};
ghost use Rattle.tdf_sim_runs.specs.Runs.{model_about};

use crate::rest::{Until, go_on};
use crate::run::Ran;
use crate::saving::snapshot_of;
use std::alloc::Global;
use tdf_base::Memory;
use tdf_io::{Sink, SinkErr};
use tdf_saved::Snapshot;

impl Paused {
    /// The time at which it waits, in counts of the model's resolution. It takes no memory.
    pub fn time(&self) -> u64
        ensures { result ≡ self.now.run.from }
    {
        self.run.from
    }

    /// Its snapshot: that of the history then, from each start from which on it waits there.
    ///
    /// # Errors
    /// Out of memory.
    pub fn snapshot(&self, alloc: Global) -> Result<Snapshot, Memory>
        requires paused { IsPaused self.now }
        ensures is { (model : PureTree) (start : World SideOf) (handed : List ℕ)
            → IsModelOf model self.now.flat → (at : IsPausedAt model start handed self.now)
            → IfOk result (IsSnapshot model self.now.flat
            (world_told at.goes_on.going.ahead start) at.goes_on.going.world
            self.now.run.from self.now.turns (is_vcd self.now.kind)) }
        ensures of_run { (model : PureTree) (firsts : List First) (handed : List ℕ)
            → IsModelOf model self.now.flat
            → IsPausedAt model (start_world model self.now.flat firsts [] self.now.turns) handed
            self.now → IfOk result (IsSnapshotOfRun model self.now.flat firsts self.now.run.from
            self.now.turns (is_vcd self.now.kind)) }
    {
        snapshot_of(alloc, &self.flat, &self.run, self.kind, self.turns)
    }

    /// Goes on to a stop, or as far as its turns reach. It writes on `out` the rows that are left and the tail, and on `notes` the plans
    /// that its boundaries bring, and how it ended.
    ///
    /// # Errors
    /// A write failed, or out of memory. Both sinks then hold front parts of their texts. Where no write failed, no count of faults
    /// changes.
    pub fn resume<O: Sink, N: Sink>(
        self,
        alloc: Global,
        stop: u64,
        out: &mut O,
        notes: &mut N,
    ) -> Result<Ran, SinkErr>
        requires paused { IsPaused self }
        requires within { self.run.from ≤ stop }
        requires early { stop < time_end }
        ensures answered { (model : PureTree) (start : World SideOf) (handed : List ℕ)
            → IsModelOf model self.flat → IsRunningAt model self.flat start handed self.run
            → OnOk result ((ahead : List (List Change))
            × AreToldTo model self.flat start stop ahead) }
        ensures goes { (model : PureTree) (start : World SideOf) (handed : List ℕ)
            → (ahead : List (List Change)) → IsModelOf model self.flat
            → IsRunningAt model self.flat start handed self.run
            → AreToldTo model self.flat start stop ahead
            → GoesOnAs model self.flat (model_about self.kind self.flat) start handed ahead
            self.run.shown.trace.rows.upto stop self.turns (O.taken out.old) (O.taken out.new)
            (N.taken notes.old) (N.taken notes.new) result }
        ensures counts { CountsTwoSinks Failed (O.faults out.old) (O.faults out.new)
            (N.faults notes.old) (N.faults notes.new) result }
    {
        let until = Until {
            stop,
            turns: self.turns,
        };
        let flat = self.flat;
        match go_on(alloc, &flat, self.run, until, out, notes) {
            Ok(ran) => {
                drop(flat);
                Ok(ran)
            }
            Err(error) => {
                drop(flat);
                Err(error)
            }
        }
    }
}
