//! A run of a model that was accepted.

ghost use Rattle.std.specs.Prelude.{◌≡◌, ◌<◌, List, OnOk};
ghost use Rattle.tdf_base.specs.Limits.{time_end};
ghost use Rattle.tdf_io.specs.Faults.{CountsTwoSinks};
ghost use Rattle.tdf_sim_runs.specs.Runs.{RunsAs};
ghost use Rattle.tdf_sim_history.specs.World.{Change};
ghost use Rattle.tdf_sim_notes.specs.Ending.{HaveAnswers};
ghost use Rattle.tdf_sim.specs.Runs.{IsAcceptedTree, IsSomeAccepted};
ghost use Rattle.tdf_sim.specs.declared.run.RunErr.TheVariants as why;
ghost use Rattle.tdf_sim.specs.machine.Steps.{by_sink};
ghost use Rattle.tdf_lang_tree.specs.Pure.{PureTree};

use crate::sim::Sim;
use std::alloc::Global;
use tdf_bind_invariants::law_limits;
use tdf_events_invariants::law_runnable;
use tdf_io::{Sink, SinkErr};
use tdf_sim_runs::{Ran, Request, run_model};
use tdf_trace_rows::TraceKind;

/// Why a run did not end.
#[derive(Drop)]
pub enum RunErr {
    /// A write failed.
    WriteFault,
    /// Out of memory.
    Memory,
}

/// What a sink answered.
pub(crate) fn by_sink(error: SinkErr) -> RunErr
    ensures { result ≡ by_sink error }
{
    match error {
        SinkErr::Failed => RunErr::WriteFault,
        SinkErr::Memory => RunErr::Memory,
    }
}

impl Sim {
    /// Runs the model from time 0 to a stop, in counts of its resolution, within so many turns. It writes the trace on `out`, and on
    /// `notes` the plans, the new plans of boundaries where modules change their attributes, and how it ended. A fault of such a
    /// change ends it at the time of the boundary.
    ///
    /// # Errors
    /// `WriteFault` only where a count of faults rose, and no other answer changes one; after it and after `Memory` both sinks hold
    /// front parts of their texts.
    pub fn run<O: Sink, N: Sink>(
        self,
        alloc: Global,
        stop: u64,
        turns: u64,
        kind: TraceKind,
        out: &mut O,
        notes: &mut N,
    ) -> Result<Ran, RunErr>
        requires accepted { IsSomeAccepted self }
        requires stop { stop < time_end }
        ensures answered { (tree : PureTree) → IsAcceptedTree tree self
            → OnOk result ((ahead : List (List Change))
            × HaveAnswers tree self.flat self.firsts.items ahead stop turns) }
        ensures runs { (tree : PureTree) → IsAcceptedTree tree self
            → (ahead : List (List Change))
            → HaveAnswers tree self.flat self.firsts.items ahead stop turns
            → RunsAs kind tree self.flat self.firsts.items ahead stop turns (O.taken out.old)
            (O.taken out.new) (N.taken notes.old) (N.taken notes.new) result }
        ensures counts { CountsTwoSinks why.WriteFault (O.faults out.old) (O.faults out.new)
            (N.faults notes.old) (N.faults notes.new) result }
    {
        law_limits();
        law_runnable();
        let Sim { flat, firsts } = self;
        let request = Request { stop, turns, kind };
        match run_model(alloc, &flat, firsts, request, out, notes) {
            Ok(ran) => {
                drop(flat);
                Ok(ran)
            }
            Err(error) => {
                drop(flat);
                Err(by_sink(error))
            }
        }
    }
}
