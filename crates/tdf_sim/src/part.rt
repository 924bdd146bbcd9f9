//! A run of a model that was accepted, up to a stop at which it waits.

ghost use Rattle.std.specs.Prelude.{◌<◌, IfOk, List, OnOk};
ghost use Rattle.tdf_base.specs.Limits.{time_end};
ghost use Rattle.tdf_io.specs.Faults.{CountsTwoSinks};
ghost use Rattle.tdf_lang_tree.specs.Pure.{PureTree};
ghost use Rattle.tdf_sim.specs.Runs.{IsAcceptedTree, IsSomeAccepted};
ghost use Rattle.tdf_sim.specs.declared.run.RunErr.TheVariants as why;
ghost use Rattle.tdf_sim_history.specs.World.{Change};
ghost use Rattle.tdf_sim_notes.specs.Ending.{HaveAnswers};
ghost use Rattle.tdf_sim_runs.specs.Parts.{IfPaused, PartsAs};
ghost use Rattle.tdf_sim_runs.specs.Paused.{IsPaused};

use crate::run::{RunErr, by_sink};
use crate::sim::Sim;
use std::alloc::Global;
use tdf_bind_invariants::law_limits;
use tdf_events_invariants::law_runnable;
use tdf_io::Sink;
use tdf_sim_runs::{Part, Request, run_part};
use tdf_trace_rows::TraceKind;

impl Sim {
    /// Runs the model from time 0 to a stop, in counts of its resolution, and waits there, where so many turns reach so far and no
    /// boundary has a fault; else it ended before, and wrote what `run` writes. At the stop it has written on `out` the head of the
    /// trace and the rows that no later instant changes, and on `notes` the plans, and the new plans of boundaries.
    ///
    /// # Errors
    /// `WriteFault` only where a count of faults rose, and no other answer changes one; after it and after `Memory` both sinks hold
    /// front parts of their texts.
    pub fn run_part<O: Sink, N: Sink>(
        self,
        alloc: Global,
        stop: u64,
        turns: u64,
        kind: TraceKind,
        out: &mut O,
        notes: &mut N,
    ) -> Result<Part, RunErr>
        requires accepted { IsSomeAccepted self }
        requires stop { stop < time_end }
        ensures answered { (tree : PureTree) → IsAcceptedTree tree self
            → OnOk result ((ahead : List (List Change))
            × HaveAnswers tree self.flat self.firsts.items ahead stop turns) }
        ensures parts { (tree : PureTree) → IsAcceptedTree tree self
            → (ahead : List (List Change))
            → HaveAnswers tree self.flat self.firsts.items ahead stop turns
            → PartsAs kind tree self.flat self.firsts.items ahead stop turns (O.taken out.old)
            (O.taken out.new) (N.taken notes.old) (N.taken notes.new) result }
        ensures paused { IfOk result (λ part. IfPaused part IsPaused) }
        ensures counts { CountsTwoSinks why.WriteFault (O.faults out.old) (O.faults out.new)
            (N.faults notes.old) (N.faults notes.new) result }
    {
        law_limits();
        law_runnable();
        let Sim { flat, firsts } = self;
        let request = Request { stop, turns, kind };
        match run_part(alloc, flat, firsts, request, out, notes) {
            Ok(part) => Ok(part),
            Err(error) => Err(by_sink(error)),
        }
    }
}
