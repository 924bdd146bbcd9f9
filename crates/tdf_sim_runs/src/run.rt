//! A whole run.

use tdf_events::Kernel;
use tdf_sim_instants::Cluster;
use tdf_sim_notes::End;
use tdf_trace_rows::TraceKind;

/// What a run is asked for.
#[derive(Clone, Copy)]
pub struct Request {
    /// Where it stops, in counts of the resolution.
    pub stop: u64,
    /// How many turns it may take.
    pub turns: u64,
    /// The form of its trace.
    pub kind: TraceKind,
}

/// How a run ended, and what it leaves.
#[derive(Drop)]
pub struct Ran {
    /// How it ended.
    pub end: End,
    /// Its clusters. Where it reached its stop, they are in order of number and have done every firing of the run.
    pub clusters: Vec<Cluster>,
    /// Its event side. Where it reached its stop, it is the one after the last instant.
    pub kernel: Kernel,
}

ghost use Rattle.std.specs.Io.KnownBytes.{Appends};
ghost use Rattle.std.specs.Prelude.{◌≡◌, ◌<◌, List, [], IfOk, OnErr, OnOk};
ghost use Rattle.tdf_base.specs.Limits.{time_end};
ghost use Rattle.tdf_sim_instants.specs.InstantLaws.{IsModelOf};
ghost use Rattle.tdf_io.specs.Bytes.{AppendsFront, WritesText};
ghost use Rattle.tdf_io.specs.Faults.{CountsTwoSinks};
ghost use Rattle.tdf_io.specs.declared.writing.SinkErr.TheVariants.{Failed};
ghost use Rattle.tdf_sim_runs.specs.Running.{CanGoOn, IsRunningAt};
ghost use Rattle.tdf_sim_runs.specs.Runs.{CanRun, RunsAs, model_about};
ghost use Rattle.tdf_sim_notes.specs.Ending.{HaveAnswers};
ghost use Rattle.tdf_sim_notes.specs.Plans.{plans_of};
ghost use Rattle.tdf_trace.specs.Writings.{head_of};
ghost use Rattle.tdf_trace.specs.declared.stage.Stage.TheVariants.{Open};
ghost use Rattle.tdf_lang_tree.specs.Pure.{PureTree};
ghost use Rattle.tdf_sim_history.specs.World.{Change};
ghost use Rattle.tdf_sim_history.specs.Rules.{start_world};

use crate::rest::{Until, go_on};
use crate::running::Running;
use crate::starting::begin;
use std::alloc::Global;
use tdf_bind::Flat;
use tdf_dynamic_first::First;
use tdf_io::{Sink, SinkErr};
use tdf_sim_notes::{law_report, write_plans};

/// A run before its first instant, whose trace has its head.
fn opened<O: Sink>(
    alloc: Global,
    flat: &Flat,
    firsts: Vec<First>,
    kind: TraceKind,
    turns: u64,
    out: &mut O,
) -> Result<Running, SinkErr>
    requires can { CanRun flat.now firsts.items }
    ensures can { IfOk result (CanGoOn flat.now) }
    ensures runs { (model : PureTree) → IsModelOf model flat.now → IfOk result (λ run.
        IsRunningAt model flat.now (start_world model flat.now firsts.items [] turns) [] run) }
    ensures from { IfOk result (λ run. run.from ≡ 0) }
    ensures upto { IfOk result (λ run. run.shown.trace.rows.upto ≡ 0) }
    ensures stage { IfOk result (λ run. run.shown.trace.stage ≡ Open) }
    ensures about { IfOk result (λ run. run.shown.trace.about ≡ model_about kind flat.now) }
    ensures wrote { WritesText O.taken O.faults out.old out.new (head_of (model_about kind flat.now)) result }
{
    let mut run = match begin(alloc, flat, firsts, kind, turns) {
        Ok(run) => run,
        Err(_) => return Err(SinkErr::Memory),
    };
    match run.shown.trace.begin(out) {
        Ok(()) => Ok(run),
        Err(error) => {
            drop(run);
            Err(error)
        }
    }
}

/// A run before its first instant, as it is asked for: the first plans are written on `notes`, and the head of its trace on `out`.
///
/// # Errors
/// A write failed, or out of memory. Both sinks then hold front parts of these texts. Where no write failed, no count of faults
/// changes.
pub fn begin_run<O: Sink, N: Sink>(
    alloc: Global,
    flat: &Flat,
    firsts: Vec<First>,
    request: Request,
    out: &mut O,
    notes: &mut N,
) -> Result<Running, SinkErr>
    requires can { CanRun flat.now firsts.items }
    ensures can { IfOk result (CanGoOn flat.now) }
    ensures runs { (model : PureTree) → IsModelOf model flat.now → IfOk result (λ run.
        IsRunningAt model flat.now
        (start_world model flat.now firsts.items [] request.turns) [] run) }
    ensures from { IfOk result (λ run. run.from ≡ 0) }
    ensures upto { IfOk result (λ run. run.shown.trace.rows.upto ≡ 0) }
    ensures stage { IfOk result (λ run. run.shown.trace.stage ≡ Open) }
    ensures about { IfOk result (λ run.
        run.shown.trace.about ≡ model_about request.kind flat.now) }
    ensures head { OnOk result (Appends (O.taken out.old) (O.taken out.new)
        (head_of (model_about request.kind flat.now))) }
    ensures plans { OnOk result (Appends (N.taken notes.old) (N.taken notes.new)
        (plans_of flat.now firsts.items)) }
    ensures head_part { OnErr result (AppendsFront (O.taken out.old) (O.taken out.new)
        (head_of (model_about request.kind flat.now))) }
    ensures plans_part { OnErr result (AppendsFront (N.taken notes.old) (N.taken notes.new)
        (plans_of flat.now firsts.items)) }
    ensures counts { CountsTwoSinks Failed (O.faults out.old) (O.faults out.new)
        (N.faults notes.old) (N.faults notes.new) result }
{
    if let Err(error) = write_plans(alloc, flat, &firsts, notes) {
        drop(firsts);
        return Err(error);
    }
    opened(alloc, flat, firsts, request.kind, request.turns, out)
}

/// Runs a model from its first plans up to the stop of a request, within its turns. It writes the trace on `out`,
/// and on `notes` the plans and how it ended. What it writes is that of the history which is told the answers of the boundaries.
///
/// # Errors
/// A write failed, or out of memory. Both sinks then hold front parts of their texts. Where no write failed, no count of faults
/// changes.
pub fn run_model<O: Sink, N: Sink>(
    alloc: Global,
    flat: &Flat,
    firsts: Vec<First>,
    request: Request,
    out: &mut O,
    notes: &mut N,
) -> Result<Ran, SinkErr>
    requires can { CanRun flat.now firsts.items }
    requires stop { request.stop < time_end }
    ensures answered { (model : PureTree) → IsModelOf model flat.now → OnOk result
        ((ahead : List (List Change))
        × HaveAnswers model flat.now firsts.items ahead request.stop request.turns) }
    ensures runs { (model : PureTree) → IsModelOf model flat.now
        → (ahead : List (List Change))
        → HaveAnswers model flat.now firsts.items ahead request.stop request.turns
        → RunsAs request.kind model flat.now firsts.items ahead request.stop request.turns
        (O.taken out.old) (O.taken out.new) (N.taken notes.old) (N.taken notes.new) result }
    ensures counts { CountsTwoSinks Failed (O.faults out.old) (O.faults out.new)
        (N.faults notes.old) (N.faults notes.new) result }
{
    law_report();
    let run = match begin_run(alloc, flat, firsts, request, out, notes) {
        Ok(run) => run,
        Err(error) => return Err(error),
    };
    let until = Until {
        stop: request.stop,
        turns: request.turns,
    };
    go_on(alloc, flat, run, until, out, notes)
}
