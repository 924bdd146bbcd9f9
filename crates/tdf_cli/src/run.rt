//! The job `run`.

ghost use Rattle.std.specs.Prelude.{◌≡◌, ◌*◌, ◌<◌, ℕ, None, Some, IfOk, IfSome, OnErr, if◌then◌else◌, nat_lt};
ghost use Rattle.tdf_base.specs.Limits.{time_end};
ghost use Rattle.tdf_cli.specs.Outcome.{WritesFrontOf, WritesOneOf};
ghost use Rattle.tdf_cli.specs.Runs.{HasRunOutcome, status_of, stop_in};
ghost use Rattle.tdf_io.specs.Faults.{CountsTwoSinks};
ghost use Rattle.tdf_io.specs.declared.writing.SinkErr.TheVariants as why;
ghost use Rattle.tdf_sim.specs.Runs.{IsAcceptedTree, IsSomeAccepted};
ghost use Rattle.tdf_lang_tree.specs.Pure.{PureTree};

use crate::notes::noted;
use crate::status::Status;
use std::alloc::Global;
use std::mem;
use tdf_base::{Resolution, TIME_END};
use tdf_cli_words::RunOptions;
use tdf_io::{Sink, SinkErr};
use tdf_sim::{End, RunErr, Sim, law_one_model, law_one_run};

/// A stop in fs, where a run may have it.
fn in_femtoseconds(stop: u64) -> Option<u64>
    ensures { result ≡ (if nat_lt (stop * 1000) time_end then Some (stop * 1000) else None) }
{
    let end = u128::from(stop) * 1000;
    if end < u128::from(TIME_END) {
        return Some(end as u64);
    }
    None
}

/// A stop, which the words say in ps, in counts of a resolution, where a run may have it.
pub(crate) fn stop_in(unit: Resolution, stop: u64) -> Option<u64>
    requires stop { stop < time_end }
    ensures value { result ≡ stop_in unit stop }
    ensures early { IfSome result (λ end. end < time_end) }
{
    match unit {
        Resolution::Ps => Some(stop),
        Resolution::Fs => in_femtoseconds(stop),
    }
}

/// The answer of a run that ended so.
pub(crate) fn status_of(end: &End) -> Status
    ensures { result ≡ status_of end.now }
{
    match end {
        End::Reached { .. } => Status::Done,
        End::Stopped { .. } => Status::Stopped,
        End::Spent { .. } => Status::Spent,
    }
}

/// Runs a model that was accepted to a stop in counts of its resolution, and answers how it ended.
fn run_to<O: Sink, N: Sink>(
    alloc: Global,
    sim: Sim,
    asked: RunOptions,
    end: u64,
    out: &mut O,
    notes: &mut N,
) -> Result<Status, SinkErr>
    requires stop { end < time_end }
    requires accepted { IsSomeAccepted sim }
    ensures all { (tree : PureTree) → IsAcceptedTree tree sim
        → stop_in sim.flat.resolution asked.stop ≡ Some end
        → IfOk result (λ s. WritesOneOf (HasRunOutcome asked tree) s
        (O.taken out.old) (O.taken out.new) (N.taken notes.old) (N.taken notes.new)) }
    ensures part { (tree : PureTree) → IsAcceptedTree tree sim
        → stop_in sim.flat.resolution asked.stop ≡ Some end
        → OnErr result (WritesFrontOf (HasRunOutcome asked tree)
        (O.taken out.old) (O.taken out.new) (N.taken notes.old) (N.taken notes.new)) }
    ensures counts { CountsTwoSinks why.Failed (O.faults out.old) (O.faults out.new)
        (N.faults notes.old) (N.faults notes.new) result }
{
    law_one_model();
    law_one_run();
    match sim.run(alloc, end, asked.turns, asked.kind, out, notes) {
        Ok(ran) => {
            let status = status_of(&ran.end);
            mem::forget(ran);
            Ok(status)
        }
        Err(RunErr::WriteFault) => Err(SinkErr::Failed),
        Err(RunErr::Memory) => Err(SinkErr::Memory),
    }
}

/// Runs a model that was accepted as it is asked for, and answers how it ended; or notes that the stop is too late for its resolution.
pub(crate) fn run<O: Sink, N: Sink>(
    alloc: Global,
    sim: Sim,
    asked: RunOptions,
    out: &mut O,
    notes: &mut N,
) -> Result<Status, SinkErr>
    requires stop { asked.stop < time_end }
    requires accepted { IsSomeAccepted sim }
    ensures all { (tree : PureTree) → IsAcceptedTree tree sim
        → IfOk result (λ s. WritesOneOf (HasRunOutcome asked tree) s
        (O.taken out.old) (O.taken out.new) (N.taken notes.old) (N.taken notes.new)) }
    ensures part { (tree : PureTree) → IsAcceptedTree tree sim
        → OnErr result (WritesFrontOf (HasRunOutcome asked tree)
        (O.taken out.old) (O.taken out.new) (N.taken notes.old) (N.taken notes.new)) }
    ensures counts { CountsTwoSinks why.Failed (O.faults out.old) (O.faults out.new)
        (N.faults notes.old) (N.faults notes.new) result }
{
    law_one_model();
    match stop_in(sim.flat.resolution, asked.stop) {
        Some(end) => run_to(alloc, sim, asked, end, out, notes),
        None => {
            drop(sim);
            noted(notes, b"stop too long\n", Status::StopTooLong)
        }
    }
}
