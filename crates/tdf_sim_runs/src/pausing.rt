//! A run that comes to a stop and waits there.

use crate::run::Ran;
use crate::running::Running;

/// A run that went to a stop.
#[derive(Drop)]
pub enum Arrival {
    /// It waits there, and can go on: all its instants before the stop have happened, its rows are written up to the first position
    /// of a traced signal whose sample isn't known, and its notes have all plans that came.
    Waiting(Running),
    /// It ended before.
    Ended(Ran),
}

ghost use Rattle.std.specs.Io.KnownBytes.{Appends};
ghost use Rattle.std.specs.Prelude.{◌≡◌, ◌<◌, ◌≤◌, ℕ, IfOk, List, OnErr, OnOk};
ghost use Rattle.tdf_base.specs.Limits.{time_end};
ghost use Rattle.tdf_events.specs.Runnable.{IsRunnable};
ghost use Rattle.tdf_events.specs.Side.{SideOf};
ghost use Rattle.tdf_io.specs.Bytes.{AppendsFront};
ghost use Rattle.tdf_io.specs.Faults.{CountsTwoSinks};
ghost use Rattle.tdf_io.specs.declared.writing.SinkErr.TheVariants.{Failed};
ghost use Rattle.tdf_lang_tree.specs.Pure.{PureTree};
ghost use Rattle.tdf_sim_history.specs.World.{Change, World};
ghost use Rattle.tdf_sim_instants.specs.InstantLaws.{IsModelOf};
ghost use Rattle.tdf_sim_runs.specs.Ongoing.{AreToldTo};
ghost use Rattle.tdf_sim_runs.specs.Pausing.{HasWaited, IfWaiting, PausesAs};
ghost use Rattle.tdf_sim_runs.specs.Running.{CanGoOn, IsRunningAt, WritesFrontTo};
ghost use Rattle.tdf_trace.specs.declared.stage.Stage.TheVariants.{Open};

use crate::going::Ended;
use crate::rest::{Until, close_run};
use crate::standing::law_standing;
use std::alloc::Global;
use tdf_bind::Flat;
use tdf_io::{Sink, SinkErr, put_all};
use tdf_sim_instants::law_one_answer;
use tdf_sim_shown::rows_from;

/// Writes the rows of a run up to the time from which on they are still to be written, and hands on its news.
fn wait<O: Sink, N: Sink>(
    flat: &Flat,
    mut run: Running,
    out: &mut O,
    notes: &mut N,
) -> Result<Running, SinkErr>
    requires can { CanGoOn flat.now run }
    requires open { run.shown.trace.stage ≡ Open }
    ensures waits { IfOk result (λ after. HasWaited flat.now run after
        (O.taken out.old) (O.taken out.new) (N.taken notes.old) (N.taken notes.new)) }
    ensures part { OnErr result
        (WritesFrontTo flat.now run (O.taken out.old) (O.taken out.new)) }
    ensures notes_part { OnErr result
        (AppendsFront (N.taken notes.old) (N.taken notes.new) run.news.items) }
    ensures counts { CountsTwoSinks Failed (O.faults out.old) (O.faults out.new)
        (N.faults notes.old) (N.faults notes.new) result }
{
    law_standing();
    law_one_answer();
    let rows = rows_from(&run.shown, run.from);
    if let Err(error) = run.shown.trace.advance(rows, out) {
        drop(run);
        return Err(error);
    }
    match put_all(notes, &run.news) {
        Ok(()) => {
            run.news.clear();
            Ok(run)
        }
        Err(error) => {
            drop(run);
            Err(error)
        }
    }
}

/// Goes on with a run to a stop and waits there, where all its instants before it can happen; else it ends as `go_on` has it. At the
/// stop it writes on `out` the rows that no later instant changes, and on `notes` the plans that came. What it writes is that of the
/// history from each start from which the run goes on, told the answers of its boundaries.
///
/// # Errors
/// A write failed, or out of memory. Both sinks then hold front parts of what the run writes up to the stop, or to its end before it.
/// Where no write failed, no count of faults changes.
pub fn pause<O: Sink, N: Sink>(
    alloc: Global,
    flat: &Flat,
    mut run: Running,
    until: Until,
    out: &mut O,
    notes: &mut N,
) -> Result<Arrival, SinkErr>
    requires runnable { IsRunnable flat.now }
    requires can { CanGoOn flat.now run }
    requires within { run.from ≤ until.stop }
    requires early { until.stop < time_end }
    requires open { run.shown.trace.stage ≡ Open }
    ensures can { IfOk result (λ it. IfWaiting it (CanGoOn flat.now)) }
    ensures at { IfOk result (λ it. IfWaiting it (λ after. after.from ≡ until.stop)) }
    ensures stage { IfOk result (λ it. IfWaiting it (λ after. after.shown.trace.stage ≡ Open)) }
    ensures answered { (model : PureTree) (start : World SideOf) (handed : List ℕ)
        → IsModelOf model flat.now → IsRunningAt model flat.now start handed run
        → OnOk result ((ahead : List (List Change))
        × AreToldTo model flat.now start until.stop ahead) }
    ensures pauses { (model : PureTree) (start : World SideOf) (handed : List ℕ)
        → (ahead : List (List Change)) → IsModelOf model flat.now
        → IsRunningAt model flat.now start handed run
        → AreToldTo model flat.now start until.stop ahead
        → PausesAs model flat.now run.shown.trace.about start handed ahead
        run.shown.trace.rows.upto until.stop until.turns (O.taken out.old) (O.taken out.new)
        (N.taken notes.old) (N.taken notes.new) result }
    ensures counts { CountsTwoSinks Failed (O.faults out.old) (O.faults out.new)
        (N.faults notes.old) (N.faults notes.new) result }
{
    law_one_answer();
    let ended = match run.go(alloc, flat, until.stop, out, notes) {
        Ok(ended) => ended,
        Err(error) => {
            drop(run);
            return Err(error);
        }
    };
    match ended {
        Ended::Reached => match wait(flat, run, out, notes) {
            Ok(run) => Ok(Arrival::Waiting(run)),
            Err(error) => Err(error),
        },
        ended => match close_run(alloc, flat, run, ended, until, out, notes) {
            Ok(ran) => Ok(Arrival::Ended(ran)),
            Err(error) => Err(error),
        },
    }
}
