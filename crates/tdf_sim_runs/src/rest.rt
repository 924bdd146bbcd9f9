//! A run that goes on to its end.

/// Up to where a run goes on.
#[derive(Clone, Copy)]
pub struct Until {
    /// Where it stops, in counts of the resolution.
    pub stop: u64,
    /// The turns that it was given, those included that were taken before it went on.
    pub turns: u64,
}

ghost use Rattle.std.specs.Io.KnownBytes.{Appends};
ghost use Rattle.std.specs.Prelude.{◌≡◌, ◌<◌, ◌≤◌, ◌++◌, ℕ, IfOk, List, OnErr, OnOk, length};
ghost use Rattle.tdf_base.specs.Limits.{time_end};
ghost use Rattle.tdf_events.specs.Runnable.{IsRunnable};
ghost use Rattle.tdf_events.specs.Side.{SideOf};
ghost use Rattle.tdf_io.specs.Bytes.{AppendsFront, WritesText};
ghost use Rattle.tdf_io.specs.Faults.{CountsSinkFaults, CountsTwoSinks};
ghost use Rattle.tdf_io.specs.declared.writing.SinkErr.TheVariants.{Failed};
ghost use Rattle.tdf_lang_tree.specs.Pure.{PureTree};
ghost use Rattle.tdf_sim_history.specs.World.{Change, World};
ghost use Rattle.tdf_sim_instants.specs.InstantLaws.{IsModelOf};
ghost use Rattle.tdf_sim_notes.specs.Ending.{end_text};
ghost use Rattle.tdf_sim_runs.specs.Ending.{WritesEnd, end_by};
ghost use Rattle.tdf_sim_runs.specs.Ongoing.{AreToldTo};
ghost use Rattle.tdf_sim_runs.specs.Rest.{GoesOnAs};
ghost use Rattle.tdf_sim_runs.specs.Running.{CanGoOn, IsRunningAt};
ghost use Rattle.tdf_sim_runs.specs.machine.Closing.{EndsTrace, closing_notes};
ghost use Rattle.tdf_trace.specs.Tracked.{AreSince};
ghost use Rattle.tdf_trace.specs.declared.stage.Stage.TheVariants.{Open};

use crate::ending::finish;
use crate::going::Ended;
use crate::run::Ran;
use crate::running::Running;
use std::alloc::Global;
use tdf_bind::Flat;
use tdf_io::{Sink, SinkErr, put_all};
use tdf_sim_instants::{Engine, law_one_answer};
use tdf_sim_notes::{End, write_closing};

/// A run that ended, and the text of the last plans that its boundaries brought.
#[derive(Drop)]
struct Whole {
    ran: Ran,
    news: Vec<u8>,
}

/// How a run of so many turns ended.
fn end_of(run: &Running, ended: Ended, stop: u64, turns: u64) -> End
    ensures { result ≡ end_by run.now stop turns ended }
{
    match ended {
        Ended::Reached => End::Reached {
            time: stop,
            turns: turns.saturating_sub(run.left),
        },
        Ended::Spent => End::Spent { time: run.from },
        Ended::Stopped { cluster, fault } => End::Stopped {
            time: run.from,
            cluster,
            fault,
        },
    }
}

/// What all that ran leaves: its clusters and its event side.
fn ran_of(engine: Engine, end: End) -> Ran
    ensures { result ≡ record { end = end; clusters = engine.clusters; kernel = engine.kernel } }
{
    let Engine {
        clusters,
        since,
        links,
        inputs,
        sinks,
        outputs,
        writes,
        kernel,
        planned,
        groups,
        rooms,
    } = engine;
    drop(since);
    drop(links);
    drop(inputs);
    drop(sinks);
    drop(outputs);
    drop(writes);
    drop(planned);
    drop(groups);
    drop(rooms);
    Ran {
        end,
        clusters,
        kernel,
    }
}

/// What a run leaves that goes no further; its trace is whole then.
fn closed<O: Sink>(
    run: Running,
    ended: Ended,
    stop: u64,
    turns: u64,
    out: &mut O,
) -> Result<Whole, SinkErr>
    requires open { run.shown.trace.stage ≡ Open }
    requires width { run.shown.tracking.width ≤ length run.shown.trace.about.variables }
    requires since { AreSince run.shown.trace.rows.upto run.shown.tracking.list }
    ensures wrote { WritesEnd O.taken O.faults out.old out.new run.shown run.from result }
    ensures counted { CountsSinkFaults (O.faults out.old) (O.faults out.new) result }
    ensures end { IfOk result (λ whole. whole.ran.end ≡ end_by run stop turns ended) }
    ensures clusters { IfOk result (λ whole. whole.ran.clusters ≡ run.engine.clusters) }
    ensures kernel { IfOk result (λ whole. whole.ran.kernel ≡ run.engine.kernel) }
    ensures news { IfOk result (λ whole. whole.news.items ≡ run.news.items) }
{
    let end = end_of(&run, ended, stop, turns);
    let Running {
        engine,
        shown,
        from,
        left: _,
        news,
    } = run;
    match finish(shown, from, out) {
        Ok(()) => Ok(Whole {
            ran: ran_of(engine, end),
            news,
        }),
        Err(error) => {
            drop(engine);
            drop(end);
            drop(news);
            Err(error)
        }
    }
}

/// Writes the last plans that boundaries brought, and how the run ended.
fn write_notes<N: Sink>(
    alloc: Global,
    flat: &Flat,
    turns: u64,
    whole: &Whole,
    notes: &mut N,
) -> Result<(), SinkErr>
    ensures { WritesText N.taken N.faults notes.old notes.new (whole.now.news.items
        ++ end_text flat.now.resolution turns whole.now.ran.end) result }
{
    match put_all(notes, &whole.news) {
        Ok(()) => write_closing(alloc, flat.resolution, turns, &whole.ran.end, notes),
        Err(error) => Err(error),
    }
}

/// Ends the trace of a run that goes no further, and its notes: the plans that it holds, and how it ended.
///
/// # Errors
/// A write failed, or out of memory.
pub(crate) fn close_run<O: Sink, N: Sink>(
    alloc: Global,
    flat: &Flat,
    run: Running,
    ended: Ended,
    until: Until,
    out: &mut O,
    notes: &mut N,
) -> Result<Ran, SinkErr>
    requires open { run.shown.trace.stage ≡ Open }
    requires width { run.shown.tracking.width ≤ length run.shown.trace.about.variables }
    requires since { AreSince run.shown.trace.rows.upto run.shown.tracking.list }
    ensures trace { EndsTrace run.shown run.from (λ rest. OnOk result
        (Appends (O.taken out.old) (O.taken out.new) rest)) }
    ensures trace_part { EndsTrace run.shown run.from (λ rest. OnErr result
        (AppendsFront (O.taken out.old) (O.taken out.new) rest)) }
    ensures notes { OnOk result (Appends (N.taken notes.old) (N.taken notes.new)
        (closing_notes flat.now.resolution until.stop until.turns run ended)) }
    ensures notes_part { OnErr result (AppendsFront (N.taken notes.old) (N.taken notes.new)
        (closing_notes flat.now.resolution until.stop until.turns run ended)) }
    ensures end { IfOk result (λ ran. ran.end ≡ end_by run until.stop until.turns ended) }
    ensures clusters { IfOk result (λ ran. ran.clusters ≡ run.engine.clusters) }
    ensures kernel { IfOk result (λ ran. ran.kernel ≡ run.engine.kernel) }
    ensures counts { CountsTwoSinks Failed (O.faults out.old) (O.faults out.new)
        (N.faults notes.old) (N.faults notes.new) result }
{
    let whole = match closed(run, ended, until.stop, until.turns, out) {
        Ok(whole) => whole,
        Err(error) => return Err(error),
    };
    match write_notes(alloc, flat, until.turns, &whole, notes) {
        Ok(()) => Ok(whole.ran),
        Err(error) => {
            drop(whole);
            Err(error)
        }
    }
}

/// Goes on with a run to a stop, or as far as its turns reach. It writes on `out` the rows that are left and the tail, and on `notes` the
/// plans that were not handed on before, and how the run ended. What it writes is that of the history from each start from which the
/// run goes on, told the answers of its boundaries.
///
/// # Errors
/// A write failed, or out of memory. Both sinks then hold front parts of their texts. Where no write failed, no count of faults
/// changes.
pub fn go_on<O: Sink, N: Sink>(
    alloc: Global,
    flat: &Flat,
    mut run: Running,
    until: Until,
    out: &mut O,
    notes: &mut N,
) -> Result<Ran, SinkErr>
    requires runnable { IsRunnable flat.now }
    requires can { CanGoOn flat.now run }
    requires within { run.from ≤ until.stop }
    requires early { until.stop < time_end }
    requires open { run.shown.trace.stage ≡ Open }
    ensures answered { (model : PureTree) (start : World SideOf) (handed : List ℕ)
        → IsModelOf model flat.now → IsRunningAt model flat.now start handed run
        → OnOk result ((ahead : List (List Change))
        × AreToldTo model flat.now start until.stop ahead) }
    ensures goes { (model : PureTree) (start : World SideOf) (handed : List ℕ)
        → (ahead : List (List Change)) → IsModelOf model flat.now
        → IsRunningAt model flat.now start handed run
        → AreToldTo model flat.now start until.stop ahead
        → GoesOnAs model flat.now run.shown.trace.about start handed ahead
        run.shown.trace.rows.upto until.stop until.turns (O.taken out.old) (O.taken out.new)
        (N.taken notes.old) (N.taken notes.new) result }
    ensures counts { CountsTwoSinks Failed (O.faults out.old) (O.faults out.new)
        (N.faults notes.old) (N.faults notes.new) result }
{
    law_one_answer();
    match run.go(alloc, flat, until.stop, out, notes) {
        Ok(ended) => close_run(alloc, flat, run, ended, until, out, notes),
        Err(error) => {
            drop(run);
            Err(error)
        }
    }
}
