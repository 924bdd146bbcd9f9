//! What holds of the loop of instants: each function here only carries its clauses.

ghost use Rattle.tdf_sim_runs.specs.Advancing.{InstantAdvances};
ghost use Rattle.tdf_sim_runs.specs.Laws.{NextIsNext};
ghost use Rattle.tdf_sim_runs.specs.Ongoing.{InstantLeadsOn, InstantSpends, InstantStops, StopIsReached};
ghost use Rattle.tdf_sim_runs.specs.Running.{RunsToNext};
ghost use Rattle.tdf_sim_runs.specs.Staying.{CellsStayBelow};

use tdf_exec_layout::law_one_port;
use tdf_sim_instants::{law_instant, law_one_answer};

/// The time at which something is next due in all that runs is the next time of the history.
pub fn law_next()
    ensures { NextIsNext }
{}

/// From one instant of a run to the next, and how it ends: as the history does.
pub fn law_going()
    ensures leads { InstantLeadsOn }
    ensures spends { InstantSpends }
    ensures stops { InstantStops }
    ensures reached { StopIsReached }
{
    law_instant();
}

/// Later instants change no cell of a run below a mark that no period began before.
pub fn law_staying()
    ensures { CellsStayBelow }
{
    law_one_answer();
}

/// An instant begins the periods that the history begins, and what its firings trace are the next
/// samples of their signals.
pub fn law_advancing()
    ensures { InstantAdvances }
{
    law_one_port();
}

/// Where nothing is due before the next time, a run goes on up to it, and its trace shows no more.
pub fn law_waiting()
    ensures { RunsToNext }
{}
