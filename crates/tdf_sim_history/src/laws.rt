//! What holds of the definitions: each function here only carries its clauses.

ghost use Rattle.tdf_sim_history.specs.Answers.{AreAnswers};
ghost use Rattle.tdf_sim_history.specs.Laws.{AnswersTellOne, IdleStaysOn, MoreIsTold, UnchangedStay};
ghost use Rattle.tdf_sim_history.specs.Texts.{run_notes, run_trace};
ghost use Rattle.tdf_sim_history.specs.TurnLaws.{EndLies, FaultEnds, InstantHappens, SpentEnds, TurnsReachStop, TurnsGo};
ghost use Rattle.tdf_sim_history.specs.TableLaws.{AnswersAgree, AnswersWriteOne, BoundariesHaveTables, MoreWritesTheSame};
ghost use Rattle.tdf_sim_history.specs.WorldLaws.{CellsStay, MarksAreSettled, SamplesAreThere};

use tdf_dynamic::law_one_answer;

/// A model in which nothing is ever due stays as it starts.
pub fn law_idle()
    ensures { IdleStaysOn }
{}

/// Where no module of a cluster changes its attributes, nothing differs at its boundary.
pub fn law_unchanged()
    ensures { UnchangedStay }
{}

/// Where something is told of each boundary up to a stop, more changes nothing up to that stop.
pub fn law_longer()
    ensures { MoreIsTold }
{}

/// Two starts of whose boundaries the answers are told have one history.
pub fn law_one_history()
    ensures { AnswersTellOne }
{
    law_one_answer();
}

/// From one instant to the next, and how a history ends: at the stop, by a fault, or by a turn past the budget.
pub fn law_history()
    ensures happens { InstantHappens }
    ensures reached { TurnsReachStop }
    ensures fault { FaultEnds }
    ensures spent { SpentEnds }
    ensures end { EndLies }
{}

/// Turns one after the other.
pub fn law_turns()
    ensures { TurnsGo }
{}

/// Where something is told of each boundary up to a stop, a run writes the same when more is told.
pub fn law_told()
    ensures { MoreWritesTheSame }
{}

/// Two starts of whose boundaries the answers are told write the same.
pub fn law_one_text()
    ensures { AnswersWriteOne }
{
    law_one_answer();
}

/// Where the answers of its boundaries are told, each leads to attributes of its cluster.
pub fn law_tables()
    ensures { BoundariesHaveTables }
{}

/// Two starts of whose boundaries the answers are told have one history, by the model alone.
pub fn law_agree()
    ensures { AnswersAgree }
{
    law_one_answer();
}

/// Later instants change no cell below a mark, where each position below it has its sample.
pub fn law_cells_stay()
    ensures { CellsStay }
{}

/// Where no cluster began its period before a mark, each position below it has its sample.
pub fn law_settled()
    ensures { MarksAreSettled }
{}

/// Below the start of the period of a cluster that has done its firings each position of a signal
/// has its sample: an initial one, or an output of an activation that is done.
pub fn law_samples_there()
    ensures { SamplesAreThere }
{}
