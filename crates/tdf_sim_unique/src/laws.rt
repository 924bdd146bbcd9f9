//! What holds of the definitions: each function here only carries its clauses.

ghost use Rattle.tdf_sim_unique.specs.Laws.{AnswersWriteAlike, RunsWriteTheSame};

use tdf_dynamic::law_one_answer;

/// By two flat models of one model, and by first plans that say the same, a run writes the same, and its boundaries have the same
/// answers.
pub fn law_alike()
    ensures { RunsWriteTheSame }
{}

/// Two runs that are told the answers of their boundaries write the same.
pub fn law_answers()
    ensures { AnswersWriteAlike }
{
    law_one_answer();
}
