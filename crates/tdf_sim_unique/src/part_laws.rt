//! What holds of the definitions: each function here only carries its clauses.

ghost use Rattle.tdf_sim_unique.specs.PartLaws.{AnswersComeToTheSame, AnswersHaveSnapshots, FlatsGoAsOne, FlatsHaveMembers, FlatsHaveSnapshots, FlatsHaveValid, FlatsSayWorlds, PartsWriteOne, PlansSayOneWorld, RestsAreTold, RestsWriteOne};

use tdf_balance::law_counts;
use tdf_dynamic::law_one_answer;
use tdf_dynamic_first::law_numbers;
use tdf_dynamic_values::law_one_table;
use tdf_schedule::law_plans;
use tdf_sim_resumed::{law_one_snapshot, law_resumed};

/// By two flat models of one model, with the same tables and unit of time, a history goes on from each start in one way, and has the
/// same snapshots; a snapshot is valid for both, says one world, and its text names the same members.
pub fn law_alike_parts()
    ensures goes { FlatsGoAsOne }
    ensures snapshots { FlatsHaveSnapshots }
    ensures valid { FlatsHaveValid }
    ensures worlds { FlatsSayWorlds }
    ensures members { FlatsHaveMembers }
    ensures plans { PlansSayOneWorld }
{
    law_counts();
    law_numbers();
    law_one_table();
    law_plans();
}

/// Two histories from one start that are told the answers of their boundaries end alike, show the same, bring the same plans, and have
/// the same snapshots.
pub fn law_answered_parts()
    ensures same { AnswersComeToTheSame }
    ensures snapshots { AnswersHaveSnapshots }
{
    law_one_answer();
}

/// Two runs of a model that are told the answers of their boundaries come to a stop alike: the rows before, the plans, and the snapshot
/// are the same.
pub fn law_one_part()
    ensures { PartsWriteOne }
{
    law_alike_parts();
    law_answered_parts();
    law_one_snapshot();
}

/// Two runs of a model that go on from one snapshot, and are told the answers of their boundaries, write the same and end alike.
pub fn law_one_rest()
    ensures same { RestsWriteOne }
    ensures told { RestsAreTold }
{
    law_alike_parts();
    law_answered_parts();
    law_resumed();
}
