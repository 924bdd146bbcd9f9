//! What holds of clusters that go on from a snapshot: each function here only carries its clauses.

ghost use Rattle.tdf_sim_resumed.specs.MadeLaws.{ClustersStandThere, PlansAreTheirs, PlansAreThere, StandsWhereSaid, StateSaysStart};

use tdf_balance::law_counts;
use tdf_dynamic_first::law_numbers;
use tdf_dynamic_values::law_one_table;
use tdf_schedule::law_plans;

/// Clusters that go on from the states of a snapshot are those of the world that it says, under the attributes and plans
/// that it says; there are such, and no others.
pub fn law_restored()
    ensures start { StateSaysStart }
    ensures one { StandsWhereSaid }
    ensures clusters { ClustersStandThere }
    ensures plans { PlansAreThere }
    ensures theirs { PlansAreTheirs }
{
    law_counts();
    law_numbers();
    law_one_table();
    law_plans();
}
