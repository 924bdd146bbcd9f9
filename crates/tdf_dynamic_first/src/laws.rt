//! What holds of the faults and plans of clusters: each function here only carries its clauses.

ghost use Rattle.tdf_dynamic_first.specs.Laws.{ClustersAreWhole, ClustersHaveOne, FlatIsPlannable};

use tdf_balance::law_counts;
use tdf_bind_tables::law_ranges;
use tdf_schedule::law_plans;

/// Of the faults and plans of a cluster there is at most one.
pub fn law_one_plan()
    ensures { ClustersHaveOne }
{
    law_counts();
    law_plans();
}

/// The clusters of the flat model of a tree can be planned, where the delays of ports are within their limit.
pub fn law_plannable()
    ensures { FlatIsPlannable }
{
    law_ranges();
}

/// Each number from 1 to the count of the clusters is that of a cluster.
pub fn law_numbers()
    ensures { ClustersAreWhole }
{}
