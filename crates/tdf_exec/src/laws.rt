//! What holds of clusters in progress: each function here only carries its clauses.

ghost use Rattle.tdf_exec.specs.Laws.{ClustersHoldFew, HeadsHold, PlansAreSafe, RatesAreBegun, RatesAreKept, RoomIsForOwn, RoomIsThere};

use tdf_exec_layout::{law_edges, law_rates as law_edge_rates};
use tdf_schedule::law_present;

/// Along the plan of its table only actors of a cluster fire, each firing finds its samples, and no edge holds more than
/// its bound; and what the edges of a cluster hold before the first entry of its plan.
pub fn law_safe()
    ensures safe { PlansAreSafe }
    ensures heads { HeadsHold }
{
    law_present();
}

/// All edges of a cluster together hold no more samples than the buffers of a cluster may have; and no offset of the plan of a
/// cluster gives more samples than `Cluster::room` has numbers for.
pub fn law_few()
    ensures few { ClustersHoldFew }
    ensures room { RoomIsThere }
{
    law_edges();
    law_edge_rates();
}

/// The edges that the plan of a cluster gives room, and so those of its state, are its own.
pub fn law_own()
    ensures { RoomIsForOwn }
{
    law_present();
}

/// No initialize, processing or reinitialize body of a model without a fault of types sets a rate
/// variable.
pub fn law_rates()
    ensures begun { RatesAreBegun }
    ensures kept { RatesAreKept }
{}
