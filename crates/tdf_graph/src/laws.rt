//! What holds of the definitions.

ghost use Rattle.tdf_graph.specs.Laws.{ClustersAreUnique};

/// A net has one list of cluster numbers.
pub fn law_clusters()
    ensures { ClustersAreUnique }
{}
