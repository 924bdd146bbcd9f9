//! What holds of all tables and of all models: each function here only carries its clauses.

ghost use Rattle.tdf_bind_hierarchy.specs.PortKinds.{PortsKeepKinds};
ghost use Rattle.tdf_bind_hierarchy.specs.Laws.{PortsAreInRange, OrderIsInRange, OrderIsPreorder, DepthIsEnough};

/// In the tables of what was met, each number is in range, and the order has the number of each signal, in preorder.
#[tactic(auto, using(crate::proofs::Ranges::range_laws))]
pub fn law_numbers()
    ensures ports { PortsAreInRange }
    ensures in_range { OrderIsInRange }
    ensures order { OrderIsPreorder }
{}

/// Where each instance is of a block before the one that it is in,
/// no model is deeper than its number of blocks.
#[tactic(auto, using(crate::proofs::Ranges::depth_is_enough))]
pub fn law_depth()
    ensures { DepthIsEnough }
{}

/// Where each port is bound to a signal or port of its own kind,
/// each port reaches a signal of its own kind.
#[tactic(auto, using(crate::proofs::KindsKept::ports_keep_kinds))]
pub fn law_kinds()
    ensures { PortsKeepKinds }
{}
