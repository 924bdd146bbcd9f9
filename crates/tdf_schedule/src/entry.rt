//! Plans and their entries.

use tdf_places::Sparse;

/// A firing in the plan, in the order of the fields.
#[derive(Clone, Copy, Debug, PartialEq, Eq, PartialOrd, Ord)]
pub struct Entry {
    /// The time after the start of the period, in counts of the model's resolution.
    pub offset: u64,
    /// 1 more than the greatest level that the firing needs, 1 where it needs none.
    pub level: u32,
    /// The number of the actor.
    pub actor: u32,
    /// The number of the firing among those of its actor in the period.
    pub index: u64,
}

/// The firings of a cluster in one period, in order, and the most samples that each edge holds along them.
#[derive(Drop)]
pub struct Plan {
    /// The firings, in order.
    pub entries: Vec<Entry>,
    /// The most samples that each edge holds, 0 for edges of other clusters.
    pub bounds: Sparse,
    /// The period, in counts of the model's resolution.
    pub period: u64,
}
