//! What holds of all flat models: each function here only carries its clauses.

ghost use Rattle.tdf_bind.specs.Laws.{BlockPathsAreUnique, BlocksAreOne, DelaysAreShort, EventsAreApart, FaultIsOne, FaultOrFlat, FlatPathsAreUnique, PathsAreUnique, PathsArePlain, TablesAreOne};

/// A model without a fault of types has one list of resolved blocks.
pub fn law_blocks()
    ensures { BlocksAreOne }
{}

/// No two signals of a model have the same path, nor have two rows of its flat model, so a path
/// leads to one signal at most.
pub fn law_paths()
    ensures paths { PathsAreUnique }
    ensures flat_paths { FlatPathsAreUnique }
{}

/// No two instances of blocks of processes of a flat model have the same path, nor have two events
/// of one instance the same name. Paths hold nothing but names and points.
pub fn law_parts()
    ensures blocks { BlockPathsAreUnique }
    ensures events { EventsAreApart }
    ensures plain { PathsArePlain }
{}

/// A model has one answer: one fault of binding, or tables, which are one.
pub fn law_one_fault()
    ensures one_fault { FaultIsOne }
    ensures fault_or_flat { FaultOrFlat }
    ensures one_flat { TablesAreOne }
{}

/// The delays of all ports of a model without a fault of types are within their limit.
pub fn law_delays()
    ensures { DelaysAreShort }
{}
