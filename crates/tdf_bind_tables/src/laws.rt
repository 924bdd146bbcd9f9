//! What holds of all flat models: each function here only carries its clauses.

ghost use Rattle.tdf_bind_tables.specs.Ranges.{FlatIsInRange};
ghost use Rattle.tdf_bind_tables.specs.Reach.{PortsReachSignals};
ghost use Rattle.tdf_bind_tables.specs.Whole.{EdgesAreWhole};

use tdf_bind_hierarchy::{law_kinds, law_numbers};

/// The numbers of modules, ports and actors in the tables of a flat model are those of rows.
pub fn law_ranges()
    ensures { FlatIsInRange }
{}

/// Where the ports of modules are of the kinds of their blocks,
/// each has the number of a signal of its kind.
pub fn law_signals()
    ensures { PortsReachSignals }
{
    law_numbers();
    law_kinds();
}

/// Where the ports of modules are of the kinds of their blocks,
/// and those of processes are for event signals, each port of a module but an `out` port gives one edge.
pub fn law_edges()
    ensures { EdgesAreWhole }
{
    law_numbers();
    law_kinds();
}
