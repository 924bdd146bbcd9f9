//! What holds of all flat models: each function here only carries its clauses.

ghost use Rattle.tdf_bind_invariants.specs.Limits.{FlatIsWithinLimits, SpansAreOne, StartsAreAllowed, StartsAreOne};
ghost use Rattle.tdf_bind_invariants.specs.Formats.{PortsHaveFormats};

use tdf_bind_tables::law_ranges;
use tdf_expr_names::law_names_once;

/// The numbers in the flat model of a text without a fault lie within their limits.
pub fn law_limits()
    ensures { FlatIsWithinLimits }
{
    law_ranges();
}

/// Two checks of one model give its blocks the same rate variables,
/// and the same values to start with, which lie within the limits of the variables.
pub fn law_starts()
    ensures spans { SpansAreOne }
    ensures starts { StartsAreOne }
    ensures allowed { StartsAreAllowed }
{}

/// Each port of a module is the one at its place in the module's block, and has the format of the signal that it reaches.
pub fn law_formats()
    ensures { PortsHaveFormats }
{
    law_names_once();
}
