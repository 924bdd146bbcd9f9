//! What holds of the definitions.

ghost use Rattle.tdf_expr_names.specs.Law.{FaultsStand, KeepsNamesOnce};

/// A model without a fault of names declares no name of a name space twice.
pub fn law_names_once()
    ensures { KeepsNamesOnce }
{}

/// Each fault of names is DUPLICATE or UNKNOWN, and stands on a line of the model.
pub fn law_fault_lines()
    ensures { FaultsStand }
{}
