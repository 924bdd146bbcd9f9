//! What holds of the definitions: each function here only carries its clause.

ghost use Rattle.tdf_expr_semantics.specs.Laws.{AreMaps, KeepsFits, LiesInside, LiesWithinWidth};

/// An expression without a fault lies within its width, in every state whose values lie in the
/// ranges of their formats and whose rates lie within their limits.
pub fn law_widths()
    ensures { LiesWithinWidth }
{}

/// An index without a fault lies inside its array or port, in every such state.
pub fn law_indices()
    ensures { LiesInside }
{}

/// Statements without a fault leave such a state.
pub fn law_states()
    ensures { KeepsFits }
{}

/// The values of a block's names are a map from names and elements to values: an assignment
/// changes the value of its element, cast to the element's format, and no other.
pub fn law_maps()
    ensures { AreMaps }
{}
