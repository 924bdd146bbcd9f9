//! Laws over the definitions alone.

ghost use Rattle.tdf_lang_exprs.specs.Laws.{PartsAreUnique, PartsHaveForms};

/// Tokens spell at most one literal, list of literals, index, shape, format, path and expression, in each version.
pub fn law_unique()
    ensures { PartsAreUnique }
{}

/// Tokens spell one exactly where they have its form, which no tree occurs in.
pub fn law_forms()
    ensures { PartsHaveForms }
{}
