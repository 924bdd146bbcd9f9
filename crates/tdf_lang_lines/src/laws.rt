//! Laws of the line forms: each is the contract of a function that does nothing.

ghost use Rattle.tdf_lang_lines.specs.Laws.{LinesHaveKinds, OneForm};

/// In each version tokens are at most one line form.
pub fn law_one_form()
    ensures { OneForm }
{}

/// Tokens are a line of a kind exactly where they are a line form of that kind, whatever the line says.
pub fn law_kinds()
    ensures { LinesHaveKinds }
{}
