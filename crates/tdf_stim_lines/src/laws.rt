//! What holds of the numbers, whatever the tree: the functions here only carry their clauses.

ghost use Rattle.tdf_stim_lines.specs.Laws.{NumbersAlone, NumbersInPlace};

/// The numbers are all that changes, and what the tree of each text keeps stays.
pub fn law_numbered()
    ensures { NumbersAlone }
{}

/// Each number of a numbered tree is that of the line of its canonical text that says the part.
pub fn law_places()
    ensures { NumbersInPlace }
{}
