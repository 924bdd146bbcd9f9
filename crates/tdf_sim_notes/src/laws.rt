//! What holds of the definitions: each function here only carries its clauses.

ghost use Rattle.tdf_sim_notes.specs.Laws.{NotesAreWritten, PlansAreFirst};

/// The notes of a run are the first plans, the new plans of its instants, and the closing line.
pub fn law_report()
    ensures firsts { PlansAreFirst }
    ensures notes { NotesAreWritten }
{}
