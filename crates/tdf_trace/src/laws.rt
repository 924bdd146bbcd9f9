//! What holds of the texts of traces: each function here only carries its clause.

ghost use Rattle.tdf_trace.specs.Starts.{ResumedHolds, StampsAreLast, WaitsForRest};
ghost use Rattle.tdf_trace.specs.Writings.{MakesWhole};
ghost use Rattle.tdf_trace.specs.Tracks.{LeavesRest};

/// The head, the rows up to a time, and the rest up to an end time with the tail are the whole text of a trace, where no row from
/// the end on was written.
pub fn law_whole()
    ensures { MakesWhole }
{}

/// The positions that are left are those without a sample, and the samples that wait those without a position.
pub fn law_left()
    ensures left { LeavesRest }
    ensures waiting { WaitsForRest }
{}

/// A tracking stands with rows that go on from states, where the states of the columns of samples have the samples of the positions
/// that have one. What the stamps of such a tracking are, where some positions of its last span have their samples.
pub fn law_resumed()
    ensures holds { ResumedHolds }
    ensures stamps { StampsAreLast }
{}
