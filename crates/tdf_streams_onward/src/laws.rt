//! What holds of the streams that go on: each function here only carries its clauses.

ghost use Rattle.tdf_streams_onward.specs.Laws.{BodiesGoByTable, FiringsAreEnough, ResumedAreWhole, StreamsGoOn, WholeAreResumed};

/// From what a cluster in progress holds streams can go on. All that is known of these is known of the whole ones, and the
/// other way round, with the numbers counted from the start.
pub fn law_onward()
    ensures table { BodiesGoByTable }
    ensures whole { ResumedAreWhole }
    ensures resumed { WholeAreResumed }
    ensures on { StreamsGoOn }
{}

/// What is known in some number of steps is known in as many as there are firings.
pub fn law_enough()
    ensures { FiringsAreEnough }
{}
