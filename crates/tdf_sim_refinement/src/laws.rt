//! What holds of the definitions: each function here only carries its clauses.

ghost use Rattle.tdf_sim_refinement.specs.Laws.{DueAreCounted, DueEntriesFire, FiredGoesAlong, FiringsKeepAt, NoneDueNoneFire, TooFewIsSpent, SamplersRead, SinksHaveTakenOne, SinksWrite, TooFewTurnsEnd};
ghost use Rattle.tdf_sim_refinement.specs.Pass.{PassEndsSpent, PassGoesAlong};
ghost use Rattle.tdf_sim_refinement.specs.Inside.{EntriesLieInside, PeriodsTakeTime};
ghost use Rattle.tdf_sim_refinement.specs.SampleLaws.{AnswersAreTold, BoundariesAddNone, CellsAreOfSamples, DoneIsKnown, HeldIsKnown, PassesTrace, StartsHaveSamples};
ghost use Rattle.tdf_sim_refinement.specs.LinkLaws.{PortsHaveEvents, SamplersReadSignals, SinksWriteSignals};

use tdf_bind_invariants::law_formats;
use tdf_exec::law_one_port;

/// The firings of a cluster at a time: its entries that are due, if the turns are enough for them.
pub fn law_firings()
    ensures due { DueEntriesFire }
    ensures few { TooFewTurnsEnd }
    ensures none { NoneDueNoneFire }
    ensures counted { DueAreCounted }
{}

/// What samplers have read after these firings, what a cluster in progress that does them is then,
/// and what it gives.
pub fn law_cluster()
    ensures read { SamplersRead }
    ensures at { FiringsKeepAt }
    ensures one { SinksHaveTakenOne }
    ensures written { SinksWrite }
{}

/// What a cluster in progress does within the turns that are left is what the history does.
pub fn law_along()
    ensures fired { FiredGoesAlong }
    ensures few { TooFewIsSpent }
{}

/// What all clusters do in a pass, in order of number, is what the history does.
pub fn law_pass()
    ensures along { PassGoesAlong }
    ensures spent { PassEndsSpent }
{}

/// A period takes some time, and all entries of its plan come before its end.
pub fn law_offsets()
    ensures inside { EntriesLieInside }
    ensures time { PeriodsTakeTime }
{}

/// The samples of a port's signal at the start, after a boundary and as cells; and that each activation that is done is
/// known, and what modules hold when a period is done.
pub fn law_samples()
    ensures start { StartsHaveSamples }
    ensures boundary { BoundariesAddNone }
    ensures cells { CellsAreOfSamples }
    ensures done { DoneIsKnown }
    ensures held { HeldIsKnown }
{}

/// What the modules of a cluster ask for at the end of a period leads to the answer of its
/// boundary.
pub fn law_answers()
    ensures { AnswersAreTold }
{}

/// What all clusters trace in a pass, in order of number, is what the history has then.
pub fn law_traced()
    ensures { PassesTrace }
{
    law_one_port();
}

/// The port of each sampler and sink has an event signal.
pub fn law_ports()
    ensures { PortsHaveEvents }
{
    law_formats();
}

/// What samplers are given by their links is what the history says that they read, in the formats
/// of their edges.
pub fn law_settled()
    ensures { SamplersReadSignals }
{}

/// What sinks sent becomes by their links what the history says that they write, in the formats of
/// their signals.
pub fn law_emitted()
    ensures { SinksWriteSignals }
{}
