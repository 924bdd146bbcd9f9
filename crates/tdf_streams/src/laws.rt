//! What holds of the streams of a cluster: each function here only carries its clauses.

ghost use Rattle.tdf_streams.specs.Carried.{EdgesBeginAsRead, EdgesCarrySignals, OutputsAreSamples};
ghost use Rattle.tdf_streams.specs.Laws.{AllAreKnown, AnyOrder, EndsWhole, FedAreKnown, FiringIsKnown, FirstPlanIsRecord, MoreKeeps, OrderPlays, OrderStands, PlayedAreGrounded, StepsAreWhole, TablePlanIsRecord, TextHasLists, TextHoldsDelays, TimesLieInside, TimesRise, UngroundedStops};
ghost use Rattle.tdf_streams.specs.StandingLaws.{ChangeCrosses, FiringKeeps, HeadsWhole, InstallStands, ReadsKeep, StartStands};
ghost use Rattle.tdf_streams.specs.Worked.{IsWorked};

/// From a start on, through periods with counts and a time of their own and with rates within their
/// limits, in which each firing is grounded, each activation has a value where the samplers that it
/// follows were given theirs. Further periods, values and steps change none of them.
pub fn law_known()
    ensures fed { FedAreKnown }
    ensures all { AllAreKnown }
    ensures more { MoreKeeps }
{}

/// An order of firings in which no step lacks a sample can be played and leads to the states and
/// samples of the streams, whatever order it is; and where some firing isn't grounded there is no
/// complete one: a step of each complete order lacks a sample.
pub fn law_any_order()
    ensures stands { OrderStands }
    ensures known { FiringIsKnown }
    ensures any { AnyOrder }
    ensures whole { EndsWhole }
    ensures grounded { PlayedAreGrounded }
    ensures plays { OrderPlays }
    ensures stops { UngroundedStops }
{}

/// A cluster at its start stands; further values of samplers, each firing whose samples are present, the change bodies
/// at the end of a period and the installing of the next lead from what stands to what stands. At the head of each
/// whole period every edge holds as many samples as the delays of its ports say.
pub fn law_standing()
    ensures starts { StartStands }
    ensures reads { ReadsKeep }
    ensures fires { FiringKeeps }
    ensures crosses { ChangeCrosses }
    ensures installs { InstallStands }
    ensures heads { HeadsWhole }
{}

/// At the start as the text says it each edge holds as many samples as the delays of its ports say.
pub fn law_start()
    ensures delays { TextHoldsDelays }
    ensures lists { TextHasLists }
{}

/// The outputs of a port are the samples of its signal after the initial ones of the port, and an
/// edge to a port that reads the signal has them after the initial ones of that port.
pub fn law_signal()
    ensures outputs { OutputsAreSamples }
    ensures begins { EdgesBeginAsRead }
    ensures carries { EdgesCarrySignals }
{}

/// The positions of a signal cut each period in equal steps, so their times rise.
pub fn law_time()
    ensures steps { StepsAreWhole }
    ensures inside { TimesLieInside }
    ensures rise { TimesRise }
{}

/// The plan of a cluster under a table of attributes is that of a record, and so is the text's.
pub fn law_plan_record()
    ensures table { TablePlanIsRecord }
    ensures first { FirstPlanIsRecord }
{}

/// The samples and states of a small cluster, as they come out by hand.
pub fn law_worked()
    ensures { IsWorked }
{}
