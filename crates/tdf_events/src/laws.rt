//! What holds of instants that follow one another, and of states: each function here only carries its clauses.

ghost use Rattle.tdf_events.specs.Laws.{EndsIdle, NextIsLater, NoneAtStart, NoneBeforeNext, NonePendingNoneBefore, NoneStaysBefore, NoneWithoutNext, NothingStaysWaiting, OnlyLaterStay, StatesAreKept, TurnsNeverGrow};

/// After the event part of an instant no process is triggered, nothing waits where nothing did
/// before, the turns that are left are no more, and only later notifications are pending.
pub fn law_instant()
    ensures idle { EndsIdle }
    ensures turns { TurnsNeverGrow }
    ensures waiting { NothingStaysWaiting }
    ensures before { NoneStaysBefore }
    ensures later { OnlyLaterStay }
{}

/// The next time after an instant is a later one; nothing is pending before it, nor at all where
/// there is none, nor before the first instant.
pub fn law_next()
    ensures later { NextIsLater }
    ensures next { NoneBeforeNext }
    ensures without { NoneWithoutNext }
    ensures start { NoneAtStart }
    ensures pending { NonePendingNoneBefore }
{}

/// What goes on from a state of its model has this state.
pub fn law_state()
    ensures { StatesAreKept }
{}
