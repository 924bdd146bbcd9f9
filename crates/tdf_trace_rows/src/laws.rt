//! What holds of rows and of their text: each function here only carries its clause.

ghost use Rattle.tdf_trace_rows.specs.Positions.{HasTimes, OneSample, OneSpan, PositionHasTime, TimeIsPosition};
ghost use Rattle.tdf_trace_rows.specs.Laws.{AreRowTimes, HaveSameText, IsLastCell, NotedLast, SplitsText, StaysBelow, WithoutRow};

/// The rows below a time are those at 0 and at the times with a cell, each once and in order.
pub fn law_row_times()
    ensures { AreRowTimes }
{}

/// A column shows its last cell at or before the time, and what it began with where it has none.
pub fn law_last()
    ensures { IsLastCell }
{}

/// Cells that agree below a time have the same text of the rows below it.
pub fn law_same()
    ensures { HaveSameText }
{}

/// The text of rows is that of the ones before a time and then that of the others.
pub fn law_split()
    ensures { SplitsText }
{}

/// Times without a row have no text.
pub fn law_without()
    ensures { WithoutRow }
{}

/// Cells of which each state changes the one before only from a mark on keep what is below it.
pub fn law_steady()
    ensures { StaysBelow }
{}

/// Of the cells that were noted for a column and a time the last one counts.
pub fn law_noted()
    ensures { NotedLast }
{}

/// A sample more gives the cell of its position, and changes no other.
pub fn law_sample()
    ensures { OneSample }
{}

/// A period more changes nothing below its start.
pub fn law_span()
    ensures { OneSpan }
{}

/// The position at a position's time is this one, so no two have the same time; and a time with a
/// position is the time of that one.
pub fn law_position()
    ensures at { TimeIsPosition }
    ensures of { PositionHasTime }
{}

/// Each position of the periods has a time, and no other has.
pub fn law_times()
    ensures { HasTimes }
{}
