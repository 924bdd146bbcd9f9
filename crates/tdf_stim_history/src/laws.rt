//! What holds of a driver in a run: each function here only carries its clause.

ghost use Rattle.tdf_stim_history.specs.Laws.{DrivesOn, HistoryDrives, InstantsDoTheSide};
ghost use Rattle.tdf_stim_history.specs.Literals.{LastRowGives};

/// In an event part a driver goes one row further where one of its events is due or it runs for the first time, and else stays as
/// it is; of its pending times those are gone that were due.
pub fn law_driver_parts()
    ensures { DrivesOn }
{}

/// An instant that goes on leaves the event side as it is, where nothing of it is due, or does its event part, with what sinks wrote
/// for other signals.
pub fn law_driver_instants()
    ensures { InstantsDoTheSide }
{}

/// At each time up to which the history goes on, each signal of a driver has its cell of the last row at or before that time.
pub fn law_driver_history()
    ensures { HistoryDrives }
{}

/// The literal at a time is that of the last row at or before it.
pub fn law_literals()
    ensures { LastRowGives }
{}
