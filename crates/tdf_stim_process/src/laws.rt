//! What holds of the driver of a table in a flat model: each function here only carries its clauses.

ghost use Rattle.tdf_stim_process.specs.Laws.{PlacedHasTimes, PlacedIsDriver, PortsShowColumns, TextGivesInstance, TableTimesRise};

use tdf_expr_laws::law_checked;

/// The process of the driver's block, as it stands in a flat model, is a driver of its signals by the rows of the table.
pub fn law_placed()
    ensures driver { PlacedIsDriver }
    ensures times { PlacedHasTimes }
{}

/// At each time up to which a run goes on, the signal of each of its ports has the value of the literal of its column at that time.
pub fn law_ports()
    ensures { PortsShowColumns }
{}

/// The times of the rows of a table that can drive a model rise from 0 on, as counts of the model's resolution.
pub fn law_times_rise()
    ensures { TableTimesRise }
{}

/// An instance of a block that is a driver's as the text has it, with no name declared twice, is one of the driver.
pub fn law_text()
    ensures { TextGivesInstance }
{
    law_checked();
}
