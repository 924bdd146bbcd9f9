//! The law on driven signals: the function here only carries its clause.

ghost use Rattle.tdf_stim_laws.specs.Settled.{DrivesAcceptedSignals, DrivesSignals};

use tdf_expr_laws::law_checked;

/// In a run of the driven tree, at each time up to which the run goes on, each driven signal has the value of the literal of its column
/// of the last row at or before that time, cast to its format; in the model that `drive` runs, too.
pub fn law_driven()
    ensures signals { DrivesSignals }
    ensures accepted { DrivesAcceptedSignals }
{
    law_checked();
}
