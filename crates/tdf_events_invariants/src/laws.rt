//! What holds of all flat models: each function here only carries its clauses.

ghost use Rattle.tdf_events_invariants.specs.Runnable.{EventRowsAreFew, EventRowsHaveOwners, InstancesHaveBlocks, SignalsStartInFormat, SoundIsRunnable};

use tdf_expr_names::law_names_once;

/// The event side of a flat model has no more rows of a kind than a model may have of it.
pub fn law_few_rows()
    ensures { EventRowsAreFew }
{}

/// Processes and events belong to instances that there are,
/// and processes are sensitive to events that there are.
pub fn law_owners()
    ensures { EventRowsHaveOwners }
{}

/// Each signal of a flat model starts with a value of its format.
pub fn law_starts()
    ensures { SignalsStartInFormat }
{}

/// An instance is of a compiled block with no more ports than a model may have, one sample for
/// each, in order, and has as many event rows as its block has events.
pub fn law_instances()
    ensures { InstancesHaveBlocks }
{
    law_names_once();
}

/// The event side of the flat model of a sound model can run, where blocks of processes declare
/// event ports alone, as the reader of models promises.
pub fn law_runnable()
    ensures { SoundIsRunnable }
{
    law_names_once();
}
