//! What holds of runs that are saved and go on: each function here only carries its clauses.

ghost use Rattle.tdf_cli_whole.specs.Joined.{SavedAndResumedIsOneRun};
ghost use Rattle.tdf_cli_whole.specs.Members.{EventsAreTold, ValidSnapshotsFit};
ghost use Rattle.tdf_cli_whole.specs.Split.{AcceptedRunsSplit, SavedRunsAreValid};

use tdf_bind_invariants::law_limits;
use tdf_cli::law_one_outcome;
use tdf_dynamic::law_one_answer;
use tdf_dynamic_first::{law_numbers, law_plannable};
use tdf_events_invariants::{law_few_rows, law_runnable};
use tdf_exec_layout::law_edge_formats;
use tdf_sim::{law_first_fault, law_one_model, law_one_run, law_one_state, law_rests_alike};
use tdf_sim_split::{
    law_columns, law_in_formats, law_saved_goes_on, law_saved_is_valid, law_sound, law_unbroken,
};
use tdf_sim_unique::law_answered_parts;

/// A valid snapshot of a sound model has the members of the model, with numbers in the ranges that its text has; and each trace of
/// an event signal shows one that there is.
pub fn law_state_members()
    ensures fit { ValidSnapshotsFit }
    ensures told { EventsAreTold }
{
    law_limits();
    law_few_rows();
    law_edge_formats();
}

/// The snapshot of a run of an accepted model is valid, with some plans for its clusters.
pub fn law_saved_runs()
    ensures { SavedRunsAreValid }
{
    law_limits();
    law_runnable();
    law_state_members();
    law_sound();
    law_columns();
    law_in_formats();
    law_saved_goes_on();
    law_saved_is_valid();
}

/// A run of an accepted model is its part up to the time of a snapshot and the run that goes on from there, with each list of plans
/// that the snapshot is valid with, and whatever answers of their boundaries both are told.
pub fn law_split()
    ensures { AcceptedRunsSplit }
{
    law_limits();
    law_runnable();
    law_state_members();
    law_numbers();
    law_plannable();
    law_one_answer();
    law_answered_parts();
    law_unbroken();
}

/// A text is saved at a stop, trace and state, and goes on from that state to a stop which is not earlier: what is written for the trace and
/// what is written then is the output of one run, and so are the notes, and the status is that of the second part.
pub fn law_save_and_resume()
    ensures { SavedAndResumedIsOneRun }
{
    law_one_outcome();
    law_first_fault();
    law_one_model();
    law_one_run();
    law_one_state();
    law_rests_alike();
    law_limits();
    law_runnable();
    law_state_members();
    law_saved_runs();
    law_split();
}
