//! What holds of histories that go on: each function here only carries its clauses.

ghost use Rattle.tdf_sim_split.specs.Columns.{ResumedBeginWithColumns, SavedColumnsAreValid, TextsBeginWithColumns};
ghost use Rattle.tdf_sim_split.specs.Formats.{FormatsAreKept, ResumedBeginInFormats, TextsBeginInFormats};
ghost use Rattle.tdf_sim_split.specs.Laws.{HistoryGoesOnFrom, TextsBeginSound};
ghost use Rattle.tdf_sim_split.specs.Parts.{RunsSplit};
ghost use Rattle.tdf_sim_split.specs.Snapshots.{SnapshotsAreSoundStarts, SnapshotsAreValid, SnapshotsGoOn, TextsAreSoundStarts};
ghost use Rattle.tdf_sim_split.specs.Unbroken.{RunsAreUnbroken};
ghost use Rattle.tdf_sim_split.specs.Validity.{SnapshotIsValid};

use tdf_balance::law_counts;
use tdf_bind_invariants::law_formats;
use tdf_dynamic::law_one_answer;
use tdf_dynamic_values::law_one_table;
use tdf_exec_layout::{law_edge_formats, law_edges};
use tdf_expr_laws::{law_cells, law_processes, law_samples};
use tdf_schedule::law_plans;
use tdf_sim_history::law_samples_there;
use tdf_sim_resumed::law_resumed;
use tdf_streams_onward::{law_enough, law_onward};

/// A history from a world that goes on from what another history came to is told answers where that one is, ends as it does, and
/// brings the plans that it brings from there on.
pub fn law_goes_on()
    ensures { HistoryGoesOnFrom }
{
    law_edges();
    law_onward();
    law_enough();
}

/// A run from its text begins with sound clusters, and it can be saved.
pub fn law_sound()
    ensures clusters { TextsBeginSound }
    ensures start { TextsAreSoundStarts }
{
    law_cells();
}

/// The snapshot of a run has states that its clusters and its event side can go on from, and the world that it says, under plans for
/// the clusters, goes on from the world of the run, and can be saved again.
pub fn law_saved_goes_on()
    ensures valid { SnapshotsAreValid }
    ensures on { SnapshotsGoOn }
    ensures again { SnapshotsAreSoundStarts }
{
    law_counts();
    law_one_table();
    law_edge_formats();
    law_plans();
    law_processes();
    law_cells();
}

/// The columns of a snapshot of a run from a start with sound columns are valid, where its clusters are at the same places under
/// the plans that it says; a text begins with such columns, and so does a valid snapshot.
pub fn law_columns()
    ensures valid { SavedColumnsAreValid }
    ensures text { TextsBeginWithColumns }
    ensures resumed { ResumedBeginWithColumns }
{
    law_enough();
    law_resumed();
}

/// What a run shows is of the formats of its signals, where what it begins with is and event signals have values of theirs; a text begins
/// so, and so does a valid snapshot.
pub fn law_in_formats()
    ensures kept { FormatsAreKept }
    ensures text { TextsBeginInFormats }
    ensures resumed { ResumedBeginInFormats }
{
    law_formats();
    law_samples();
}

/// A run that is saved and one that goes on from the snapshot are together one unbroken run: they end alike, and what both write is what
/// it writes.
pub fn law_parts()
    ensures { RunsSplit }
{
    law_formats();
    law_one_answer();
    law_edges();
    law_onward();
    law_enough();
    law_samples_there();
}

/// The snapshot of a run is valid, under plans for its clusters.
pub fn law_saved_is_valid()
    ensures { SnapshotIsValid }
{
    law_columns();
    law_saved_goes_on();
    law_in_formats();
}

/// A run and one that goes on from a snapshot of it are one unbroken run, with whatever plans the clusters of the snapshot can go on
/// under.
pub fn law_unbroken()
    ensures { RunsAreUnbroken }
{
    law_parts();
    law_sound();
    law_saved_goes_on();
    law_columns();
    law_in_formats();
}
