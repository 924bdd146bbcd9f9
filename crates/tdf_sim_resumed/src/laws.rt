//! What holds of worlds and snapshots: each function here only carries its clauses.

ghost use Rattle.tdf_sim_resumed.specs.Laws.{ClustersAreSaved, NoneIsDueBefore, ResumedAreGood, SnapshotIsOne, StandsStill};

use tdf_sim_refinement::law_own;

/// In the world that a valid snapshot says nothing is due before its time, so its history stands still up to it; and a run can
/// start there: the clusters have attributes and whole plans, and their periods began when those before were over.
pub fn law_resumed()
    ensures due { NoneIsDueBefore }
    ensures still { StandsStill }
    ensures start { ResumedAreGood }
{}

/// A run has one snapshot at a time.
pub fn law_one_snapshot()
    ensures { SnapshotIsOne }
{}

/// What clusters in progress tell of themselves are the states of those of the history, where they are these.
pub fn law_saved()
    ensures { ClustersAreSaved }
{
    law_own();
}
