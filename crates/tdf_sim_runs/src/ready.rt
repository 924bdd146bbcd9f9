//! The clusters of a snapshot inside their periods, and whether a run can go on from its columns.

use tdf_sim_instants::Cluster;

/// What stands by a snapshot.
#[derive(Drop)]
pub struct Standing {
    /// When the period of each cluster began.
    pub since: Vec<u64>,
    /// The clusters, in order of number.
    pub clusters: Vec<Cluster>,
    /// The time from which rows are still to be written.
    pub rows: u64,
}

ghost use Rattle.std.specs.Prelude.{◌≡◌, Err, IfOk, IsOk, List, map};
ghost use Rattle.tdf_dynamic_first.specs.declared.first.First.{First};
ghost use Rattle.tdf_lang_tree.specs.Pure.{PureTree};
ghost use Rattle.tdf_saved.specs.State.{ClusterStateOf};
ghost use Rattle.tdf_saved.specs.declared.err.StateErr.TheVariants as why;
ghost use Rattle.tdf_sim_instants.specs.InstantLaws.{IsModelOf};
ghost use Rattle.tdf_sim_runs.specs.Reopened.{CanReopen};
ghost use Rattle.tdf_sim_runs.specs.machine.Standing.{IsStanding, clock_in};
ghost use Rattle.tdf_sim_shown.specs.Below.{AllGoOnFromStates, HasMembersOf, HasTimesOf, IsValid};
ghost use Rattle.tdf_sim_shown.specs.Columns.{AreGoodColumns, WhereTheyStand, rows_among};

use crate::starts::starts_of;
use std::alloc::Global;
use tdf_bind::Flat;
use tdf_saved::{Snapshot, StateErr};
use tdf_sim_shown::{Clock, law_can, law_restored, restored_clusters, valid_rows};

/// The time from which rows are still to be written by a snapshot, with its clusters.
fn rows_in(
    alloc: Global,
    flat: &Flat,
    snapshot: &Snapshot,
    since: &[u64],
    clusters: &[Cluster],
) -> Result<u64, StateErr>
    requires can { CanReopen flat.now }
    requires times { HasTimesOf snapshot.now }
    requires members { HasMembersOf flat.now snapshot.now }
    requires since { since.now ≡ map (λ (s : ClusterStateOf). s.start) snapshot.now.clusters }
    requires clusters { AllGoOnFromStates flat.now snapshot.now.clusters snapshot.now.time
        clusters.now }
    ensures rows { IfOk result (λ rows. WhereTheyStand flat.now
        (clock_in snapshot.now since.now clusters.now) (λ hs.
        rows ≡ rows_among flat.now hs snapshot.now.time)) }
    ensures good { IsOk result → WhereTheyStand flat.now
        (clock_in snapshot.now since.now clusters.now) (λ hs.
        AreGoodColumns flat.now hs snapshot.now) }
    ensures bad { result ≡ Err why.Bad → WhereTheyStand flat.now
        (clock_in snapshot.now since.now clusters.now) (λ hs.
        AreGoodColumns flat.now hs snapshot.now → ⊥) }
{
    law_restored();
    law_can();
    let clock = Clock {
        time: snapshot.time,
        since,
        clusters,
    };
    valid_rows(alloc, flat, snapshot, &clock)
}

/// What stands by a snapshot.
///
/// # Errors
/// Bad only where the snapshot isn't valid, and exactly where a cluster can't go on from its state, or columns from theirs; out of
/// memory.
pub(crate) fn stand(alloc: Global, flat: &Flat, snapshot: &Snapshot) -> Result<Standing, StateErr>
    requires can { CanReopen flat.now }
    requires times { HasTimesOf snapshot.now }
    requires members { HasMembersOf flat.now snapshot.now }
    ensures stands { IfOk result (IsStanding flat.now snapshot.now) }
    ensures bad { result ≡ Err why.Bad → (model : PureTree) (firsts : List First)
        → IsModelOf model flat.now → IsValid model flat.now firsts snapshot.now → ⊥ }
{
    law_restored();
    let clusters = match restored_clusters(alloc, flat, &snapshot.clusters, snapshot.time) {
        Ok(clusters) => clusters,
        Err(error) => return Err(error),
    };
    let since = starts_of(alloc, &snapshot.clusters)?;
    match rows_in(alloc, flat, snapshot, &since, &clusters) {
        Ok(rows) => Ok(Standing {
            since,
            clusters,
            rows,
        }),
        Err(error) => Err(error),
    }
}
