//! The plans that the boundaries of an instant bring, as text.

ghost use Rattle.std.specs.Prelude.{◌≡◌, ◌+◌, ◌++◌, length, option_map, slice_get, OnOk, Some};
ghost use Rattle.tdf_sim_instants.specs.CrossingLaws.{rows_in};
ghost use Rattle.tdf_sim_runs.specs.News.{news_text, rows_note};
ghost use Rattle.tdf_bind_tables.specs.Ranges.{AreInRange};
ghost use Rattle.tdf_cluster_plans.specs.Groups.{AreTableGroups};

use tdf_base::Memory;
use tdf_bind::Flat;
use tdf_cluster_plans::TableGroups;
use tdf_sim_instants::Cluster;
use tdf_sim_notes::push_plan_at;

/// Appends the plan of the cluster at a place, which begins at a time. A plan has a bound for each edge; no other is written.
///
/// # Errors
/// Out of memory.
fn push_one(
    news: &mut Vec<u8>,
    flat: &Flat,
    groups: &TableGroups,
    time: u64,
    place: usize,
    cluster: &Cluster,
) -> Result<(), Memory>
    requires range { AreInRange flat.now.tables }
    requires groups { AreTableGroups flat.now.tables groups.now }
    ensures { OnOk result (news.new.items
        ≡ news.old.items ++ rows_note flat.now time (place + 1) (Some (rows_in cluster.now))) }
{
    let plan = cluster.plan();
    if plan.bounds.len() != flat.tables.edges.len() {
        return Err(Memory);
    }
    push_plan_at(news, flat, groups, time, place, plan)
}

/// Appends the plan of the cluster at a place, which begins at a time, if there is one.
///
/// # Errors
/// Out of memory.
#[inline(never)]
fn push_at(
    news: &mut Vec<u8>,
    flat: &Flat,
    groups: &TableGroups,
    time: u64,
    clusters: &[Cluster],
    place: usize,
) -> Result<(), Memory>
    requires range { AreInRange flat.now.tables }
    requires groups { AreTableGroups flat.now.tables groups.now }
    ensures { OnOk result (news.new.items ≡ news.old.items ++ rows_note flat.now time (place + 1)
        (option_map rows_in (slice_get clusters.now place))) }
{
    match clusters.get(place) {
        Some(cluster) => push_one(news, flat, groups, time, place, cluster),
        None => Ok(()),
    }
}

/// Appends the plans of the clusters at these places, which begin at a time.
///
/// # Errors
/// Out of memory.
#[inline(always)]
pub(crate) fn push_news(
    news: &mut Vec<u8>,
    flat: &Flat,
    groups: &TableGroups,
    time: u64,
    clusters: &Vec<Cluster>,
    planned: &Vec<usize>,
) -> Result<(), Memory>
    requires range { AreInRange flat.now.tables }
    requires groups { AreTableGroups flat.now.tables groups.now }
    ensures { OnOk result (news.new.items
        ≡ news.old.items ++ news_text flat.now time clusters.now.items planned.now.items) }
{
    for k in 0..planned.len() {
        push_at(news, flat, groups, time, clusters, planned[k])?;
    }
    Ok(())
}
