//! The texts of plans.

ghost use Rattle.std.specs.List.{flat_map, range_with_len};
ghost use Rattle.std.specs.Prelude.{◌≡◌, ◌<◌, ◌++◌, ◌/◌, [], All, OnErr, OnOk, length, slice_index_or, take};
ghost use Rattle.tdf_bind_tables.specs.Ranges.{AreInRange};
ghost use Rattle.tdf_cluster_plans.specs.Counted.{AreCounted, firings_of};
ghost use Rattle.tdf_cluster_plans.specs.Groups.{AreTableGroups};
ghost use Rattle.tdf_dynamic_texts.specs.Plans.{accepted_line, actor_line, actor_text, cluster_line, edge_line, edge_text, fire_line, fires_text, plan_text, rows_of_plan};
ghost use Rattle.tdf_dynamic_texts.specs.views.Numbered.{AreActorNumbers, AreEdgeNumbers};

use tdf_base::{Memory, Resolution, push_number, push_word, row_number};
use tdf_bind_hierarchy::SharedPath;
use tdf_bind_tables::FlatTables;
use tdf_cluster_plans::{TableGroups, firings};
use tdf_fixed::push_seconds_at;
use tdf_schedule::{Entry, Plan};

/// Appends `cluster C at TIME period TIME firings N`.
#[tactic(auto, unfolding(crate::specs::Plans::cluster_line), using(crate::proofs::Texts::text_laws))]
fn push_cluster_line(
    out: &mut Vec<u8>,
    cluster: u32,
    time: u64,
    plan: &Plan,
    unit: Resolution,
) -> Result<(), Memory>
    ensures ok { OnOk result (out.new.items ≡ out.old.items
        ++ cluster_line unit cluster time plan.now.period (length plan.now.entries.items)) }
    ensures kept { take (length out.old.items) out.new.items ≡ out.old.items }
{
    push_word(out, b"cluster ")?;
    push_number(out, u64::from(cluster))?;
    push_word(out, b" at ")?;
    push_seconds_at(out, time, unit)?;
    push_word(out, b" period ")?;
    push_seconds_at(out, plan.period, unit)?;
    push_word(out, b" firings ")?;
    push_number(out, plan.entries.len() as u64)?;
    push_word(out, b"\n")
}

/// Appends `actor PATH count Q step TIME`.
#[tactic(auto, unfolding(crate::specs::Plans::actor_line), using(crate::proofs::Texts::text_laws))]
fn push_actor_line(
    out: &mut Vec<u8>,
    path: &SharedPath,
    count: u64,
    step: u64,
    unit: Resolution,
) -> Result<(), Memory>
    ensures ok { OnOk result (out.new.items ≡ out.old.items ++ actor_line unit path.now count step) }
    ensures kept { take (length out.old.items) out.new.items ≡ out.old.items }
{
    push_word(out, b"actor ")?;
    path.push_text(out)?;
    push_word(out, b" count ")?;
    push_number(out, count)?;
    push_word(out, b" step ")?;
    push_seconds_at(out, step, unit)?;
    push_word(out, b"\n")
}

/// Appends `edge PATH delay D bound B`.
#[tactic(auto, unfolding(crate::specs::Plans::edge_line), using(crate::proofs::Texts::text_laws))]
fn push_edge_line(
    out: &mut Vec<u8>,
    path: &SharedPath,
    delay: u32,
    bound: u64,
) -> Result<(), Memory>
    ensures ok { OnOk result (out.new.items ≡ out.old.items ++ edge_line path.now delay bound) }
    ensures kept { take (length out.old.items) out.new.items ≡ out.old.items }
{
    push_word(out, b"edge ")?;
    path.push_text(out)?;
    push_word(out, b" delay ")?;
    push_number(out, u64::from(delay))?;
    push_word(out, b" bound ")?;
    push_number(out, bound)?;
    push_word(out, b"\n")
}

/// Appends `fire OFFSET LEVEL PATH INDEX`.
#[tactic(auto, unfolding(crate::specs::Plans::fire_line), using(crate::proofs::Texts::text_laws))]
fn push_fire_line(
    out: &mut Vec<u8>,
    path: &SharedPath,
    entry: &Entry,
    unit: Resolution,
) -> Result<(), Memory>
    ensures ok { OnOk result (out.new.items ≡ out.old.items ++ fire_line unit path.now entry.now) }
    ensures kept { take (length out.old.items) out.new.items ≡ out.old.items }
{
    push_word(out, b"fire ")?;
    push_seconds_at(out, entry.offset, unit)?;
    push_word(out, b" ")?;
    push_number(out, u64::from(entry.level))?;
    push_word(out, b" ")?;
    path.push_text(out)?;
    push_word(out, b" ")?;
    push_number(out, entry.index)?;
    push_word(out, b"\n")
}

/// The step of an actor: the period over its count.
fn step_of(period: u64, count: u64) -> u64
    ensures { result ≡ period / count }
{
    period.checked_div(count).unwrap_or(0)
}

/// The plan of a cluster, with what the lines of its actors say.
#[derive(Clone, Copy)]
struct ActorLines<'a> {
    flat: &'a FlatTables,
    plan: &'a Plan,
    /// How often each actor of the cluster fires in the plan, in order.
    counts: &'a [u64],
    cluster: u32,
    unit: Resolution,
}

/// Appends the line of an actor, if it is one of the cluster, which fires so often in the plan.
fn push_actor(out: &mut Vec<u8>, lines: &ActorLines, place: usize, count: u64) -> Result<(), Memory>
    requires range { AreInRange lines.now.flat.now }
    requires place { place < length lines.now.flat.now.actors }
    requires count { count ≡ firings_of lines.now.plan.now.entries.items place }
    ensures ok { OnOk result (out.new.items ≡ out.old.items
        ++ actor_text lines.now.unit lines.now.flat.now (rows_of_plan lines.now.plan.now)
        lines.now.cluster place) }
    ensures kept { take (length out.old.items) out.new.items ≡ out.old.items }
{
    let flat = lines.flat;
    if flat.actors[place].cluster != lines.cluster {
        return Ok(());
    }
    let path = flat.actor_path(row_number(place)?);
    let step = step_of(lines.plan.period, count);
    push_actor_line(out, path, count, step, lines.unit)
}

/// Appends the line of an edge, if its writer is one of the cluster.
fn push_edge(
    out: &mut Vec<u8>,
    flat: &FlatTables,
    plan: &Plan,
    cluster: u32,
    place: usize,
) -> Result<(), Memory>
    requires range { AreInRange flat.now }
    requires place { place < length flat.now.edges }
    requires bounds { length plan.now.bounds.items ≡ length flat.now.edges }
    ensures ok { OnOk result (out.new.items ≡ out.old.items ++ edge_text flat.now (rows_of_plan plan.now) cluster place) }
    ensures kept { take (length out.old.items) out.new.items ≡ out.old.items }
{
    let row = flat.edges[place];
    if flat.actors[row.writer as usize].cluster != cluster {
        return Ok(());
    }
    let path = flat.edge_path(row_number(place)?);
    push_edge_line(out, path, row.initial, plan.bounds.get(place))
}

/// Appends the lines of the actors of a cluster, which have these numbers.
fn push_actors(out: &mut Vec<u8>, lines: &ActorLines, numbers: &[u32]) -> Result<(), Memory>
    requires range { AreInRange lines.now.flat.now }
    requires counts { AreCounted numbers.now lines.now.plan.now.entries.items lines.now.counts.now }
    requires numbers { AreActorNumbers lines.now.flat.now lines.now.cluster numbers.now }
    ensures ok { OnOk result (out.new.items ≡ out.old.items
        ++ flat_map (actor_text lines.now.unit lines.now.flat.now
        (rows_of_plan lines.now.plan.now) lines.now.cluster)
        (range_with_len 0 (length lines.now.flat.now.actors))) }
    ensures kept { take (length out.old.items) out.new.items ≡ out.old.items }
{
    for i in 0..numbers.len() {
        push_actor(out, lines, numbers[i] as usize, lines.counts[i])?;
    }
    Ok(())
}

/// Appends the lines of the edges of a cluster, which have these numbers.
fn push_edges(
    out: &mut Vec<u8>,
    flat: &FlatTables,
    plan: &Plan,
    cluster: u32,
    numbers: &[u32],
) -> Result<(), Memory>
    requires range { AreInRange flat.now }
    requires bounds { length plan.now.bounds.items ≡ length flat.now.edges }
    requires numbers { AreEdgeNumbers flat.now cluster numbers.now }
    ensures ok { OnOk result (out.new.items ≡ out.old.items
        ++ flat_map (edge_text flat.now (rows_of_plan plan.now) cluster)
        (range_with_len 0 (length flat.now.edges))) }
    ensures kept { take (length out.old.items) out.new.items ≡ out.old.items }
{
    for i in 0..numbers.len() {
        push_edge(out, flat, plan, cluster, numbers[i] as usize)?;
    }
    Ok(())
}

/// The numbers of the actors of a cluster; none where the model has no such cluster.
fn actors_of(groups: &TableGroups, cluster: u32) -> &[u32]
    ensures { result.now ≡ slice_index_or groups.now.actors cluster [] }
{
    if groups.count() <= cluster as usize {
        return &[];
    }
    groups.actors(cluster)
}

/// The numbers of its edges.
fn edges_of(groups: &TableGroups, cluster: u32) -> &[u32]
    requires { length groups.now.edges ≡ length groups.now.actors }
    ensures { result.now ≡ slice_index_or groups.now.edges cluster [] }
{
    if groups.count() <= cluster as usize {
        return &[];
    }
    groups.edges(cluster)
}

#[tactic(auto, unfolding(crate::specs::Plans::plan_text), using(crate::proofs::Texts::text_laws))]
fn push_plan_lines(
    out: &mut Vec<u8>,
    flat: &FlatTables,
    groups: &TableGroups,
    cluster: u32,
    time: u64,
    plan: &Plan,
    unit: Resolution,
) -> Result<(), Memory>
    requires range { AreInRange flat.now }
    requires groups { AreTableGroups flat.now groups.now }
    requires bounds { length plan.now.bounds.items ≡ length flat.now.edges }
    ensures ok { OnOk result (out.new.items
        ≡ out.old.items ++ plan_text unit flat.now cluster time (rows_of_plan plan.now)) }
    ensures kept { take (length out.old.items) out.new.items ≡ out.old.items }
{
    let alloc = *out.allocator();
    let numbers = actors_of(groups, cluster);
    let counts = firings(alloc, numbers, &plan.entries)?;
    push_cluster_line(out, cluster, time, plan, unit)?;
    let lines = ActorLines {
        flat,
        plan,
        counts: &counts,
        cluster,
        unit,
    };
    push_actors(out, &lines, numbers)?;
    push_edges(out, flat, plan, cluster, edges_of(groups, cluster))
}

/// Appends the plan of a cluster from a time on: one line for the cluster, one for each of its actors, and one for each of its
/// edges. Times are in counts of `unit`. The things of the model by cluster are given.
///
/// # Errors
/// Out of memory; `out` is then unchanged.
pub fn push_plan(
    out: &mut Vec<u8>,
    flat: &FlatTables,
    groups: &TableGroups,
    cluster: u32,
    time: u64,
    plan: &Plan,
    unit: Resolution,
) -> Result<(), Memory>
    requires range { AreInRange flat.now }
    requires groups { AreTableGroups flat.now groups.now }
    requires bounds { length plan.now.bounds.items ≡ length flat.now.edges }
    ensures whole { OnOk result (out.new.items
        ≡ out.old.items ++ plan_text unit flat.now cluster time (rows_of_plan plan.now)) }
    ensures kept { OnErr result (out.new.items ≡ out.old.items) }
{
    let start = out.len();
    match push_plan_lines(out, flat, groups, cluster, time, plan, unit) {
        Ok(()) => Ok(()),
        Err(error) => {
            out.truncate(start);
            Err(error)
        }
    }
}

#[tactic(auto, unfolding(crate::specs::Plans::fires_text), using(crate::proofs::Texts::text_laws))]
fn push_fire_lines(
    out: &mut Vec<u8>,
    flat: &FlatTables,
    plan: &Plan,
    unit: Resolution,
) -> Result<(), Memory>
    requires range { AreInRange flat.now }
    requires actors { All (λ entry. entry.actor < length flat.now.actors) plan.now.entries.items }
    ensures ok { OnOk result (out.new.items
        ≡ out.old.items ++ fires_text unit flat.now (rows_of_plan plan.now)) }
    ensures kept { take (length out.old.items) out.new.items ≡ out.old.items }
{
    for place in 0..plan.entries.len() {
        let entry = plan.entries[place];
        push_fire_line(out, flat.actor_path(entry.actor), &entry, unit)?;
    }
    Ok(())
}

/// Appends the firings of a plan, one line for each, in order. Times are in counts of `unit`.
///
/// # Errors
/// Out of memory; `out` is then unchanged.
pub fn push_fires(
    out: &mut Vec<u8>,
    flat: &FlatTables,
    plan: &Plan,
    unit: Resolution,
) -> Result<(), Memory>
    requires range { AreInRange flat.now }
    requires actors { All (λ entry. entry.actor < length flat.now.actors) plan.now.entries.items }
    ensures whole { OnOk result (out.new.items
        ≡ out.old.items ++ fires_text unit flat.now (rows_of_plan plan.now)) }
    ensures kept { OnErr result (out.new.items ≡ out.old.items) }
{
    let start = out.len();
    match push_fire_lines(out, flat, plan, unit) {
        Ok(()) => Ok(()),
        Err(error) => {
            out.truncate(start);
            Err(error)
        }
    }
}

#[tactic(auto, unfolding(crate::specs::Plans::accepted_line), using(crate::proofs::Texts::text_laws))]
fn push_accepted_line(out: &mut Vec<u8>, clusters: u32) -> Result<(), Memory>
    ensures ok { OnOk result (out.new.items ≡ out.old.items ++ accepted_line clusters) }
    ensures kept { take (length out.old.items) out.new.items ≡ out.old.items }
{
    push_word(out, b"accepted")?;
    push_word(out, b" clusters ")?;
    push_number(out, u64::from(clusters))?;
    push_word(out, b"\n")
}

/// Appends `accepted clusters N`.
///
/// # Errors
/// Out of memory; `out` is then unchanged.
pub fn push_accepted(out: &mut Vec<u8>, clusters: u32) -> Result<(), Memory>
    ensures whole { OnOk result (out.new.items ≡ out.old.items ++ accepted_line clusters) }
    ensures kept { OnErr result (out.new.items ≡ out.old.items) }
{
    let start = out.len();
    match push_accepted_line(out, clusters) {
        Ok(()) => Ok(()),
        Err(error) => {
            out.truncate(start);
            Err(error)
        }
    }
}
