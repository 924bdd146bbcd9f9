//! A cluster at the start of its first period.

ghost use Rattle.std.specs.Prelude.{◌≡◌, ◌≤◌, [], Contains, IfOk, OnOk, length, replicate, slice_index_or, true};
ghost use Rattle.tdf_cluster_net.specs.Numbers.{Rise};
ghost use Rattle.tdf_cluster_plans.specs.Counted.{AreCounted};
ghost use Rattle.tdf_cluster_plans.specs.Groups.{AreOnesElsewhere, AreTableGroups};
ghost use Rattle.tdf_convert.specs.Sampled.{PlansGoByOffset};
ghost use Rattle.tdf_dynamic_first.specs.First.{IsFirstPlan};
ghost use Rattle.tdf_dynamic_plans.specs.Attributes.{RowsStandOnce, clusters_of};
ghost use Rattle.tdf_dynamic_plans.specs.Rates.{AreRates, net_of};
ghost use Rattle.tdf_exec_parts.specs.Below.{IsTableFirst};
ghost use Rattle.tdf_exec.specs.Layout.{HasLayoutOf, KeepsLayouts};
ghost use Rattle.tdf_exec.specs.Made.{IsClusterOf};
ghost use Rattle.tdf_exec.specs.Starts.{IsAtStart, IsSoundFlat, StandsAtStart};
ghost use Rattle.tdf_exec.specs.machine.Laid.{AreOutOf, AreParts, AreRunnersOf, SoundIsLaid};
ghost use Rattle.tdf_exec.specs.machine.Starting.{HoldsText};
ghost use Rattle.tdf_exec.specs.views.Actors.{spread_runners};
ghost use Rattle.tdf_exec_parts.specs.Rings.{AreFirstRings};
ghost use Rattle.tdf_places.specs.Spread.{spread};
ghost use Rattle.tdf_rings.specs.Rings.{ring_of};
ghost use Rattle.tdf_schedule.specs.Laws.{PlansArePresent};
ghost use Rattle.tdf_streams.specs.Periods.{read_rates, write_rates};

use crate::actors::Actors;
use crate::asking::Spare;
use crate::beginning::first_runners;
use crate::cluster::Cluster;
use crate::laws::law_rates;
use crate::laying::Layout;
use crate::runners::Runner;
use crate::tracing::give_all;
use std::alloc::Global;
use tdf_base::Memory;
use tdf_bind::Flat;
use tdf_bind_invariants::{law_formats, law_limits};
use tdf_cluster_plans::{firings, set_own_rates};
use tdf_convert::law_by_offset;
use tdf_dynamic_first::First;
use tdf_dynamic_plans::{Attrs, ModuleAttrs, ones};
use tdf_exec_firing::Edges;
use tdf_exec_layout::{law_edge_formats, law_edges, law_wired};
use tdf_exec_parts::first_rings;
use tdf_places::Places;
use tdf_rings::Ring;
use tdf_schedule::law_present;

/// What the tables of a sound flat model have, and what holds along plans.
pub(crate) fn law_laid()
    ensures laid { SoundIsLaid }
    ensures present { PlansArePresent }
    ensures sorted { PlansGoByOffset }
{
    law_limits();
    law_edges();
    law_wired();
    law_edge_formats();
    law_formats();
    law_rates();
    law_present();
    law_by_offset();
}

/// The parts of a cluster at its start: its edges and actors, the actors whose firings are counted, how often they fire in a period, and room
/// for the instances of its modules.
#[derive(Drop)]
pub(crate) struct Parts {
    pub(crate) edges: Edges,
    pub(crate) actors: Actors,
    pub(crate) counted: Vec<u32>,
    pub(crate) firings: Vec<u64>,
    pub(crate) spare: Spare,
}

/// The edges of a cluster under a table, out of the rings of its own edges, by place. The edges of other clusters have the rates 1 and
/// hold nothing; they aren't looked at.
///
/// # Errors
/// Out of memory.
fn own_edges(
    alloc: Global,
    flat: &Flat,
    cluster: u32,
    layout: &Layout,
    table: &[ModuleAttrs],
    rings: Vec<Ring>,
) -> Result<Edges, Memory>
    requires has { Contains (clusters_of flat.now.tables) cluster }
    requires groups { AreTableGroups flat.now.tables layout.now.groups }
    requires rates { AreRates flat.now.tables table.now }
    requires reads { AreOnesElsewhere flat.now.tables cluster
        (read_rates (net_of flat.now.tables table.now)) }
    requires writes { AreOnesElsewhere flat.now.tables cluster
        (write_rates (net_of flat.now.tables table.now)) }
    requires long { length rings.items
        ≡ length (slice_index_or layout.now.groups.edges cluster []) }
    ensures { IfOk result (λ edges. edges ≡ record {
      reads = read_rates (net_of flat.now.tables table.now);
      writes = write_rates (net_of flat.now.tables table.now);
      rings = spread (ring_of [] 0) (record {
        numbers = slice_index_or layout.now.groups.edges cluster [];
        count = length flat.now.tables.edges;
      }) rings.items;
    }) }
{
    let numbers = layout.groups.edges(cluster);
    let count = flat.tables.edges.len();
    let mut reads = ones(alloc, numbers.len())?;
    let mut writes = ones(alloc, numbers.len())?;
    set_own_rates(&flat.tables, table, numbers, &mut reads, &mut writes);
    let places = Places::of(alloc, numbers, count, &layout.edge_places)?;
    Ok(Edges::of(places, reads, writes, rings))
}

/// The actors of a cluster, with what is kept for each in the order of their numbers.
///
/// # Errors
/// Out of memory.
fn own_actors(
    alloc: Global,
    flat: &Flat,
    cluster: u32,
    layout: &Layout,
    runners: Vec<Runner>,
) -> Result<Actors, Memory>
    requires has { Contains (clusters_of flat.now.tables) cluster }
    requires groups { AreTableGroups flat.now.tables layout.now.groups }
    requires long { length runners.items
        ≡ length (slice_index_or layout.now.groups.actors cluster []) }
    ensures runners { IfOk result (λ actors. actors.runners ≡ spread_runners flat.now.tables
        (slice_index_or layout.now.groups.actors cluster []) runners.items) }
    ensures none_done { IfOk result (λ actors.
        actors.positions ≡ replicate (length flat.now.tables.actors) 0) }
{
    let numbers = layout.groups.actors(cluster);
    let count = flat.tables.actors.len();
    let places = Places::of(alloc, numbers, count, &layout.actor_places)?;
    Actors::of(alloc, places, runners)
}

/// What is kept for the actors of a cluster, in the order of their numbers.
fn runners_of(
    alloc: Global,
    flat: &Flat,
    cluster: u32,
    attrs: &Attrs,
    layout: &mut Layout,
) -> Result<Vec<Runner>, Memory>
    requires sound { IsSoundFlat flat.now }
    requires has { Contains (clusters_of flat.now.tables) cluster }
    requires rates { AreRates flat.now.tables attrs.now.rows }
    requires once { RowsStandOnce attrs.now.rows }
    requires layout { HasLayoutOf flat.now cluster layout.old }
    ensures long { IfOk result (λ runners. length runners.items
        ≡ length (slice_index_or layout.old.groups.actors cluster [])) }
    ensures runners { IfOk result (λ runners. AreRunnersOf flat.now (HoldsText flat.now true)
        cluster attrs.now.rows (spread_runners flat.now.tables
        (slice_index_or layout.old.groups.actors cluster []) runners.items)) }
    ensures groups { layout.new.groups ≡ layout.old.groups }
    ensures others { OnOk result (KeepsLayouts flat.now cluster layout.old layout.new) }
{
    law_laid();
    let groups = &layout.groups;
    let mut runners = first_runners(alloc, flat, groups, cluster, &mut layout.wires, true)?;
    let numbers = layout.groups.actors(cluster);
    give_all(
        alloc,
        &flat.tables,
        attrs,
        numbers,
        &mut layout.traced,
        &mut runners,
    );
    Ok(runners)
}

/// Whether it is a module with ports whose signals are traced.
fn is_traced(runner: &Runner) -> bool {
    match runner {
        Runner::Module(module) => !module.rest.traced.is_empty(),
        Runner::Sampler(_) => false,
        Runner::Sink(_) => false,
        Runner::Outside => false,
    }
}

/// The numbers of the actors whose firings in a period are counted: all of these, where one is a module with ports whose signals are traced,
/// since for such modules activations are asked for at each period; else none. What is kept for the actors stands in the order of the numbers.
///
/// # Errors
/// Out of memory.
fn counted_actors(alloc: Global, numbers: &[u32], runners: &[Runner]) -> Result<Vec<u32>, Memory>
    requires { Rise numbers.now }
    ensures { IfOk result (λ counted. Rise counted.items) }
{
    if runners.iter().any(|runner| is_traced(runner)) {
        return Ok(Vec::from_slice(alloc, numbers)?);
    }
    Ok(Vec::new(alloc))
}

/// The parts of a cluster under a table and its plan, out of the rings of its edges and what is kept for its actors, both in the order of
/// their numbers.
///
/// # Errors
/// Out of memory.
pub(crate) fn parts_of(
    alloc: Global,
    flat: &Flat,
    cluster: u32,
    first: &First,
    layout: &Layout,
    rings: Vec<Ring>,
    runners: Vec<Runner>,
) -> Result<Parts, Memory>
    requires sound { IsSoundFlat flat.now }
    requires plan { IsTableFirst flat.now cluster first.now.attrs.rows first.now }
    requires groups { AreTableGroups flat.now.tables layout.now.groups }
    requires rings { length rings.items
        ≡ length (slice_index_or layout.now.groups.edges cluster []) }
    requires runners { length runners.items
        ≡ length (slice_index_or layout.now.groups.actors cluster []) }
    ensures parts { IfOk result (λ p. AreOutOf flat.now.tables cluster first.now.attrs.rows
        layout.now.groups rings.items runners.items p.edges p.actors) }
    ensures rising { IfOk result (λ p. Rise p.counted.items) }
    ensures counted { IfOk result (λ p.
        AreCounted p.counted.items first.now.plan.entries.items p.firings.items) }
    ensures room { IfOk result (λ p. length first.now.attrs.rows ≤ p.spare) }
{
    law_laid();
    let edges = own_edges(alloc, flat, cluster, layout, &first.attrs.rows, rings)?;
    let numbers = layout.groups.actors(cluster);
    let counted = counted_actors(alloc, numbers, &runners)?;
    let firings = firings(alloc, &counted, &first.plan.entries)?;
    let actors = own_actors(alloc, flat, cluster, layout, runners)?;
    let spare = Spare::new(alloc, first.attrs.rows.len())?;
    Ok(Parts {
        edges,
        actors,
        counted,
        firings,
        spare,
    })
}

/// The parts of a cluster at its start, under a table and its plan.
fn first_parts(
    alloc: Global,
    flat: &Flat,
    cluster: u32,
    first: &First,
    layout: &mut Layout,
) -> Result<Parts, Memory>
    requires sound { IsSoundFlat flat.now }
    requires plan { IsTableFirst flat.now cluster first.now.attrs.rows first.now }
    requires once { RowsStandOnce first.now.attrs.rows }
    requires layout { HasLayoutOf flat.now cluster layout.old }
    ensures parts { IfOk result (λ p. AreParts flat.now cluster first.now (HoldsText flat.now true)
        (AreFirstRings flat.now.tables cluster first.now.plan.bounds.items
        (length flat.now.tables.edges))
        p.edges.reads p.edges.writes p.edges.rings p.actors.runners p.actors.positions) }
    ensures rising { IfOk result (λ p. Rise p.counted.items) }
    ensures counted { IfOk result (λ p.
        AreCounted p.counted.items first.now.plan.entries.items p.firings.items) }
    ensures room { IfOk result (λ p. length first.now.attrs.rows ≤ p.spare) }
    ensures others { OnOk result (KeepsLayouts flat.now cluster layout.old layout.new) }
{
    law_laid();
    let numbers = layout.groups.edges(cluster);
    let rings = first_rings(alloc, &flat.tables, numbers, &first.plan.bounds)?;
    let runners = runners_of(alloc, flat, cluster, &first.attrs, layout)?;
    parts_of(alloc, flat, cluster, first, layout, rings, runners)
}

impl Cluster {
    /// A cluster at the start of its first period, with its samples at first in place, the initialize bodies of its modules
    /// run. `first` has its first attributes and plan; of `layout` it takes what is its own.
    ///
    /// # Errors
    /// Out of memory.
    pub fn new(
        alloc: Global,
        flat: &Flat,
        cluster: u32,
        first: First,
        layout: &mut Layout,
    ) -> Result<Cluster, Memory>
        requires sound { IsSoundFlat flat.now }
        requires plan { IsFirstPlan flat.now cluster first }
        requires layout { HasLayoutOf flat.now cluster layout.old }
        ensures of { IfOk result (λ c. IsClusterOf flat.now c) }
        ensures start { IfOk result (λ c. IsAtStart cluster first c) }
        ensures stands { IfOk result (λ c. StandsAtStart flat.now c) }
        ensures others { OnOk result (KeepsLayouts flat.now cluster layout.old layout.new) }
    {
        law_laid();
        match first_parts(alloc, flat, cluster, &first, layout) {
            Ok(parts) => Ok(Cluster {
                number: cluster,
                attrs: first.attrs,
                plan: first.plan,
                place: 0,
                crossed: false,
                counted: parts.counted,
                firings: parts.firings,
                edges: parts.edges,
                actors: parts.actors,
                spare: parts.spare,
            }),
            Err(failed) => {
                drop(first);
                Err(failed)
            }
        }
    }
}
