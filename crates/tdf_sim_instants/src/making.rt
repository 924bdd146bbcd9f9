//! All that runs of a model, before its first instant.

ghost use Rattle.std.specs.Prelude.{◌≡◌, ◌+◌, ℕ, [], IfOk, OnOk, length, replicate};
ghost use Rattle.tdf_convert.specs.Links.{samplers_in};
ghost use Rattle.tdf_dynamic_first.specs.First.{IsFirstPlan};
ghost use Rattle.tdf_sim_instants.specs.Engine.{AreInProgress, AreRoomsBut, AreRoomy, IsEngineOf, IsReadyAt};
ghost use Rattle.tdf_sim_instants.specs.Making.{HavePlans};
ghost use Rattle.tdf_sim_instants.specs.machine.Making.{AreGivenUpTo, AreLinkedUpTo};
ghost use Rattle.tdf_events.specs.Kernel.{IsKernelOf, side_of};
ghost use Rattle.tdf_events.specs.Runnable.{IsRunnable};
ghost use Rattle.tdf_events.specs.Side.{start_side};
ghost use Rattle.tdf_sim_refinement.specs.Below.{AreTableGroups, HasLayoutOf, IsSoundFlat, KeepsLayouts};
ghost use Rattle.tdf_sim_refinement.specs.Linked.{AreSinkLinks, HaveEventPorts};
ghost use Rattle.tdf_sim_refinement.specs.Begun.{HasBegun, HaveBegun};

use crate::engine::Engine;
use crate::making_room::{rooms_by, whole_room};
use std::alloc::Global;
use tdf_base::{Memory, cluster_number, row_number};
use tdf_bind::Flat;
use tdf_bind_invariants::law_limits;
use tdf_convert::{Inputs, Links, Outputs, Writes};
use tdf_dynamic_first::First;
use tdf_events::Kernel;
use tdf_sim_refinement::{
    Cluster, Layout, Room, TableGroups, all_sampler_links, cluster_groups, law_ports, sink_links,
};

/// The cluster at a place, at the start of its first period; it takes what is laid out for it.
fn cluster_at(
    alloc: Global,
    flat: &Flat,
    place: usize,
    first: First,
    layout: &mut Layout,
) -> Result<Cluster, Memory>
    requires sound { IsSoundFlat flat.now }
    requires plan { IsFirstPlan flat.now (place + 1) first }
    requires layout { HasLayoutOf flat.now (place + 1) layout.old }
    ensures begun { IfOk result (λ c. HasBegun flat.now (place + 1) first c) }
    ensures others { OnOk result (KeepsLayouts flat.now (place + 1) layout.old layout.new) }
{
    match cluster_number(place) {
        Ok(number) => Cluster::new(alloc, flat, number, first, layout),
        Err(failed) => {
            drop(first);
            Err(failed)
        }
    }
}

/// All clusters at the start of their first periods, in order of number; each takes what is laid out for it.
fn clusters_with(
    alloc: Global,
    flat: &Flat,
    firsts: Vec<First>,
    layout: &mut Layout,
) -> Result<Vec<Cluster>, Memory>
    requires sound { IsSoundFlat flat.now }
    requires plans { HavePlans flat.now firsts.items }
    requires layout { (cluster : ℕ) → HasLayoutOf flat.now cluster layout.old }
    ensures { IfOk result (λ clusters. HaveBegun flat.now firsts.items clusters.items) }
{
    let mut clusters = Vec::new(alloc);
    for first in firsts {
        let cluster = cluster_at(alloc, flat, clusters.len(), first, layout)?;
        clusters.push(cluster)?;
    }
    Ok(clusters)
}

/// All clusters at the start of their first periods: what their actors need is laid out once.
fn first_clusters(alloc: Global, flat: &Flat, firsts: Vec<First>) -> Result<Vec<Cluster>, Memory>
    requires sound { IsSoundFlat flat.now }
    requires plans { HavePlans flat.now firsts.items }
    ensures { IfOk result (λ clusters. HaveBegun flat.now firsts.items clusters.items) }
{
    match Layout::new(alloc, flat) {
        Ok(laid) => {
            let mut layout = laid;
            clusters_with(alloc, flat, firsts, &mut layout)
        }
        Err(failed) => {
            drop(firsts);
            Err(failed)
        }
    }
}

/// The links of the samplers of the first `count` clusters.
fn links_of(alloc: Global, flat: &Flat, count: usize) -> Result<Vec<Links>, Memory>
    requires ports { HaveEventPorts flat.now.tables }
    ensures { IfOk result (λ links. AreLinkedUpTo flat.now.tables count links.items) }
{
    all_sampler_links(alloc, &flat.tables, count)
}

/// A 0 for each sampler of a cluster.
fn first_inputs(alloc: Global, links: &Links) -> Result<Inputs, Memory>
    ensures { IfOk result (λ inputs. length inputs ≡ samplers_in links.now.list.items) }
{
    let samplers = links.list.iter().filter(|link| link.sampler).count();
    Inputs::new(alloc, row_number(samplers)?)
}

/// A 0 for each sampler of each cluster.
fn inputs_of(alloc: Global, links: &[Links]) -> Result<Vec<Inputs>, Memory>
    ensures { IfOk result (λ inputs. AreGivenUpTo links.now (length links.now) inputs.items) }
{
    let mut inputs = Vec::new(alloc);
    for n in 0..links.len() {
        let own = first_inputs(alloc, &links[n])?;
        inputs.push(own)?;
    }
    Ok(inputs)
}

/// What an engine has beside its clusters and its event side: what samplers read and sinks write, room for what firings give, and the
/// numbers of the things of each cluster.
#[derive(Drop)]
struct Lines {
    groups: TableGroups,
    rooms: Vec<Room>,
    links: Vec<Links>,
    inputs: Vec<Inputs>,
    sinks: Links,
    outputs: Outputs,
    writes: Writes,
}

/// That of these clusters. Nothing is read or written yet.
fn lines_of(alloc: Global, flat: &Flat, clusters: &[Cluster]) -> Result<Lines, Memory>
    requires sound { IsSoundFlat flat.now }
    requires ports { HaveEventPorts flat.now.tables }
    ensures groups { IfOk result (λ lines. AreTableGroups flat.now.tables lines.groups) }
    ensures linked { IfOk result (λ lines.
        AreLinkedUpTo flat.now.tables (length clusters.now) lines.links.items) }
    ensures given { IfOk result (λ lines.
        AreGivenUpTo lines.links.items (length lines.links.items) lines.inputs.items) }
    ensures sinks { IfOk result (λ lines. AreSinkLinks flat.now.tables lines.sinks.list.items) }
    ensures roomy { IfOk result (λ lines. AreRoomy clusters.now lines.outputs lines.writes) }
    ensures rooms { IfOk result (λ lines. AreRoomsBut [] clusters.now lines.rooms.items) }
{
    let rooms = rooms_by(alloc, clusters)?;
    let room = whole_room(&rooms)?;
    let links = links_of(alloc, flat, clusters.len())?;
    let inputs = inputs_of(alloc, &links)?;
    let sinks = sink_links(alloc, &flat.tables)?;
    let outputs = Outputs::new(alloc, room.sent, room.traced)?;
    let writes = Writes::new(alloc, room.sent)?;
    let groups = cluster_groups(alloc, flat)?;
    Ok(Lines {
        groups,
        rooms,
        links,
        inputs,
        sinks,
        outputs,
        writes,
    })
}

/// The begin of the first period of so many clusters, and the event side as the model declares it.
fn first_times(alloc: Global, flat: &Flat, count: usize) -> Result<(Vec<u64>, Kernel), Memory>
    requires runnable { IsRunnable flat.now }
    ensures since { IfOk result (λ first. first.0.items ≡ replicate count 0) }
    ensures side { IfOk result (λ first. side_of first.1 ≡ start_side flat.now) }
    ensures kernel { IfOk result (λ first. IsKernelOf flat.now first.1) }
{
    let since = vec![in alloc; 0; count]?;
    let kernel = Kernel::new(alloc, flat)?;
    Ok((since, kernel))
}

impl Engine {
    /// All that runs of a model, between two instants: these clusters, whose periods began at the times `since`, and this
    /// event side. Its samplers have read nothing yet, and nothing is written.
    ///
    /// # Errors
    /// Out of memory; samples of one offset whose number has more than 32 bits do not fit in memory.
    pub fn from_parts(
        alloc: Global,
        flat: &Flat,
        since: Vec<u64>,
        clusters: Vec<Cluster>,
        kernel: Kernel,
    ) -> Result<Engine, Memory>
        requires sound { IsSoundFlat flat.now }
        requires since { length since.items ≡ length clusters.items }
        requires clusters { AreInProgress flat.now clusters.items }
        requires kernel { IsKernelOf flat.now kernel }
        ensures engine { IfOk result (λ engine. IsEngineOf flat.now engine) }
        ensures clusters { IfOk result (λ engine. engine.clusters.items ≡ clusters.items) }
        ensures since { IfOk result (λ engine. engine.since.items ≡ since.items) }
        ensures kernel { IfOk result (λ engine. engine.kernel ≡ kernel) }
        ensures none { IfOk result (λ engine. engine.outputs.traced ≡ []) }
        ensures planned { IfOk result (λ engine. engine.planned.items ≡ []) }
    {
        law_ports();
        match lines_of(alloc, flat, &clusters) {
            Ok(lines) => {
                let Lines {
                    groups,
                    rooms,
                    links,
                    inputs,
                    sinks,
                    outputs,
                    writes,
                } = lines;
                Ok(Engine {
                    clusters,
                    since,
                    links,
                    inputs,
                    sinks,
                    outputs,
                    writes,
                    kernel,
                    planned: Vec::new(alloc),
                    groups,
                    rooms,
                })
            }
            Err(failed) => {
                drop((kernel, clusters, since));
                Err(failed)
            }
        }
    }

    /// All that runs of a model, before its first instant: each cluster at the start of its first period, which begins at
    /// the time 0, and the event side as the model declares it. `firsts` has the first attributes and plans of the
    /// clusters.
    ///
    /// # Errors
    /// Out of memory; samples of one offset whose number has more than 32 bits do not fit in memory.
    pub fn new(alloc: Global, flat: &Flat, firsts: Vec<First>) -> Result<Engine, Memory>
        requires sound { IsSoundFlat flat.now }
        requires runnable { IsRunnable flat.now }
        requires plans { HavePlans flat.now firsts.items }
        ensures engine { IfOk result (λ engine. IsEngineOf flat.now engine) }
        ensures begun { IfOk result (λ engine.
            HaveBegun flat.now firsts.items engine.clusters.items) }
        ensures since { IfOk result (λ engine.
            engine.since.items ≡ replicate (length engine.clusters.items) 0) }
        ensures ready { IfOk result (λ engine. IsReadyAt 0 engine) }
        ensures none { IfOk result (λ engine. engine.outputs.traced ≡ []) }
        ensures planned { IfOk result (λ engine. engine.planned.items ≡ []) }
        ensures side { IfOk result (λ engine. side_of engine.kernel ≡ start_side flat.now) }
    {
        law_limits();
        let clusters = first_clusters(alloc, flat, firsts)?;
        match first_times(alloc, flat, clusters.len()) {
            Ok((since, kernel)) => Engine::from_parts(alloc, flat, since, clusters, kernel),
            Err(failed) => {
                drop(clusters);
                Err(failed)
            }
        }
    }
}
