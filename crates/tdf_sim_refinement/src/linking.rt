//! The links of the samplers of all clusters and of all sinks, by one look at each actor.

ghost use Rattle.std.specs.Prelude.{◌≡◌, ◌+◌, ◌<◌, ℕ, IfOk, OnOk, Some, length, slice_get, true};
ghost use Rattle.tdf_convert.specs.declared.links.Links.{Links};
ghost use Rattle.tdf_sim_history.specs.Instant.{signal_of_row};
ghost use Rattle.tdf_sim_refinement.specs.Linked.{AreSamplerLinks, AreSinkLinks, HasEventPort, HaveEventPorts, is_sampler};
ghost use Rattle.tdf_sim_refinement.specs.machine.Linking.{AreAllLinkedUpTo, AreLinkedUpTo, AreWithoutLinks, is_sink, is_some_sampler, is_wanted, of_samplers};

use std::alloc::Global;
use tdf_base::{Memory, row_number};
use tdf_bind_tables::{ActorRow, FlatTables};
use tdf_convert::Links;
use tdf_graph::Actor;

/// Which actors have links.
#[derive(Clone, Copy, Debug)]
enum Wanted {
    /// The samplers of a cluster.
    SamplersOf(u32),
    /// All sinks.
    Sinks,
}

fn is_sampler(kind: Actor) -> bool
    ensures { result ≡ is_sampler kind }
{
    match kind {
        Actor::Module => false,
        Actor::Sampler => true,
        Actor::Sink => false,
    }
}

fn is_sink(kind: Actor) -> bool
    ensures { result ≡ is_sink kind }
{
    match kind {
        Actor::Module => false,
        Actor::Sampler => false,
        Actor::Sink => true,
    }
}

/// Whether an actor is one of those; no module is.
fn is_wanted(wanted: Wanted, row: &ActorRow) -> bool
    ensures { result ≡ is_wanted wanted row.now }
{
    if let Actor::Module = row.kind {
        return false;
    }
    match wanted {
        Wanted::SamplersOf(cluster) => is_sampler(row.kind) && row.cluster == cluster,
        Wanted::Sinks => is_sink(row.kind),
    }
}

/// Whether those are samplers.
fn of_samplers(wanted: Wanted) -> bool
    ensures { result ≡ of_samplers wanted }
{
    match wanted {
        Wanted::SamplersOf(_) => true,
        Wanted::Sinks => false,
    }
}

/// The signal of the port of an actor.
fn signal_at(tables: &FlatTables, row: &ActorRow) -> u32
    requires { HasEventPort tables.now row.now }
    ensures inside { result < length tables.now.de_signals }
    ensures own { result ≡ signal_of_row tables.now (Some row.now) }
{
    tables.ports[row.port as usize].signal
}

/// The link of an actor comes to those before it, if it is wanted.
fn put(links: &mut Links, tables: &FlatTables, wanted: Wanted, m: usize) -> Result<(), Memory>
    requires ports { HaveEventPorts tables.now }
    requires inside { m < length tables.now.actors }
    requires linked { AreLinkedUpTo tables.now wanted m links.old.list.items }
    ensures { OnOk result (AreLinkedUpTo tables.now wanted (m + 1) links.new.list.items) }
{
    let row = &tables.actors[m];
    if !is_wanted(wanted, row) {
        return Ok(());
    }
    links.add(row_number(m)?, signal_at(tables, row), of_samplers(wanted))
}

/// The links of all actors that are wanted.
fn links_of(alloc: Global, tables: &FlatTables, wanted: Wanted) -> Result<Links, Memory>
    requires ports { HaveEventPorts tables.now }
    ensures { IfOk result (λ links.
        AreLinkedUpTo tables.now wanted (length tables.now.actors) links.list.items) }
{
    let mut links = Links::new(alloc);
    for m in 0..tables.actors.len() {
        put(&mut links, tables, wanted, m)?;
    }
    Ok(links)
}

/// No links for any of so many clusters.
fn no_links(alloc: Global, count: usize) -> Result<Vec<Links>, Memory>
    ensures { IfOk result (λ links. AreWithoutLinks count links.items) }
{
    let mut links = Vec::with_capacity(alloc, count)?;
    for _ in 0..count {
        let own = Links::new(alloc);
        links.push(own)?;
    }
    Ok(links)
}

/// Whether an actor is a sampler of one of so many clusters.
fn is_some_sampler(count: usize, row: &ActorRow) -> bool
    ensures { result ≡ is_some_sampler count row.now }
{
    is_sampler(row.kind) && 0 < row.cluster && row.cluster as usize <= count
}

/// The link of an actor comes to those of its cluster, if it is a sampler of one of these.
fn put_sampler(links: &mut Vec<Links>, tables: &FlatTables, m: usize) -> Result<(), Memory>
    requires ports { HaveEventPorts tables.now }
    requires inside { m < length tables.now.actors }
    requires linked { AreAllLinkedUpTo tables.now (length links.old.items) m links.old.items }
    ensures { OnOk result (AreAllLinkedUpTo tables.now (length links.old.items) (m + 1) links.new.items) }
{
    let row = &tables.actors[m];
    if !is_some_sampler(links.len(), row) {
        return Ok(());
    }
    let place = row.cluster as usize - 1;
    put(
        &mut links[place],
        tables,
        Wanted::SamplersOf(row.cluster),
        m,
    )
}

/// The links of the samplers of the first `count` clusters, in order of number. The ports of samplers and sinks have event
/// signals, as in each flat model.
///
/// # Errors
/// Out of memory.
pub fn all_sampler_links(
    alloc: Global,
    tables: &FlatTables,
    count: usize,
) -> Result<Vec<Links>, Memory>
    requires ports { HaveEventPorts tables.now }
    ensures long { IfOk result (λ links. length links.items ≡ count) }
    ensures links { IfOk result (λ links.
        (n : ℕ) (l : Links) → slice_get links.items n ≡ Some l
        → AreSamplerLinks tables.now (n + 1) l.list.items) }
{
    let mut links = no_links(alloc, count)?;
    for m in 0..tables.actors.len() {
        put_sampler(&mut links, tables, m)?;
    }
    Ok(links)
}

/// The links of all sinks. The ports of samplers and sinks have event signals, as in each flat model.
///
/// # Errors
/// Out of memory.
pub fn sink_links(alloc: Global, tables: &FlatTables) -> Result<Links, Memory>
    requires ports { HaveEventPorts tables.now }
    ensures links { IfOk result (λ links. AreSinkLinks tables.now links.list.items) }
{
    links_of(alloc, tables, Wanted::Sinks)
}
