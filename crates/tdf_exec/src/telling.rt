//! What a cluster in progress tells of itself.

/// The greatest numbers of samples that the entries of one offset of a plan give.
#[derive(Clone, Copy, Debug, PartialEq, Eq)]
pub struct Room {
    /// Samples of sinks.
    pub sent: u32,
    /// Samples of traced signals.
    pub traced: u32,
}

/// What the entries of an offset give so far, and the most that those of one offset give.
#[derive(Clone, Copy)]
pub(crate) struct Rooms {
    offset: u64,
    here: Room,
    most: Room,
}

ghost use Rattle.std.specs.Prelude.{◌≡◌, ◌+◌, ◌<◌, ◌≤◌, ◌^◌, IfOk, OnErr, Some, length, max, slice_get};
ghost use Rattle.tdf_convert.specs.Links.{AreLinks, HaveSignals};
ghost use Rattle.tdf_convert.specs.Sampled.{AreByOffset, AreSampled};
ghost use Rattle.tdf_dynamic_plans.specs.Rates.{port_rate};
ghost use Rattle.tdf_exec.specs.Gained.{sent_size, traced_size};
ghost use Rattle.tdf_exec.specs.Made.{IsClusterOf};
ghost use Rattle.tdf_exec.specs.Played.{turns_from};
ghost use Rattle.tdf_exec.specs.Telling.{GivesTooMany, IsMostOf};
ghost use Rattle.tdf_exec.specs.Traced.{traced_count};
ghost use Rattle.tdf_exec.specs.machine.Telling.{IsOver, here_at, room_of, rooms_with, sent_with, traced_with};
ghost use Rattle.tdf_bind_invariants.specs.Limits.{AreWithinLimits};
ghost use Rattle.tdf_bind_connections.specs.declared.modules.PortRow.{PortRow as PortRowOf};

use crate::actors::Actors;
use crate::cluster::Cluster;
use crate::runners::{Runner, TracedPort};
use tdf_base::Memory;
use tdf_bind::Flat;
use tdf_cluster_plans::firings_of;
use tdf_convert::{Inputs, Links, sample_due};
use tdf_dynamic_plans::Attrs;
use tdf_fixed::Raw;
use tdf_schedule::{Entry, Plan};

/// A sum, if it has 32 bits.
pub(crate) fn sum(a: u32, b: u32) -> Result<u32, Memory>
    ensures sum { IfOk result (λ n. n ≡ a + b) }
    ensures large { OnErr result (2 ^ 32 ≤ a + b) }
{
    match a.checked_add(b) {
        Some(sum) => Ok(sum),
        None => Err(Memory),
    }
}

/// How many samples the traced ports of a module give in a firing.
fn traced_by(list: &[TracedPort]) -> Result<u32, Memory>
    ensures count { IfOk result (λ n. n ≡ traced_count list.now) }
    ensures large { OnErr result (2 ^ 32 ≤ traced_count list.now) }
{
    let mut count = 0;
    for j in 0..list.len() {
        count = sum(count, list[j].rate)?;
    }
    Ok(count)
}

/// What a firing of an actor gives.
fn given_by(runner: &Runner) -> Result<Room, Memory>
    ensures given { IfOk result (λ room. room ≡ room_of (sent_size (Some runner.now)) (traced_size (Some runner.now))) }
    ensures large { OnErr result (2 ^ 32 ≤ traced_size (Some runner.now)) }
{
    match runner {
        Runner::Module(module) => Ok(Room {
            sent: 0,
            traced: traced_by(&module.rest.traced)?,
        }),
        Runner::Sampler(_) => Ok(Room { sent: 0, traced: 0 }),
        Runner::Sink(_) => Ok(Room { sent: 1, traced: 0 }),
        Runner::Outside => Ok(Room { sent: 0, traced: 0 }),
    }
}

/// What a firing of the actor of this number gives; nothing where there is none.
fn given_at(actors: &Actors, actor: u32) -> Result<Room, Memory>
    ensures given { IfOk result (λ room. room ≡ room_of (sent_size (slice_get actors.now.runners actor))
        (traced_size (slice_get actors.now.runners actor))) }
    ensures large { OnErr result (2 ^ 32 ≤ traced_size (slice_get actors.now.runners actor)) }
{
    match actors.runner(actor) {
        Some(runner) => given_by(runner),
        None => Ok(Room { sent: 0, traced: 0 }),
    }
}

/// What the entries before one gave at its offset.
fn here_at(rooms: Rooms, offset: u64) -> Room
    ensures { result ≡ here_at rooms offset }
{
    if rooms.offset == offset {
        return rooms.here;
    }
    Room { sent: 0, traced: 0 }
}

/// Both sums, if each has 32 bits.
fn both(a: Room, b: Room) -> Result<Room, Memory>
    ensures sums { IfOk result (λ room. room ≡ room_of (a.sent + b.sent) (a.traced + b.traced)) }
    ensures large { OnErr result (IsOver (a.sent + b.sent) (a.traced + b.traced)) }
{
    let sent = sum(a.sent, b.sent)?;
    let traced = sum(a.traced, b.traced)?;
    Ok(Room { sent, traced })
}

/// The rooms of one entry more.
fn with_entry(actors: &Actors, entry: Entry, rooms: Rooms) -> Result<Rooms, Memory>
    ensures next { IfOk result (λ next. next ≡ rooms_with actors.now.runners entry rooms) }
    ensures large { OnErr result (IsOver (sent_with actors.now.runners entry rooms)
        (traced_with actors.now.runners entry rooms)) }
{
    let given = given_at(actors, entry.actor)?;
    let here = both(here_at(rooms, entry.offset), given)?;
    Ok(Rooms {
        offset: entry.offset,
        here,
        most: Room {
            sent: rooms.most.sent.max(here.sent),
            traced: rooms.most.traced.max(here.traced),
        },
    })
}

/// The greatest numbers of samples that entries of one offset give.
fn most_of(actors: &Actors, entries: &[Entry]) -> Result<Room, Memory>
    requires sorted { AreByOffset entries.now }
    ensures sent { IfOk result (λ room. IsMostOf sent_size actors.now.runners entries.now room.sent) }
    ensures traced { IfOk result (λ room. IsMostOf traced_size actors.now.runners entries.now room.traced) }
    ensures large { OnErr result (GivesTooMany actors.now.runners entries.now) }
{
    let mut rooms = Rooms {
        offset: 0,
        here: Room { sent: 0, traced: 0 },
        most: Room { sent: 0, traced: 0 },
    };
    for i in 0..entries.len() {
        rooms = with_entry(actors, entries[i], rooms)?;
    }
    Ok(rooms.most)
}

impl Cluster {
    /// The period, in counts of the model's resolution.
    pub fn period(&self) -> u64
        ensures { result ≡ self.now.period }
    {
        self.plan.period
    }

    /// The plan in force.
    pub fn plan(&self) -> &Plan
        ensures entries { result.now.entries.items ≡ self.now.entries }
        ensures bounds { result.now.bounds.items ≡ self.now.bounds }
        ensures period { result.now.period ≡ self.now.period }
    {
        &self.plan
    }

    /// The table in force: the attributes of the modules of the cluster.
    pub fn attrs(&self) -> &Attrs
        ensures rows { result.now.rows ≡ self.now.table }
        ensures known { result.now.known ≡ self.now.known }
    {
        &self.attrs
    }

    /// How many entries of the plan are of an actor.
    pub fn activations(&self, actor: u32) -> u64
        ensures { result ≡ turns_from self.now.entries 0 (length self.now.entries) actor }
    {
        firings_of(&self.counted, &self.firings, &self.plan.entries, actor)
    }

    /// The rate in force of a port of the flat model; 1 for a port of another cluster.
    pub fn rate(&self, flat: &Flat, port: u32) -> u32
        requires limits { AreWithinLimits flat.now }
        requires of { IsClusterOf flat.now self.now }
        requires port { port < length flat.now.tables.ports }
        ensures { (row : PortRowOf) → slice_get flat.now.tables.ports port ≡ Some row
            → result ≡ port_rate self.now.table row }
    {
        self.attrs.rate_of_port(&flat.tables, port)
    }

    /// The greatest numbers of samples of sinks and of traced samples that the entries of one offset give, by one look at
    /// each entry. It takes no memory.
    ///
    /// # Errors
    /// A number is above the greatest of 32 bits.
    pub fn room(&self) -> Result<Room, Memory>
        ensures sent { IfOk result (λ room.
            IsMostOf sent_size self.now.runners self.now.entries room.sent) }
        ensures traced { IfOk result (λ room.
            IsMostOf traced_size self.now.runners self.now.entries room.traced) }
        ensures large { OnErr result (GivesTooMany self.now.runners self.now.entries) }
    {
        most_of(&self.actors, &self.plan.entries)
    }

    /// Sets each sampler with an entry of this offset to its signal's value. It takes no memory and is never refused.
    pub fn sample_due(&self, offset: u64, links: &Links, values: &[Raw], inputs: &mut Inputs)
        requires links { AreLinks links.now.list.items (length inputs.old) }
        requires signals { HaveSignals links.now.list.items (length values.now) }
        ensures { AreSampled self.now.entries offset links.now.list.items values.now
            inputs.old inputs.new }
    {
        sample_due(&self.plan, self.place, offset, links, values, inputs);
    }
}
