//! Which signal each sampler and sink has.

ghost use Rattle.std.specs.Prelude.{◌≡◌, ◌++◌, [], ◌∷◌, IfSome, OnErr, OnOk};
ghost use Rattle.tdf_convert.specs.Links.{AreBefore, AreLinks, AreRising, link_of, samplers_in};

use std::alloc::Global;
use tdf_base::Memory;

/// A sampler or a sink of a cluster, and its signal.
#[derive(Clone, Copy, Debug, PartialEq, Eq)]
pub struct Link {
    /// The number of the actor.
    pub actor: u32,
    /// The number of its signal among those of events.
    pub signal: u32,
    /// Whether it is a sampler; a sink otherwise.
    pub sampler: bool,
    /// How many samplers come before it in the list: for a sampler, its place among the samplers of the cluster.
    pub place: u32,
}

/// The samplers and sinks of a cluster, by rising actor.
#[derive(Drop)]
pub struct Links {
    pub list: Vec<Link>,
}

/// How many samplers there are in these links; none where the number is above the greatest.
fn samplers(links: &[Link]) -> Option<u32>
    requires links { AreLinks links.now (samplers_in links.now) }
    ensures { IfSome result (λ n. n ≡ samplers_in links.now) }
{
    if links.is_empty() {
        return Some(0);
    }
    let last = links[links.len() - 1];
    if !last.sampler {
        return Some(last.place);
    }
    if last.place == u32::MAX {
        return None;
    }
    Some(last.place + 1)
}

impl Links {
    /// No links.
    pub fn new(alloc: Global) -> Links
        ensures { result.list.items ≡ [] }
    {
        Links {
            list: Vec::new(alloc),
        }
    }

    /// Appends the link of an actor that comes after all others.
    ///
    /// # Errors
    /// Out of memory, also where there would be 2^32 samplers or more; then no link is added.
    pub fn add(&mut self, actor: u32, signal: u32, sampler: bool) -> Result<(), Memory>
        requires links { AreLinks self.old.list.items (samplers_in self.old.list.items) }
        requires order { AreBefore actor self.old.list.items }
        ensures added { OnOk result (self.new.list.items ≡ self.old.list.items ++ record {
          actor = actor;
          signal = signal;
          sampler = sampler;
          place = samplers_in self.old.list.items;
        } ∷ []) }
        ensures links { OnOk result (AreLinks self.new.list.items (samplers_in self.new.list.items)) }
        ensures kept { OnErr result (self.new.list.items ≡ self.old.list.items) }
    {
        let Some(place) = samplers(&self.list) else {
            return Err(Memory);
        };
        self.list.push(Link {
            actor,
            signal,
            sampler,
            place,
        })?;
        Ok(())
    }
}

/// The link of an actor, found by halving.
pub(crate) fn link_of(links: &[Link], actor: u32) -> Option<Link>
    requires rising { AreRising links.now }
    ensures { result ≡ link_of links.now actor }
{
    let at = links.partition_point(|link| link.actor < actor);
    if at < links.len() && links[at].actor == actor {
        return Some(links[at]);
    }
    None
}
