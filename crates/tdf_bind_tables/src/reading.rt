//! What is read of a flat model: the number of its clusters, and the paths of actors and edges.

ghost use Rattle.std.specs.Prelude.{◌≡◌, ◌<◌, length, map};
ghost use Rattle.tdf_bind_tables.specs.Actors.{cluster_of};
ghost use Rattle.tdf_bind_tables.specs.Ranges.{IsActorPort, AreInRange, row_path, actor_path, edge_path};
ghost use Rattle.tdf_graph.specs.Clusters.{greatest};

use crate::actors::ActorRow;
use crate::flat::{FlatTables, cluster_count};
use tdf_bind_connections::{ModuleRow, PortRow};
use tdf_bind_hierarchy::SharedPath;
use tdf_graph::Actor;

fn row_path<'f>(modules: &'f [ModuleRow], ports: &'f [PortRow], row: ActorRow) -> &'f SharedPath
    requires own { row.«module» < length modules.now }
    requires port { IsActorPort (length ports.now) row.kind row.port }
    ensures { result.now ≡ row_path modules.now ports.now row }
{
    match row.kind {
        Actor::Module => &modules[row.module as usize].path,
        Actor::Sampler => &ports[row.port as usize].path,
        Actor::Sink => &ports[row.port as usize].path,
    }
}

impl FlatTables {
    /// How many clusters the model has.
    pub fn cluster_count(&self) -> u32
        ensures { result ≡ greatest (map cluster_of self.now.actors) }
    {
        cluster_count(&self.actors)
    }

    /// The path of an actor: that of its module, or that of its port for a sampler or sink.
    pub fn actor_path(&self, actor: u32) -> &SharedPath
        requires in_range { AreInRange self.now }
        requires actor { actor < length self.now.actors }
        ensures { result.now ≡ actor_path self.now actor }
    {
        row_path(&self.modules, &self.ports, self.actors[actor as usize])
    }

    /// The path of an edge: that of the port that gives it.
    pub fn edge_path(&self, edge: u32) -> &SharedPath
        requires in_range { AreInRange self.now }
        requires edge { edge < length self.now.edges }
        ensures { result.now ≡ edge_path self.now edge }
    {
        &self.ports[self.edges[edge as usize].port as usize].path
    }
}
