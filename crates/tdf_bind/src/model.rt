//! The flat model of a text.

ghost use Rattle.std.specs.Prelude.{◌≡◌, ◌<◌, length, map};
ghost use Rattle.tdf_bind_tables.specs.Actors.{cluster_of};
ghost use Rattle.tdf_bind_tables.specs.Ranges.{AreInRange, actor_path, edge_path};
ghost use Rattle.tdf_graph.specs.Clusters.{greatest};

use tdf_base::Resolution;
use tdf_bind_hierarchy::SharedPath;
use tdf_bind_tables::FlatTables;
use tdf_expr::Checked;

/// The flat model: its tables, its compiled bodies, and the unit of its times.
#[derive(Drop)]
pub struct Flat {
    /// All modules, ports, actors, edges, signals, blocks of processes, processes, events and traces.
    pub tables: FlatTables,
    /// The bodies of its blocks.
    pub checked: Checked,
    /// The unit of all times.
    pub resolution: Resolution,
}

impl Flat {
    /// The unit of all times: what one count of them stands for. It takes no memory.
    pub fn resolution(&self) -> Resolution
        ensures { result ≡ self.now.resolution }
    {
        self.resolution
    }

    /// How many clusters the model has. It takes no memory.
    pub fn cluster_count(&self) -> u32
        ensures { result ≡ greatest (map cluster_of self.now.tables.actors) }
    {
        self.tables.cluster_count()
    }

    /// The path of an actor: that of its module, or that of its port for a sampler or sink. It takes no memory.
    pub fn actor_path(&self, actor: u32) -> &SharedPath
        requires in_range { AreInRange self.now.tables }
        requires actor { actor < length self.now.tables.actors }
        ensures { result.now ≡ actor_path self.now.tables actor }
    {
        self.tables.actor_path(actor)
    }

    /// The path of an edge: that of the port that gives it. It takes no memory.
    pub fn edge_path(&self, edge: u32) -> &SharedPath
        requires in_range { AreInRange self.now.tables }
        requires edge { edge < length self.now.tables.edges }
        ensures { result.now ≡ edge_path self.now.tables edge }
    {
        self.tables.edge_path(edge)
    }
}
