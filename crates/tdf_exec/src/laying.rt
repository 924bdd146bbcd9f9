//! What the actors of a model need at a start, laid out once for all clusters.

use crate::tracing::TracedPorts;
use std::marker::Model;
use std::rc::Rc;
use tdf_cluster_plans::TableGroups;
use tdf_exec_layout::ActorWires;

/// What the actors of a model need at a start: their edges, by actor, and the ports whose signals are traced, by module. Each
/// cluster takes what is its own, which it finds by the numbers of its things.
#[derive(Drop)]
pub struct Layout {
    pub(crate) wires: Vec<ActorWires>,
    pub(crate) traced: Vec<TracedPorts>,
    pub(crate) groups: TableGroups,
    /// The place of each edge and of each actor among those of its own cluster, which all clusters share.
    pub(crate) edge_places: Rc<Vec<u32>>,
    pub(crate) actor_places: Rc<Vec<u32>>,
}

impl Model for Layout {
    ghost use Rattle.tdf_exec.specs.Layout.{LayoutOf};

    ghost Value = { LayoutOf };

    ghost view = { λ a. record { wires = a.wires.items; traced = a.traced.items; groups = a.groups } };
}

ghost use Rattle.std.specs.Prelude.{ℕ, IfOk};
ghost use Rattle.tdf_cluster_plans.specs.Groups.{AreTableGroups};
ghost use Rattle.tdf_exec.specs.Layout.{HasLayoutOf};
ghost use Rattle.tdf_exec.specs.Starts.{IsSoundFlat};

use crate::starting::law_laid;
use crate::tracing::traced_rows;
use std::alloc::Global;
use tdf_base::Memory;
use tdf_bind::Flat;
use tdf_exec_layout::all_wires;

/// The numbers of the actors, edges and ports of each cluster of a flat model.
///
/// # Errors
/// Out of memory.
pub fn cluster_groups(alloc: Global, flat: &Flat) -> Result<TableGroups, Memory>
    requires sound { IsSoundFlat flat.now }
    ensures { IfOk result (AreTableGroups flat.now.tables) }
{
    law_laid();
    TableGroups::of(alloc, &flat.tables, flat.cluster_count())
}

impl Layout {
    /// What the actors of a flat model need, by some few looks at each actor, edge and port; nothing is taken.
    ///
    /// # Errors
    /// Out of memory.
    pub fn new(alloc: Global, flat: &Flat) -> Result<Layout, Memory>
        requires sound { IsSoundFlat flat.now }
        ensures { IfOk result (λ layout. (cluster : ℕ) → HasLayoutOf flat.now cluster layout) }
    {
        law_laid();
        let traced = traced_rows(alloc, flat)?;
        let wires = all_wires(alloc, &flat.tables)?;
        let groups = cluster_groups(alloc, flat)?;
        let edge_places = groups.edge_places(alloc, flat.tables.edges.len())?;
        let actor_places = groups.actor_places(alloc, flat.tables.actors.len())?;
        Ok(Layout {
            wires,
            traced,
            groups,
            edge_places,
            actor_places,
        })
    }
}
