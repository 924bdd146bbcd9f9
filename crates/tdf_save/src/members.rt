//! What the text of a snapshot needs of a model: the paths of its parts, and how many numbers each has.

use std::marker::Model;

/// A module.
#[derive(Drop)]
pub struct ModuleMembers {
    /// Its path.
    pub path: Vec<u8>,
    /// How many rates it has: one for each of its rate variables.
    pub rates: usize,
    /// How many timesteps may be assigned to it.
    pub steps: usize,
    /// How many cells its variables and arrays have.
    pub cells: usize,
}

impl Model for ModuleMembers {
    ghost use Rattle.tdf_save.specs.Members.{ModuleMembersOf};

    ghost Value = { ModuleMembersOf };

    ghost view = { λ a. record { path = a.path.items; rates = a.rates; steps = a.steps; cells = a.cells } };
}

/// A cluster.
#[derive(Drop)]
pub struct ClusterMembers {
    /// Its number, from 1.
    pub number: u32,
    /// Its modules, by number.
    pub modules: Vec<ModuleMembers>,
    /// The paths of its edges, by number.
    pub edges: Vec<Vec<u8>>,
}

impl Model for ClusterMembers {
    ghost use Rattle.std.specs.Prelude.{map};
    ghost use Rattle.tdf_save.specs.Members.{ClusterMembersOf};

    ghost Value = { ClusterMembersOf };

    ghost view = { λ a. record {
      number = a.number;
      modules = a.modules.items;
      edges = map (λ e. e.items) a.edges.items;
    } };
}

/// An instance of a block of processes.
#[derive(Drop)]
pub struct BlockMembers {
    /// Its path.
    pub path: Vec<u8>,
    /// How many cells it has.
    pub cells: usize,
}

impl Model for BlockMembers {
    ghost use Rattle.tdf_save.specs.Members.{BlockMembersOf};

    ghost Value = { BlockMembersOf };

    ghost view = { λ a. record { path = a.path.items; cells = a.cells } };
}

/// All parts of a model that a snapshot speaks of.
#[derive(Drop)]
pub struct Members {
    /// The clusters, by number.
    pub clusters: Vec<ClusterMembers>,
    /// The paths of the event signals.
    pub values: Vec<Vec<u8>>,
    /// The instances of blocks of processes.
    pub blocks: Vec<BlockMembers>,
    /// The events: the path of the block, a space, and the event's own name.
    pub events: Vec<Vec<u8>>,
    /// The labels of the columns of the trace.
    pub columns: Vec<Vec<u8>>,
}

impl Model for Members {
    ghost use Rattle.std.specs.Prelude.{map};
    ghost use Rattle.tdf_save.specs.Members.{MembersOf};

    ghost Value = { MembersOf };

    ghost view = { λ a. record {
      clusters = a.clusters.items;
      values = map (λ v. v.items) a.values.items;
      blocks = a.blocks.items;
      events = map (λ e. e.items) a.events.items;
      columns = map (λ c. c.items) a.columns.items;
    } };
}
