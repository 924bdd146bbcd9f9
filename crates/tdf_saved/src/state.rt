//! The data of a snapshot. Each number of a sample or a cell is a whole number of the least steps of its format.

use std::marker::Model;

/// The state of a module.
#[derive(Drop)]
pub struct ModuleState {
    /// Whether it accepts changes of attributes.
    pub accept: bool,
    /// The rates of its ports, in order of declaration.
    pub rates: Vec<u32>,
    /// Its timestep, then one for each port, 0 where none is assigned.
    pub steps: Vec<u64>,
    /// Its variables and the members of its arrays, in order of declaration.
    pub cells: Vec<i128>,
}

impl Model for ModuleState {
    ghost use Rattle.tdf_saved.specs.State.{ModuleStateOf};

    ghost Value = { ModuleStateOf };

    ghost view = { λ a. record {
      accept = a.accept;
      rates = a.rates.items;
      steps = a.steps.items;
      cells = a.cells.items;
    } };
}

/// The state of a cluster.
#[derive(Drop)]
pub struct ClusterState {
    /// When its period began.
    pub start: u64,
    /// Its modules, by number.
    pub modules: Vec<ModuleState>,
    /// The samples of each of its edges, from the front.
    pub edges: Vec<Vec<i128>>,
}

impl Model for ClusterState {
    ghost use Rattle.std.specs.Prelude.{map};
    ghost use Rattle.tdf_saved.specs.State.{ClusterStateOf};

    ghost Value = { ClusterStateOf };

    ghost view = { λ a. record {
      start = a.start;
      modules = a.modules.items;
      edges = map (λ e. e.items) a.edges.items;
    } };
}

/// A notification that is still to come.
#[derive(Clone, Copy, Debug, Drop, PartialEq, Eq)]
pub struct Pending {
    /// The number of the event.
    pub event: u32,
    /// Its time.
    pub time: u64,
}

/// The state of the event kernel.
#[derive(Drop)]
pub struct KernelState {
    /// The value of each event signal.
    pub values: Vec<i128>,
    /// The cells of each instance of a block of processes.
    pub blocks: Vec<Vec<i128>>,
    /// The notifications that are still to come.
    pub pending: Vec<Pending>,
}

impl Model for KernelState {
    ghost use Rattle.std.specs.Prelude.{map};
    ghost use Rattle.tdf_saved.specs.State.{KernelStateOf};

    ghost Value = { KernelStateOf };

    ghost view = { λ a. record {
      values = a.values.items;
      blocks = map (λ b. b.items) a.blocks.items;
      pending = a.pending.items;
    } };
}

/// A number and its time.
#[derive(Clone, Copy, Debug, Drop, PartialEq, Eq)]
pub struct Stamp {
    /// The time.
    pub time: u64,
    /// The number.
    pub num: i128,
}

/// The state of a column of the trace.
#[derive(Drop)]
pub struct ColumnState {
    /// What it shows before all else.
    pub carry: Option<i128>,
    /// Its numbers at their times.
    pub samples: Vec<Stamp>,
    /// Its numbers whose times aren't known yet.
    pub later: Vec<i128>,
}

impl Model for ColumnState {
    ghost use Rattle.tdf_saved.specs.State.{ColumnStateOf};

    ghost Value = { ColumnStateOf };

    ghost view = { λ a. record {
      carry = a.carry;
      samples = a.samples.items;
      later = a.later.items;
    } };
}

/// What a run holds at a time.
#[derive(Drop)]
pub struct Snapshot {
    /// Whether the trace is a value change dump, and no table.
    pub vcd: bool,
    /// The time.
    pub time: u64,
    /// The turns that were used.
    pub used: u64,
    /// The most turns.
    pub budget: u64,
    /// The clusters, by number.
    pub clusters: Vec<ClusterState>,
    /// The event kernel.
    pub kernel: KernelState,
    /// The columns of the trace.
    pub columns: Vec<ColumnState>,
}

impl Model for Snapshot {
    ghost use Rattle.tdf_saved.specs.State.{SnapshotOf};

    ghost Value = { SnapshotOf };

    ghost view = { λ a. record {
      vcd = a.vcd;
      time = a.time;
      used = a.used;
      budget = a.budget;
      clusters = a.clusters.items;
      kernel = a.kernel;
      columns = a.columns.items;
    } };
}
