//! What each block is, with the data of its ports: plain data, in the order in which the walk numbers blocks.

ghost use Rattle.std.specs.Prelude.{◌≡◌, IfOk};

use std::alloc::Global;
use std::marker::Model;
use std::rc::Rc;
use tdf_base::Memory;
use tdf_lang_tree::{Name, PortKind, Raw};

/// A rate in samples: a number, or a number times the value of a rate variable of the module.
#[derive(Clone, Copy, Debug, PartialEq, Eq)]
pub struct Rate {
    /// The number.
    pub times: u32,
    /// The rate variable, by its place among those of the block.
    pub var: Option<u32>,
}

/// The initial samples of a port that are given, by rising place; those at other places are 0.
/// The instances of a block share them.
#[derive(Drop)]
pub struct Initials {
    list: Rc<Vec<(u32, Raw)>>,
}

impl Model for Initials {
    ghost use Rattle.std.specs.Prelude.{List, ℕ};
    ghost use Rattle.tdf_lang_tree.specs.Below.{Raw};

    ghost Value = { List (ℕ × Raw) };

    ghost view = { λ a. a.list.value.items };
}

impl Initials {
    /// These initial samples.
    ///
    /// # Errors
    /// Out of memory.
    pub fn new(alloc: Global, list: Vec<(u32, Raw)>) -> Result<Initials, Memory>
        ensures { IfOk result (λ initials. initials ≡ list.items) }
    {
        Ok(Initials {
            list: Rc::new(alloc, list)?,
        })
    }

    /// The same samples, without a copy of the list.
    ///
    /// # Errors
    /// Out of memory.
    pub fn shared(&self) -> Result<Initials, Memory>
        ensures { IfOk result (λ initials. initials ≡ self.now) }
    {
        Ok(Initials {
            list: self.list.clone()?,
        })
    }

    /// The samples with their places.
    pub fn as_slice(&self) -> &[(u32, Raw)]
        ensures { result.now ≡ self.now }
    {
        self.list.as_slice()
    }
}

/// A port of a module's block.
#[derive(Drop)]
pub struct PortData {
    /// Its name.
    pub name: Name,
    /// Whether it takes or gives samples, and whether of a signal of samples or of an event signal.
    pub kind: PortKind,
    /// Its rate at the start.
    pub rate: Rate,
    /// Its delay in samples.
    pub delay: u32,
    /// Its timestep, 0 where none is assigned.
    pub step: u64,
    /// Its initial samples.
    pub initials: Initials,
}

/// The block of a module.
#[derive(Drop)]
pub struct ModuleData {
    /// Its place among the blocks of modules and of processes in the text.
    pub block: u32,
    /// Whether it changes attributes.
    pub changes: bool,
    /// Whether it accepts changes of attributes.
    pub accepts: bool,
    /// Its timestep, 0 where none is assigned.
    pub step: u64,
    /// Its ports, in order.
    pub ports: Vec<PortData>,
}

impl Model for ModuleData {
    ghost use Rattle.tdf_bind_connections.specs.Roles.{ModuleRole};

    ghost Value = { ModuleRole };

    ghost view = { λ a. record {
      block = a.block;
      changes = a.changes;
      accepts = a.accepts;
      step = a.step;
      ports = a.ports.items;
    } };
}

/// What a block is.
#[derive(Drop)]
pub enum Role {
    /// A module of timed data flow.
    Module(ModuleData),
    /// A block of processes.
    Processes(ProcessData),
    /// A composite.
    Composite,
}

/// A process of a block, by the ports and events that it is sensitive to.
#[derive(Drop)]
pub struct ProcessLine {
    /// Whether it runs at the start.
    pub starts: bool,
    /// The ports that it is sensitive to, by their places in the block.
    pub ports: Vec<usize>,
    /// The events that it is sensitive to, by their places in the block.
    pub events: Vec<usize>,
}

impl Model for ProcessLine {
    ghost use Rattle.tdf_bind_connections.specs.Roles.{ProcessOf};

    ghost Value = { ProcessOf };

    ghost view = { λ a. record { starts = a.starts; ports = a.ports.items; events = a.events.items } };
}

/// A block of processes.
#[derive(Drop)]
pub struct ProcessData {
    /// Its place among the blocks of modules and of processes in the text.
    pub block: u32,
    /// The kinds of its ports, in order.
    pub ports: Vec<PortKind>,
    /// Its processes, in order.
    pub processes: Vec<ProcessLine>,
    /// The names of its events, in order.
    pub events: Vec<Name>,
}

impl Model for ProcessData {
    ghost use Rattle.tdf_bind_connections.specs.Roles.{ProcessesOf};

    ghost Value = { ProcessesOf };

    ghost view = { λ a. record {
      block = a.block;
      ports = a.ports.items;
      processes = a.processes.items;
      events = a.events.items;
    } };
}
