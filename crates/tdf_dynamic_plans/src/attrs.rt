//! The attributes of the modules of a cluster.

use crate::known::KnownPlans;
use std::marker::Model;

/// A module, the numbers of its ports, and their attributes.
#[derive(Drop)]
pub struct ModuleAttrs {
    /// The number of the module.
    pub number: u32,
    /// The numbers of its ports, in order.
    pub ports: Vec<u32>,
    /// Whether it accepts changes of attributes.
    pub accepts: bool,
    /// The values of its rate variables.
    pub rates: Vec<u32>,
    /// The timesteps that are assigned, in counts of the model's resolution: its own, then its ports'; 0 where none is.
    pub steps: Vec<u64>,
}

impl Model for ModuleAttrs {
    ghost use Rattle.tdf_dynamic_plans.specs.Attributes.{AttrsOf};

    ghost Value = { AttrsOf };

    ghost view = { λ a. record {
      number = a.number;
      ports = a.ports.items;
      accepts = a.accepts;
      rates = a.rates.items;
      steps = a.steps.items;
    } };
}

/// The attributes of a cluster, by module: its accept flags, the values of its rate variables, and its assigned timesteps.
#[derive(Drop)]
pub struct Attrs {
    /// The modules of the cluster with their attributes, in order.
    pub rows: Vec<ModuleAttrs>,
    /// The plans of the cluster that were made last.
    pub known: KnownPlans,
    /// The rows of an earlier table, whose memory the next one takes.
    pub spare: Option<Vec<ModuleAttrs>>,
}

impl Model for Attrs {
    ghost use Rattle.tdf_dynamic_plans.specs.Known.{AttrsTable};

    ghost Value = { AttrsTable };

    ghost view = { λ a. record { rows = a.rows.items; known = a.known } };
}

ghost use Rattle.std.specs.Prelude.{◌≡◌, ◌<◌, length, slice_index};
ghost use Rattle.tdf_dynamic_plans.specs.Attributes.{table_rates, table_steps, table_accepts};

impl Attrs {
    /// The table of these modules, with the plans that are known. It takes no memory.
    pub fn new(rows: Vec<ModuleAttrs>, known: KnownPlans) -> Attrs
        ensures table { result ≡ record { rows = rows.items; known = known } }
    {
        Attrs {
            rows,
            known,
            spare: None,
        }
    }

    /// Keeps the rows of a table that is left: the next one takes their memory.
    pub fn recycle(&mut self, left: Attrs)
        ensures same { self.new ≡ self.old }
    {
        let Attrs { rows, known, spare } = left;
        drop(known);
        drop(spare);
        self.spare = Some(rows);
    }

    /// How often a plan was made for this cluster, the first one included; a number that is the greatest stays.
    pub fn plannings(&self) -> u64
        ensures made { result ≡ self.now.known.made }
    {
        self.known.plannings()
    }

    /// The modules of the cluster with their attributes, in order.
    pub fn rows(&self) -> &[ModuleAttrs]
        ensures rows { result.now ≡ self.now.rows }
    {
        &self.rows
    }

    /// The value of a rate variable of a module. The module is told by its place among those of the cluster, the variable by its
    /// place among those of the module's block.
    pub fn rate(&self, module: u32, i: u32) -> u32
        requires row { «module» < length self.now.rows }
        requires rate { i < length (table_rates self.now.rows «module») }
        ensures { result ≡ slice_index (table_rates self.now.rows «module») i }
    {
        let row = &self.rows[module as usize];
        row.rates[i as usize]
    }

    /// An assigned timestep of a module, in counts of the model's resolution: its own at place 0, that of its port `i` at place
    /// `1 + i`; 0 where none is assigned.
    pub fn step(&self, module: u32, place: u32) -> u64
        requires row { «module» < length self.now.rows }
        requires step { place < length (table_steps self.now.rows «module») }
        ensures { result ≡ slice_index (table_steps self.now.rows «module») place }
    {
        let row = &self.rows[module as usize];
        row.steps[place as usize]
    }

    /// Whether a module accepts changes of attributes.
    pub fn accepts(&self, module: u32) -> bool
        requires { «module» < length self.now.rows }
        ensures { result ≡ table_accepts self.now.rows «module» }
    {
        let row = &self.rows[module as usize];
        row.accepts
    }
}
