//! The instances of the modules of a cluster.

use std::marker::Model;
use tdf_expr::{Frame, Ports};

/// An instance of a module.
#[derive(Drop)]
pub struct ModuleFrame {
    /// The values of its variables and of its rate variables.
    pub frame: Frame,
    /// Its ports.
    pub ports: Ports,
}

/// An instance of a module in a box: it goes from list to list as a pointer.
#[derive(Drop)]
pub struct Instance {
    pub boxed: Box<ModuleFrame>,
}

impl Model for Instance {
    ghost use Rattle.tdf_dynamic.specs.declared.frames.ModuleFrame.{ModuleFrame};

    ghost Value = { ModuleFrame };

    ghost view = { λ a. a.boxed.value };
}

/// The instances of the modules of a cluster, in the order of its table.
#[derive(Drop)]
pub struct Frames {
    /// One for each module.
    pub modules: Vec<Instance>,
}
