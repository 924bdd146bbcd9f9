//! Blocks whose names are resolved to numbers.

use std::marker::Model;
use tdf_lang_tree::{Format, Name, Raw};

/// What a port of an instance is bound to, in the composite around the instance.
#[derive(Clone, Copy, Debug)]
pub enum Target {
    /// A signal of that composite, by its place among the signals, counted from 0.
    Own(usize),
    /// A port of that composite, by its place among the ports, counted from 0.
    Outer(usize),
}

/// An instance in a composite.
#[derive(Drop)]
pub struct Instance {
    /// Its name in the composite.
    pub name: Name,
    /// The place of its block in the list of all blocks.
    pub block: usize,
    /// What each of its ports is bound to, in the order of the block's ports.
    pub targets: Vec<Target>,
}

impl Model for Instance {
    ghost use Rattle.tdf_bind_hierarchy.specs.Blocks.{InstanceOf};

    ghost Value = { InstanceOf };

    ghost view = { λ a. record { name = a.name; block = a.block; targets = a.targets.items } };
}

/// A signal that a composite declares.
#[derive(Drop)]
pub struct SignalLine {
    /// Whether it is an event signal; else it is one of samples.
    pub event: bool,
    /// Its name in the composite.
    pub name: Name,
    /// The format of its values.
    pub format: Format,
    /// Its first value; 0 for a signal of samples.
    pub start: Raw,
}

/// A block: a module, a block of processes or a composite. The first two have neither signals nor instances.
#[derive(Drop)]
pub struct Block {
    /// How many ports it has.
    pub ports: usize,
    /// The signals that it declares, in order.
    pub signals: Vec<SignalLine>,
    /// Its instances, in order.
    pub instances: Vec<Instance>,
}

impl Model for Block {
    ghost use Rattle.tdf_bind_hierarchy.specs.Blocks.{BlockOf};

    ghost Value = { BlockOf };

    ghost view = { λ a. record { ports = a.ports; signals = a.signals.items; instances = a.instances.items } };
}
