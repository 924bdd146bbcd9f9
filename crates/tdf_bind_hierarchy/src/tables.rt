//! The tables of the signals and of the instances of a model.

ghost use Rattle.std.specs.Prelude.{◌≡◌, OnOk, IfOk, length};
ghost use Rattle.tdf_bind_hierarchy.specs.Tables.{RowOf, table};
ghost use Rattle.tdf_bind_hierarchy.specs.machine.Walk.{no_tables, next_number, put_in, put_signal, put_row};

use crate::paths::SharedPath;
use std::alloc::Global;
use std::marker::Model;
use tdf_base::Memory;
use tdf_lang_tree::{Format, Raw};

/// A signal by its number: signals of samples and event signals are numbered apart, each from 0, in preorder.
#[derive(Clone, Copy, Debug, Default, PartialEq, Eq)]
pub struct SignalNumber {
    /// Whether it is an event signal; else it is one of samples.
    pub event: bool,
    /// Its place among the signals of its kind.
    pub number: usize,
}

/// A signal of a model.
#[derive(Drop)]
pub struct Signal {
    /// Whether it is an event signal; else it is one of samples.
    pub event: bool,
    /// Its path.
    pub path: SharedPath,
    /// The format of its values.
    pub format: Format,
    /// Its first value; 0 for a signal of samples.
    pub start: Raw,
}

/// An instance of a model.
#[derive(Drop)]
pub struct InstanceRow {
    /// Its path.
    pub path: SharedPath,
    /// The place of its block in the list of all blocks.
    pub block: usize,
    /// The signal that each of its ports reaches, in the order of the block's ports.
    pub signals: Vec<SignalNumber>,
}

impl Model for InstanceRow {
    ghost use Rattle.tdf_bind_hierarchy.specs.Tables.{RowOf};

    ghost Value = { RowOf };

    ghost view = { λ a. record { path = a.path; block = a.block; signals = a.signals.items } };
}

/// All signals and instances of a model.
#[derive(Drop)]
pub struct Tables {
    /// The signals of samples, in preorder.
    pub signals: Vec<Signal>,
    /// The event signals, in preorder.
    pub event_signals: Vec<Signal>,
    /// The numbers of the signals of both kinds, in preorder.
    pub order: Vec<SignalNumber>,
    /// The instances of modules, of blocks of processes and of composites, in preorder.
    pub instances: Vec<InstanceRow>,
}

impl Model for Tables {
    ghost use Rattle.tdf_bind_hierarchy.specs.Tables.{TablesOf};

    ghost Value = { TablesOf };

    ghost view = { λ a. record {
      signals = a.signals.items;
      event_signals = a.event_signals.items;
      order = a.order.items;
      instances = a.instances.items;
    } };
}

/// Empty tables.
pub(crate) fn no_tables(alloc: Global) -> Tables
    ensures { result ≡ no_tables }
{
    Tables {
        signals: Vec::new(alloc),
        event_signals: Vec::new(alloc),
        order: Vec::new(alloc),
        instances: Vec::new(alloc),
    }
}

impl Tables {
    /// The number that the next signal of a kind gets.
    fn next_number(&self, event: bool) -> SignalNumber
        ensures { result ≡ next_number event self.now }
    {
        SignalNumber {
            event,
            number: self.count(event),
        }
    }

    /// How many signals of a kind there are.
    fn count(&self, event: bool) -> usize
        ensures { result ≡ length (table event self.now) }
    {
        if event {
            return self.event_signals.len();
        }
        self.signals.len()
    }

    /// One signal more in the table of its kind.
    fn put_in(&mut self, event: bool, signal: Signal) -> Result<(), Memory>
        ensures { OnOk result (self.new ≡ put_in event signal self.old) }
    {
        if event {
            self.event_signals.push(signal)?;
            return Ok(());
        }
        self.signals.push(signal)?;
        Ok(())
    }

    /// One signal more, and its number.
    pub(crate) fn put_signal(&mut self, signal: Signal) -> Result<SignalNumber, Memory>
        ensures number { IfOk result (λ number. number ≡ next_number signal.event self.old) }
        ensures tables { OnOk result (self.new ≡ put_signal signal self.old) }
    {
        let number = self.next_number(signal.event);
        self.order.push(number)?;
        self.put_in(signal.event, signal)?;
        Ok(number)
    }

    /// One instance more.
    pub(crate) fn put_row(&mut self, row: InstanceRow) -> Result<(), Memory>
        ensures { OnOk result (self.new ≡ put_row row self.old) }
    {
        self.instances.push(row)?;
        Ok(())
    }
}
