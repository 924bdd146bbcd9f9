//! Which ports of which instances are bound.

ghost use Rattle.std.specs.Prelude.{◌≡◌, [], OnOk};
ghost use Rattle.tdf_bind_ports.specs.machine.Pairs.{has_pair, with_pair};

use indexmap::IndexSet;
use std::alloc::Global;
use std::marker::Model;
use tdf_base::Memory;

/// The names of instances with those of their ports that `bind` lines have bound.
#[derive(Drop)]
pub struct Pairs<'t> {
    set: IndexSet<(&'t [u8], &'t [u8])>,
}

impl<'t> Model for Pairs<'t> {
    ghost use Rattle.std.specs.Prelude.{List, ℕ, map};

    ghost Value = { List (List ℕ × List ℕ) };

    ghost view = { λ a. map (λ k. (k.0.now, k.1.now)) a.set.keys };
}

impl<'t> Pairs<'t> {
    pub fn new(alloc: Global) -> Pairs<'t>
        ensures { result ≡ [] }
    {
        Pairs {
            set: IndexSet::new(alloc),
        }
    }

    /// One pair more.
    pub fn add(&mut self, instance: &'t [u8], port: &'t [u8]) -> Result<(), Memory>
        ensures { OnOk result (self.new ≡ with_pair instance.entry.now port.entry.now self.old) }
    {
        self.set.insert_full((instance, port))?;
        Ok(())
    }

    pub fn has(&self, instance: &[u8], port: &[u8]) -> bool
        ensures { result ≡ has_pair self.now instance.now port.now }
    {
        self.set.contains(&(instance, port))
    }
}
