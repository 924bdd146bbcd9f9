//! The names of one name space.

ghost use Rattle.std.specs.Prelude.{◌≡◌, [], not, IfOk, OnOk};
ghost use Rattle.tdf_expr_names.specs.Names.{has, with_declared};

use indexmap::IndexSet;
use std::alloc::{AllocError, Global};
use std::marker::Model;

/// The names of one name space in the order of their declarations, seen as the list of them.
#[derive(Drop)]
pub(crate) struct Table<'t> {
    set: IndexSet<&'t [u8]>,
}

impl<'t> Model for Table<'t> {
    ghost use Rattle.std.specs.Prelude.{List, ℕ, map};

    ghost Value = { List (List ℕ) };

    ghost view = { λ a. map (λ k. k.now) a.set.keys };
}

impl<'t> Table<'t> {
    /// A name space without a name.
    pub(crate) fn new(alloc: Global) -> Table<'t>
        ensures { result ≡ [] }
    {
        Table {
            set: IndexSet::new(alloc),
        }
    }

    /// Adds a name, and tells whether it is new.
    ///
    /// # Errors
    /// Out of memory.
    pub(crate) fn add(&mut self, name: &'t [u8]) -> Result<bool, AllocError>
        ensures new { IfOk result (λ new. new ≡ not (has self.old name.entry.now)) }
        ensures names { OnOk result (self.new ≡ with_declared self.old name.entry.now) }
    {
        let (_, new) = self.set.insert_full(name)?;
        Ok(new)
    }

    /// Whether this is a name of the name space.
    pub(crate) fn has(&self, name: &[u8]) -> bool
        ensures { result ≡ has self.now name.now }
    {
        self.set.contains(name)
    }
}
