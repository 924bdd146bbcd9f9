//! Names in order, each found by a map.

ghost use Rattle.std.specs.Prelude.{◌≡◌, ◌∷◌, [], ◌++◌, OnOk};
ghost use Rattle.tdf_expr_symbols.specs.Names.{place_in};

use indexmap::IndexMap;
use std::alloc::Global;
use std::marker::Model;
use tdf_base::Memory;

/// Names in the order of their declarations; each is found by a map.
#[derive(Drop)]
pub struct Index<'t> {
    names: Vec<&'t [u8]>,
    places: IndexMap<&'t [u8], usize>,
}

impl<'t> Model for Index<'t> {
    ghost use Rattle.std.specs.Prelude.{List, ℕ, map};
    ghost use Rattle.tdf_bind_ports.specs.machine.Index.{Finds};

    ghost Value = { List (List ℕ) };

    ghost view = { λ a. map (λ n. n.now) a.names.items };

    ghost invariant = { λ a. Finds a.places (map (λ n. n.now) a.names.items) };
}

impl<'t> Index<'t> {
    /// No names. It takes no memory.
    pub fn new(alloc: Global) -> Index<'t>
        ensures { result ≡ [] }
    {
        Index {
            names: Vec::new(alloc),
            places: IndexMap::new(alloc),
        }
    }

    /// One name more.
    ///
    /// # Errors
    /// Out of memory.
    pub fn add(&mut self, name: &'t [u8]) -> Result<(), Memory>
        ensures { OnOk result (self.new ≡ self.old ++ name.entry.now ∷ []) }
    {
        let known = self.place(name);
        let place = self.names.len();
        self.names.push(name)?;
        match known {
            Some(_) => Ok(()),
            None => match self.places.insert(name, place) {
                Ok(_) => Ok(()),
                Err(refused) => {
                    drop(refused);
                    self.names.pop();
                    Err(Memory)
                }
            },
        }
    }

    /// The place of the first of this name.
    pub fn place(&self, name: &[u8]) -> Option<usize>
        ensures { result ≡ place_in self.now name.now }
    {
        match self.places.get(name) {
            None => None,
            Some(place) => Some(*place),
        }
    }
}
