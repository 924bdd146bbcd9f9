//! The shapes of types, by their names.

ghost use Rattle.std.specs.Option.{option_or};
ghost use Rattle.std.specs.Prelude.{◌≡◌, ℕ, List, IfOk, OnOk, map};
ghost use Rattle.tdf_lang_tree.specs.Views.{pure_global};
ghost use Rattle.tdf_stim.specs.Signals.{count_shape, shape_by, type_named};
ghost use Rattle.tdf_stim.specs.machine.Maps.{found_type, put, type_of};

use indexmap::IndexMap;
use std::alloc::Global;
use tdf_base::Memory;
use tdf_fixed::{Over, Quant};
use tdf_lang_tree::{FormatRef, Global1, Shape};

/// The shapes of types, each found by its name; of equal names the first stands.
#[derive(Drop)]
pub(crate) struct Types<'t> {
    map: IndexMap<&'t [u8], Shape>,
}

/// `fixed 16 16`
pub(crate) fn count_shape() -> Shape
    ensures { result ≡ count_shape }
{
    Shape {
        signed: true,
        wl: 16,
        iwl: 16,
        quant: Quant::Trn,
        over: Over::Wrap,
    }
}

impl<'t> Types<'t> {
    /// No type.
    fn new(alloc: Global) -> Types<'t>
        ensures { (name : List ℕ) → found_type result name ≡ None }
    {
        Types {
            map: IndexMap::new(alloc),
        }
    }

    /// The shape of the type that has this name.
    fn find(&self, name: &[u8]) -> Option<Shape>
        ensures { result ≡ found_type self.now name.now }
    {
        match self.map.get(name) {
            None => None,
            Some(shape) => Some(*shape),
        }
    }

    /// One type more, where its name is new.
    fn put(&mut self, name: &'t [u8], shape: Shape) -> Result<(), Memory>
        ensures { OnOk result ((other : List ℕ)
            → found_type self.new other ≡ put name.entry.now shape other (found_type self.old other)) }
    {
        match self.find(name) {
            Some(_) => Ok(()),
            None => {
                self.map.insert(name, shape)?;
                Ok(())
            }
        }
    }

    #[tactic(auto, using(crate::proofs::Maps::map_laws))]
    /// The type of a declaration, if it is one.
    fn add(&mut self, global: &'t Global1) -> Result<(), Memory>
        ensures { OnOk result ((other : List ℕ) → found_type self.new other
            ≡ option_or (found_type self.old other) (type_of other (pure_global global.entry.now))) }
    {
        match global {
            Global1::Shape(shape) => self.put(shape.name.as_bytes(), shape.shape),
            _ => Ok(()),
        }
    }

    /// The types among these declarations.
    ///
    /// # Errors
    /// Out of memory.
    pub(crate) fn of(alloc: Global, globals: &'t [Global1]) -> Result<Types<'t>, Memory>
        ensures { IfOk result (λ types. (name : List ℕ)
            → found_type types name ≡ type_named (map pure_global globals.entry.now) name) }
    {
        let mut types = Types::new(alloc);
        for global in globals {
            types.add(global)?;
        }
        Ok(types)
    }

    /// The shape that a format is.
    pub(crate) fn shape(&self, format: &FormatRef) -> Shape
        ensures { result ≡ shape_by (found_type self.now) format.now }
    {
        match format {
            FormatRef::Own(shape) => *shape,
            FormatRef::Named(name) => match self.find(name.as_bytes()) {
                Some(shape) => shape,
                None => count_shape(),
            },
        }
    }
}
