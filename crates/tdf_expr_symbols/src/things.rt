//! What names stand for, and name spaces.

ghost use Rattle.std.specs.Option.{option_map};
ghost use Rattle.std.specs.Prelude.{◌≡◌, Some, IfOk, OnOk, length, slice_get};
ghost use Rattle.tdf_expr_symbols.specs.Names.{kind_of, shape_of, no_names, with_name, place_of, thing_of, names_changed, at_rate, at_delay};
ghost use Rattle.tdf_expr_symbols.specs.Seen.{seen};

use crate::kinds::Kind;
use indexmap::IndexSet;
use std::alloc::Global;
use std::marker::Model;
use tdf_base::Memory;
use tdf_lang_tree::{Limit, Lit, PortKind, Shape};

/// What a name stands for. A format is there where its name is that of a type.
#[derive(Clone, Copy)]
pub enum Thing<'t> {
    /// A constant, with its value.
    Const(Option<Shape>, &'t Lit),
    /// A state variable, with its starting value.
    Var(Option<Shape>, &'t Lit),
    /// An array, with its length and its starting values.
    Array(Option<Shape>, u64, &'t [Lit]),
    /// A port, with its rate (1 where no line says one) and its delay in samples.
    Port(PortKind, Option<Shape>, Option<&'t Limit>, u64),
    /// A rate variable: its least, greatest and starting value.
    RateVar(u64, u64, u64),
    Event,
    Signal(Option<Shape>),
    DeSignal(Option<Shape>, &'t Lit),
    Instance,
    /// A loop variable: it runs from a number up to and not including a limit.
    Loop(u64, &'t Limit),
    TypeName(Shape),
    Tdf,
    De,
    Composite,
}

impl<'t> Thing<'t> {
    /// The kind of the name.
    pub fn kind(self) -> Kind
        ensures { result ≡ kind_of (seen self.entry) }
    {
        match self {
            Thing::Const(_, _) => Kind::Const,
            Thing::Var(_, _) => Kind::Var,
            Thing::Array(_, _, _) => Kind::Array,
            Thing::Port(word, _, _, _) => Kind::Port(word),
            Thing::RateVar(_, _, _) => Kind::RateVar,
            Thing::Event => Kind::Event,
            Thing::Signal(_) => Kind::Signal,
            Thing::DeSignal(_, _) => Kind::DeSignal,
            Thing::Instance => Kind::Instance,
            Thing::Loop(_, _) => Kind::Loop,
            Thing::TypeName(_) => Kind::Type,
            Thing::Tdf => Kind::Tdf,
            Thing::De => Kind::De,
            Thing::Composite => Kind::Composite,
        }
    }

    /// The format of what the name stands for, where it has one.
    pub fn shape(self) -> Option<Shape>
        ensures { result ≡ shape_of (seen self.entry) }
    {
        match self {
            Thing::Const(shape, _) => shape,
            Thing::Var(shape, _) => shape,
            Thing::Array(shape, _, _) => shape,
            Thing::Port(_, shape, _, _) => shape,
            Thing::Signal(shape) => shape,
            Thing::DeSignal(shape, _) => shape,
            Thing::TypeName(shape) => Some(shape),
            _ => None,
        }
    }

    fn at_rate(self, rate: &'t Limit) -> Thing<'t>
        ensures { seen result ≡ at_rate rate.entry.now (seen self.entry) }
    {
        match self {
            Thing::Port(word, shape, _, delay) => Thing::Port(word, shape, Some(rate), delay),
            other => other,
        }
    }

    fn at_delay(self, delay: u64) -> Thing<'t>
        ensures { seen result ≡ at_delay delay (seen self.entry) }
    {
        match self {
            Thing::Port(word, shape, rate, _) => Thing::Port(word, shape, rate, delay),
            other => other,
        }
    }
}

/// A name space: names in the order of their declarations, with what each stands for.
#[derive(Drop)]
pub struct Table<'t> {
    set: IndexSet<&'t [u8]>,
    things: Vec<Thing<'t>>,
}

impl<'t> Model for Table<'t> {
    ghost use Rattle.std.specs.Prelude.{map};
    ghost use Rattle.tdf_expr_symbols.specs.Names.{Names};
    ghost use Rattle.tdf_expr_symbols.specs.Seen.{seen};

    ghost Value = { Names };

    ghost view = { λ a. record { names = map (λ k. k.now) a.set.keys; things = map seen a.things.items } };
}

impl<'t> Table<'t> {
    /// A name space without names. It takes no memory.
    pub fn new(alloc: Global) -> Table<'t>
        ensures { result ≡ no_names }
    {
        Table {
            set: IndexSet::new(alloc),
            things: Vec::new(alloc),
        }
    }

    /// One declaration more; of two declarations of one name the first stands.
    ///
    /// # Errors
    /// Out of memory.
    #[tactic(auto, using(crate::proofs::Tables::table_laws), unfolding(crate::specs::Names::with_name))]
    pub fn add(&mut self, name: &'t [u8], thing: Thing<'t>) -> Result<(), Memory>
        ensures { OnOk result (self.new ≡ with_name name.entry.now (seen thing.entry) self.old) }
    {
        let (_, is_new) = self.set.insert_full(name)?;
        if is_new {
            self.things.push(thing)?;
        }
        Ok(())
    }

    /// The place of a name among those of this name space.
    #[tactic(auto, using(crate::proofs::Tables::table_laws))]
    pub fn place(&self, name: &[u8]) -> Option<usize>
        ensures { result ≡ place_of self.now name.now }
    {
        self.set.get_index_of(name)
    }

    /// What a name stands for.
    #[tactic(auto, using(crate::proofs::Tables::table_laws))]
    pub fn find(&self, name: &[u8]) -> Option<Thing<'t>>
        ensures { option_map seen result ≡ thing_of self.now name.now }
    {
        match self.place(name) {
            None => None,
            Some(place) => match self.things.get(place) {
                None => None,
                Some(thing) => Some(*thing),
            },
        }
    }

    /// A line that says the rate of a port.
    #[tactic(auto, using(crate::proofs::Tables::change_laws), unfolding(crate::specs::Names::names_changed))]
    pub(crate) fn set_rate(&mut self, port: &[u8], rate: &'t Limit)
        ensures { self.new ≡ names_changed (at_rate rate.entry.now) port.now self.old }
    {
        if let Some(place) = self.place(port) {
            if place < self.things.len() {
                self.things[place] = self.things[place].at_rate(rate);
            }
        }
    }

    /// A line that says the delay of a port.
    #[tactic(auto, using(crate::proofs::Tables::change_laws), unfolding(crate::specs::Names::names_changed))]
    pub(crate) fn set_delay(&mut self, port: &[u8], delay: u64)
        ensures { self.new ≡ names_changed (at_delay delay) port.now self.old }
    {
        if let Some(place) = self.place(port) {
            if place < self.things.len() {
                self.things[place] = self.things[place].at_delay(delay);
            }
        }
    }

    /// How many names there are.
    #[tactic(auto, using(crate::proofs::Tables::change_laws))]
    pub fn len(&self) -> usize
        ensures { result ≡ length self.now.things }
    {
        self.things.len()
    }

    /// What the name at a place stands for.
    #[tactic(auto, using(crate::proofs::Tables::change_laws))]
    pub fn at(&self, place: usize) -> Option<Thing<'t>>
        ensures { option_map seen result ≡ slice_get self.now.things place }
    {
        match self.things.get(place) {
            None => None,
            Some(thing) => Some(*thing),
        }
    }
}
