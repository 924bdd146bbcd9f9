//! The names in force on a line of a block.

use crate::table::Table;
use std::alloc::{AllocError, Global};
use std::marker::Model;

/// The names in force on a line of a block: the global ones, those that the block declared before, and the loop variables
/// around the line, the outermost first.
#[derive(Drop)]
pub(crate) struct Scope<'g, 't> {
    globals: &'g Table<'t>,
    own: Table<'t>,
    loops: Vec<&'t [u8]>,
}

impl<'g, 't> Model for Scope<'g, 't> {
    ghost use Rattle.std.specs.Prelude.{map};
    ghost use Rattle.tdf_expr_names.specs.machine.Scope.{Held};

    ghost Value = { Held };

    ghost view = { λ a. record { globals = a.globals.now; own = a.own; loops = map (λ k. k.now) a.loops.items } };
}

ghost use Rattle.std.specs.Cmp.Lexicographic.{pointwise};
ghost use Rattle.std.specs.List.{list_any};
ghost use Rattle.std.specs.Prelude.{◌≡◌, [], ◌∷◌, not, nat_eq, length, take, IfOk, OnOk};
ghost use Rattle.tdf_expr_names.specs.Names.{has, with_declared};
ghost use Rattle.tdf_expr_names.specs.machine.Scope.{locals, declared};

/// Whether a name is one of a few.
fn found(names: &[&[u8]], name: &[u8]) -> bool
    ensures { result ≡ list_any (λ known. pointwise nat_eq name.now known.now) names.now }
{
    names.iter().any(|known| name == *known)
}

impl<'g, 't> Scope<'g, 't> {
    /// The names in force on the first line of a block.
    pub(crate) fn new(alloc: Global, globals: &'g Table<'t>) -> Scope<'g, 't>
        ensures { result ≡ record { globals = globals.entry.now; own = []; loops = [] } }
    {
        Scope {
            globals,
            own: Table::new(alloc),
            loops: Vec::new(alloc),
        }
    }

    /// Whether this is a global name in force.
    pub(crate) fn has_global(&self, name: &[u8]) -> bool
        ensures { result ≡ has self.now.globals name.now }
    {
        self.globals.has(name)
    }

    /// Whether this is a name of the block.
    pub(crate) fn has_own(&self, name: &[u8]) -> bool
        ensures { result ≡ has self.now.own name.now }
    {
        self.own.has(name)
    }

    /// Whether this is a loop variable in force or a name of the block.
    #[tactic(auto, using(crate::proofs::Tables::scope_laws))]
    pub(crate) fn has_local(&self, name: &[u8]) -> bool
        ensures { result ≡ has (locals self.now) name.now }
    {
        self.own.has(name) || found(&self.loops, name)
    }

    /// Declares a name of the block, and tells whether it is new.
    ///
    /// # Errors
    /// Out of memory.
    pub(crate) fn declare(&mut self, name: &'t [u8]) -> Result<bool, AllocError>
        ensures new { IfOk result (λ new. new ≡ not (has self.old.own name.entry.now)) }
        ensures names { OnOk result (self.new ≡ declared self.old (name.entry.now ∷ [])) }
    {
        self.own.add(name)
    }

    /// Brings a loop variable into force, and tells whether its name is new.
    ///
    /// # Errors
    /// Out of memory.
    #[tactic(auto, using(crate::proofs::Tables::scope_laws))]
    pub(crate) fn open(&mut self, name: &'t [u8]) -> Result<bool, AllocError>
        ensures new { IfOk result (λ new. new ≡ not (has (locals self.old) name.entry.now)) }
        ensures globals { OnOk result (self.new.globals ≡ self.old.globals) }
        ensures own { OnOk result (self.new.own ≡ self.old.own) }
        ensures names { OnOk result (locals self.new ≡ with_declared (locals self.old) name.entry.now) }
        ensures outer { OnOk result (take (length self.old.loops) self.new.loops ≡ self.old.loops) }
    {
        if self.has_local(name) {
            return Ok(false);
        }
        self.loops.push(name)?;
        Ok(true)
    }

    /// How many loop variables are in force.
    pub(crate) fn depth(&self) -> usize
        ensures { result ≡ length self.now.loops }
    {
        self.loops.len()
    }

    /// Takes loop variables out of force until this many are left.
    pub(crate) fn close(&mut self, depth: usize)
        ensures { self.new ≡ record self.old { loops = take depth self.old.loops } }
    {
        self.loops.truncate(depth);
    }
}
