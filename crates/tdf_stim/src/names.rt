//! The name of the driver.

ghost use Rattle.std.specs.Cmp.Lexicographic.{pointwise};
ghost use Rattle.std.specs.List.{flat_map};
ghost use Rattle.std.specs.Prelude.{◌≡◌, ◌||◌, ℕ, List, false, true, nat_eq, IfOk, OnOk, map};
ghost use Rattle.tdf_base.specs.Names.{is_name};
ghost use Rattle.tdf_lang_tree.specs.Views.{pure_global, pure_tree};
ghost use Rattle.tdf_stim.specs.Driven.{driver_name, free_from, is_listed, name_of_global, names_in_use, member_names, stim_name};
ghost use Rattle.tdf_stim.specs.Driver.{name_with};
ghost use Rattle.tdf_stim.specs.machine.Maps.{holds};

use indexmap::IndexSet;
use std::alloc::Global;
use tdf_base::{Memory, Name, push_number, push_word};
use tdf_lang_tree::{Global1, Member, Tree};

/// A set of names.
#[derive(Drop)]
pub(crate) struct Names<'t> {
    set: IndexSet<&'t [u8]>,
}

/// A name of letters and a number behind them.
///
/// # Errors
/// Out of memory.
pub(crate) fn name_with(alloc: Global, letters: &[u8], number: usize) -> Result<Name, Memory>
    ensures { IfOk result (λ name. name ≡ name_with letters.now number) }
{
    let mut bytes = Vec::new(alloc);
    push_word(&mut bytes, letters)?;
    push_number(&mut bytes, number as u64)?;
    Ok(Name::new(bytes))
}

impl<'t> Names<'t> {
    /// No name.
    fn new(alloc: Global) -> Names<'t>
        ensures { (name : List ℕ) → holds result name ≡ false }
    {
        Names {
            set: IndexSet::new(alloc),
        }
    }

    /// Whether the name is in the set.
    fn has(&self, name: &[u8]) -> bool
        ensures { result ≡ holds self.now name.now }
    {
        self.set.contains(name)
    }

    /// One name more.
    fn add(&mut self, name: &'t [u8]) -> Result<(), Memory>
        ensures { OnOk result ((other : List ℕ)
            → holds self.new other ≡ (holds self.old other || pointwise nat_eq other name.entry.now)) }
    {
        self.set.insert(name)?;
        Ok(())
    }

    /// The name of a declaration.
    fn add_global(&mut self, global: &'t Global1) -> Result<(), Memory>
        ensures { OnOk result ((other : List ℕ) → holds self.new other
            ≡ (holds self.old other || pointwise nat_eq other (name_of_global (pure_global global.entry.now)))) }
    {
        match global {
            Global1::Shape(shape) => self.add(shape.name.as_bytes()),
            Global1::Tdf(block) => self.add(block.name.as_bytes()),
            Global1::De(block) => self.add(block.name.as_bytes()),
            Global1::Net(block) => self.add(block.name.as_bytes()),
        }
    }

    /// The name that a line of `top` declares, if it does.
    fn add_member(&mut self, member: &'t Member) -> Result<(), Memory>
        ensures { OnOk result ((other : List ℕ) → holds self.new other
            ≡ (holds self.old other || is_listed (member_names member.entry.now) other)) }
    {
        match member {
            Member::Port(port) => self.add(port.name.as_bytes()),
            Member::Signal { name, .. } => self.add(name.as_bytes()),
            Member::DeSignal { name, .. } => self.add(name.as_bytes()),
            Member::Instance { name, .. } => self.add(name.as_bytes()),
            Member::Bind { .. } => Ok(()),
        }
    }

    /// The names of declarations.
    fn add_globals(&mut self, globals: &'t [Global1]) -> Result<(), Memory>
        ensures { OnOk result ((other : List ℕ) → holds self.new other
            ≡ (holds self.old other || is_listed (map name_of_global (map pure_global globals.entry.now)) other)) }
    {
        for global in globals {
            self.add_global(global)?;
        }
        Ok(())
    }

    /// The names that lines of `top` declare.
    fn add_members(&mut self, members: &'t [Member]) -> Result<(), Memory>
        ensures { OnOk result ((other : List ℕ) → holds self.new other
            ≡ (holds self.old other || is_listed (flat_map member_names members.entry.now) other)) }
    {
        for member in members {
            self.add_member(member)?;
        }
        Ok(())
    }

    /// The global names and those of `top`.
    fn of(alloc: Global, tree: &'t Tree) -> Result<Names<'t>, Memory>
        ensures { IfOk result (λ names. (other : List ℕ)
            → holds names other ≡ is_listed (names_in_use (pure_tree tree.entry.now)) other) }
    {
        let mut names = Names::new(alloc);
        names.add_globals(&tree.globals)?;
        names.add_members(&tree.top.members)?;
        Ok(names)
    }

    /// The first of `stim0`, `stim1` and so on that is not in the set, after so many tries the next.
    fn free(&self, alloc: Global, tries: usize) -> Result<Name, Memory>
        ensures { IfOk result (λ name. name ≡ stim_name (free_from (holds self.now) tries 0)) }
    {
        for k in 0..tries {
            let name = name_with(alloc, b"stim", k)?;
            if !self.has(name.as_bytes()) {
                return Ok(name);
            }
            drop(name);
        }
        name_with(alloc, b"stim", tries)
    }
}

/// The name of the driver.
///
/// # Errors
/// Out of memory.
pub(crate) fn driver_name(alloc: Global, tree: &Tree) -> Result<Name, Memory>
    ensures name { IfOk result (λ name. name ≡ driver_name (pure_tree tree.now)) }
    ensures named { OnOk result (is_name (driver_name (pure_tree tree.now)) ≡ true) }
{
    let names = Names::of(alloc, tree)?;
    names.free(alloc, tree.globals.len() + tree.top.members.len() + 1)
}
