//! What the ports of the instances of a composite are bound to.

ghost use Rattle.std.specs.Cmp.Lexicographic.{pointwise};
ghost use Rattle.std.specs.List.{flat_map};
ghost use Rattle.std.specs.Prelude.{◌≡◌, ◌++◌, [], ◌&&◌, if◌then◌else◌, nat_eq, None, Some, OnOk, IfOk, ℕ, List, map};
ghost use Rattle.tdf_bind_names.specs.Targets.{inside_of, name_of_signal, target_after, target_named};
ghost use Rattle.tdf_bind_names.specs.machine.Bindings.{AreTargets, target_at};
ghost use Rattle.tdf_expr_symbols.specs.Names.{place_in};
ghost use Rattle.tdf_lang_tree.specs.Views.{pure_composite};

use indexmap::IndexMap;
use std::alloc::Global;
use std::marker::Model;
use tdf_base::Memory;
use tdf_bind_hierarchy::Target;
use tdf_bind_ports::{Index, Ports, ports_of_composite};
use tdf_lang_tree::{Composite, Member};

/// The signals and the ports of a composite; each is found by a map.
#[derive(Drop)]
struct Inside<'t> {
    signals: Index<'t>,
    ports: Ports<'t>,
}

impl<'t> Model for Inside<'t> {
    ghost use Rattle.tdf_bind_names.specs.Targets.{Inside as InsideSeen};

    ghost Value = { InsideSeen };

    ghost view = { λ a. record { signals = a.signals; ports = a.ports } };
}

fn add_signal<'t>(names: &mut Index<'t>, member: &'t Member) -> Result<(), Memory>
    ensures { OnOk result (names.new ≡ names.old ++ name_of_signal member.entry.now) }
{
    match member {
        Member::Signal { name, .. } => names.add(name.as_bytes()),
        Member::DeSignal { name, .. } => names.add(name.as_bytes()),
        Member::Port(_) => Ok(()),
        Member::Instance { .. } => Ok(()),
        Member::Bind { .. } => Ok(()),
    }
}

/// The names of the signals of a composite.
#[tactic(auto, using(crate::proofs::Lists::name_laws))]
fn signal_names<'t>(alloc: Global, members: &'t Vec<Member>) -> Result<Index<'t>, Memory>
    ensures { IfOk result (λ names. names ≡ flat_map name_of_signal members.entry.now.items) }
{
    let mut names = Index::new(alloc);
    for member in members {
        add_signal(&mut names, member)?;
    }
    Ok(names)
}

impl<'t> Inside<'t> {
    fn of(alloc: Global, block: &'t Composite) -> Result<Inside<'t>, Memory>
        ensures { IfOk result (λ inside. inside ≡ inside_of (pure_composite block.entry.now).members) }
    {
        let ports = ports_of_composite(alloc, block)?;
        match signal_names(alloc, &block.members) {
            Ok(signals) => Ok(Inside { signals, ports }),
            Err(failed) => {
                drop(ports);
                Err(failed)
            }
        }
    }

    /// The signal or the port of this name.
    fn target(&self, name: &[u8]) -> Option<Target>
        ensures { result ≡ target_named self.now name.now }
    {
        match self.signals.place(name) {
            Some(signal) => Some(Target::Own(signal)),
            None => match self.ports.place(name) {
                Some(port) => Some(Target::Outer(port)),
                None => None,
            },
        }
    }
}

/// What ports of instances are bound to, by their names.
#[derive(Drop)]
pub(crate) struct Bindings<'t> {
    map: IndexMap<(&'t [u8], &'t [u8]), Target>,
}

impl<'t> Bindings<'t> {
    fn new(alloc: Global) -> Bindings<'t>
        ensures { (instance port : List ℕ) → target_at result instance port ≡ None }
    {
        Bindings {
            map: IndexMap::new(alloc),
        }
    }

    /// One line more.
    fn put(&mut self, inside: &Inside, member: &'t Member) -> Result<(), Memory>
        ensures { OnOk result ((instance port : List ℕ) → target_at self.new instance port
            ≡ target_after inside.now instance port (target_at self.old instance port) member.entry.now) }
    {
        match member {
            Member::Bind {
                instance,
                port,
                target,
                ..
            } => {
                let instance = instance.as_bytes();
                let port = port.as_bytes();
                match inside.target(target.as_bytes()) {
                    Some(found) => self.bind(instance, port, found),
                    None => Ok(()),
                }
            }
            Member::Port(_) => Ok(()),
            Member::Signal { .. } => Ok(()),
            Member::DeSignal { .. } => Ok(()),
            Member::Instance { .. } => Ok(()),
        }
    }

    /// The targets of all `bind` lines of a composite.
    ///
    /// # Errors
    /// Out of memory.
    fn put_all(&mut self, inside: &Inside, members: &'t Vec<Member>) -> Result<(), Memory>
        requires { AreTargets inside.now [] self.old }
        ensures { OnOk result (AreTargets inside.now members.entry.now.items self.new) }
    {
        for member in members {
            self.put(inside, member)?;
        }
        Ok(())
    }

    /// The targets of all `bind` lines of a composite.
    ///
    /// # Errors
    /// Out of memory.
    pub(crate) fn of(alloc: Global, block: &'t Composite) -> Result<Bindings<'t>, Memory>
        ensures { IfOk result (λ bindings. AreTargets (inside_of (pure_composite block.entry.now).members)
            (pure_composite block.entry.now).members bindings) }
    {
        let inside = Inside::of(alloc, block)?;
        let mut bindings = Bindings::new(alloc);
        match bindings.put_all(&inside, &block.members) {
            Ok(()) => Ok(bindings),
            Err(failed) => {
                drop(bindings);
                Err(failed)
            }
        }
    }

    fn bind(&mut self, instance: &'t [u8], port: &'t [u8], target: Target) -> Result<(), Memory>
        ensures { OnOk result ((i p : List ℕ) → target_at self.new i p
            ≡ (if pointwise nat_eq instance.entry.now i && pointwise nat_eq port.entry.now p then Some target else target_at self.old i p)) }
    {
        self.map.insert((instance, port), target)?;
        Ok(())
    }

    /// The target of a port.
    pub(crate) fn target(&self, instance: &[u8], port: &[u8]) -> Option<Target>
        ensures { result ≡ target_at self.now instance.now port.now }
    {
        match self.map.get(&(instance, port)) {
            None => None,
            Some(target) => Some(*target),
        }
    }
}
