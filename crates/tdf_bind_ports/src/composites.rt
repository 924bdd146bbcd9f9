//! The faults of the lines of a composite.

ghost use Rattle.std.specs.List.{find, flat_map};
ghost use Rattle.std.specs.Option.{option_map};
ghost use Rattle.std.specs.Prelude.{◌≡◌, map, IfOk, OnOk};
ghost use Rattle.tdf_bind_ports.specs.Faults.{least_link_with};
ghost use Rattle.tdf_bind_ports.specs.Links.{around_of, bind_faults, composite_link_faults, faults_around, first_free, free_faults, instance_faults, port_link_faults, port_in, port_around, unbound_faults};
ghost use Rattle.tdf_bind_ports.specs.machine.Pairs.{has_pair, later, pairs_after, pairs_after_all};
ghost use Rattle.tdf_expr_symbols.specs.Seen.{seen};
ghost use Rattle.tdf_lang_tree.specs.Views.{pure_composite};

use crate::agree::agrees;
use crate::first::{First, Wrong};
use crate::known::{Instances, Known};
use crate::pairs::Pairs;
use crate::ports::Ports;
use std::alloc::Global;
use std::marker::Model;
use tdf_base::Memory;
use tdf_expr_symbols::{Scope, Table, Thing, composite_scope};
use tdf_lang_tree::{Composite, Member, PortLine};

/// What the lines of a composite are held against.
#[derive(Drop)]
struct Around<'g, 't> {
    globals: &'g Table<'t>,
    scope: Scope<'g, 't>,
    known: &'g Known<'t>,
    instances: Instances<'t>,
}

impl<'g, 't> Model for Around<'g, 't> {
    ghost use Rattle.tdf_bind_ports.specs.Links.{Around as AroundSeen};

    ghost Value = { AroundSeen };

    ghost view = { λ a. record { globals = a.globals.now; own = a.scope.own; known = a.known.now; instances = a.instances } };
}

/// A port of one of some ports.
fn port_in<'t>(ports: Option<&Ports<'t>>, name: &[u8]) -> Option<&'t PortLine>
    ensures { option_map (λ p. p.now) result ≡ port_in (option_map (λ p. p.now) ports.entry) name.now }
{
    match ports {
        None => None,
        Some(ports) => ports.named(name),
    }
}

/// Notes the faults of a line that binds a port of an instance.
#[tactic(auto, using(crate::proofs::Notes::least_laws))]
fn note_port<'t>(
    first: &mut First<'t>,
    globals: &Table<'t>,
    line: u32,
    again: bool,
    target: Option<Thing>,
    port: Option<&PortLine>,
)
    ensures { first.new ≡ least_link_with first.old (port_link_faults globals.now line again
        (option_map seen target.entry) (option_map (λ p. p.now) port.entry)) }
{
    match port {
        None => first.note(true, Wrong::UnknownPort, line),
        Some(port) => {
            first.note(again, Wrong::TwiceBound, line);
            first.note(!agrees(globals, port, target), Wrong::Mismatch, line);
        }
    }
}

/// The first of some ports of an instance that no line binds. It looks at no more ports than are bound, and one.
#[tactic(auto, using(crate::proofs::Notes::free_laws))]
fn first_free<'t>(pairs: &Pairs, instance: &[u8], ports: &[&'t PortLine]) -> Option<&'t PortLine>
    ensures { option_map (λ p. p.now) result
        ≡ first_free (has_pair pairs.now) instance.now (map (λ p. p.now) ports.entry.now) }
{
    for port in ports {
        if !pairs.has(instance, port.name.as_bytes()) {
            return Some(*port);
        }
    }
    None
}

#[tactic(auto, using(crate::proofs::Notes::least_laws))]
fn note_unbound<'t>(first: &mut First<'t>, line: u32, port: Option<&'t PortLine>)
    ensures { first.new ≡ least_link_with first.old (unbound_faults line (option_map (λ p. p.now) port.entry)) }
{
    match port {
        None => {}
        Some(port) => first.note(true, Wrong::Unbound(port.name.as_bytes()), line),
    }
}

/// Notes a port of an instance that no line binds.
#[tactic(auto, using(crate::proofs::Notes::least_laws))]
fn note_free<'t>(
    first: &mut First<'t>,
    pairs: &Pairs,
    line: u32,
    instance: &[u8],
    ports: Option<&Ports<'t>>,
)
    ensures { first.new ≡ least_link_with first.old
        (free_faults (has_pair pairs.now) line instance.now (option_map (λ p. p.now) ports.entry)) }
{
    match ports {
        None => {}
        Some(ports) => note_unbound(first, line, first_free(pairs, instance, ports.lines())),
    }
}

impl<'g, 't> Around<'g, 't> {
    /// What the lines of this composite are held against.
    ///
    /// # Errors
    /// Out of memory.
    fn of(
        alloc: Global,
        globals: &'g Table<'t>,
        known: &'g Known<'t>,
        block: &'t Composite,
    ) -> Result<Around<'g, 't>, Memory>
        ensures { IfOk result (λ around. around ≡ around_of globals.entry.now known.entry.now (pure_composite block.entry.now)) }
    {
        let scope = composite_scope(alloc, globals, block)?;
        match Instances::of(alloc, block) {
            Ok(instances) => Ok(Around {
                globals,
                scope,
                known,
                instances,
            }),
            Err(failed) => {
                drop(scope);
                Err(failed)
            }
        }
    }

    /// A port of an instance.
    fn port(&self, instance: &[u8], port: &[u8]) -> Option<&'t PortLine>
        ensures { option_map (λ p. p.now) result ≡ port_around self.now instance.now port.now }
    {
        match self.instances.block(instance) {
            None => None,
            Some(block) => port_in(self.known.ports(block), port),
        }
    }

    /// Notes the faults of a `bind` line, and what it binds.
    #[tactic(auto, using(crate::proofs::Notes::least_laws), unfolding(crate::specs::Links::bind_faults))]
    fn note_bind(
        &self,
        first: &mut First<'t>,
        pairs: &mut Pairs<'t>,
        member: &'t Member,
    ) -> Result<(), Memory>
        ensures first { OnOk result (first.new ≡ least_link_with first.old (bind_faults self.now (has_pair pairs.old) member.entry.now)) }
        ensures pairs { OnOk result (pairs.new ≡ pairs_after member.entry.now pairs.old) }
    {
        match member {
            Member::Bind {
                line,
                instance,
                port,
                target,
            } => {
                let instance = instance.as_bytes();
                let port = port.as_bytes();
                let again = pairs.has(instance, port);
                let thing = self.scope.own(target.as_bytes());
                let found = self.port(instance, port);
                note_port(first, self.globals, *line, again, thing, found);
                pairs.add(instance, port)
            }
            Member::Port(_) => Ok(()),
            Member::Signal { .. } => Ok(()),
            Member::DeSignal { .. } => Ok(()),
            Member::Instance { .. } => Ok(()),
        }
    }

    /// Notes the faults of an `instance` line.
    #[tactic(auto, using(crate::proofs::Notes::least_laws), unfolding(crate::specs::Links::instance_faults))]
    fn note_instance(&self, first: &mut First<'t>, pairs: &Pairs, member: &Member)
        ensures { first.new ≡ least_link_with first.old (instance_faults self.now (has_pair pairs.now) member.now) }
    {
        match member {
            Member::Instance { line, name, block } => {
                let ports = self.known.ports(block.as_bytes());
                note_free(first, pairs, *line, name.as_bytes(), ports);
            }
            Member::Port(_) => {}
            Member::Signal { .. } => {}
            Member::DeSignal { .. } => {}
            Member::Bind { .. } => {}
        }
    }

    #[tactic(auto, using(crate::proofs::Notes::bind_laws))]
    fn note_binds(
        &self,
        first: &mut First<'t>,
        pairs: &mut Pairs<'t>,
        members: &'t Vec<Member>,
    ) -> Result<(), Memory>
        ensures first { OnOk result (first.new ≡ least_link_with first.old (later self.now pairs.old members.entry.now.items)) }
        ensures pairs { OnOk result (pairs.new ≡ pairs_after_all members.entry.now.items pairs.old) }
    {
        for member in members {
            self.note_bind(first, pairs, member)?;
        }
        Ok(())
    }

    #[tactic(auto, using(crate::proofs::Notes::instance_laws))]
    fn note_instances(&self, first: &mut First<'t>, pairs: &Pairs, members: &Vec<Member>)
        ensures { first.new ≡ least_link_with first.old (flat_map (instance_faults self.now (has_pair pairs.now)) members.now.items) }
    {
        for member in members {
            self.note_instance(first, pairs, member);
        }
    }

    #[tactic(auto, using(crate::proofs::Bound::bound_laws))]
    fn note_members(
        &self,
        alloc: Global,
        first: &mut First<'t>,
        members: &'t Vec<Member>,
    ) -> Result<(), Memory>
        ensures { OnOk result (first.new ≡ least_link_with first.old (faults_around self.now members.entry.now.items)) }
    {
        let mut pairs = Pairs::new(alloc);
        self.note_binds(first, &mut pairs, members)?;
        self.note_instances(first, &pairs, members);
        Ok(())
    }
}

/// Notes the faults of a `composite` block, or of `top`.
///
/// # Errors
/// Out of memory.
#[tactic(auto, unfolding(crate::specs::Links::composite_link_faults))]
pub(crate) fn note_composite<'t>(
    alloc: Global,
    first: &mut First<'t>,
    globals: &Table<'t>,
    known: &Known<'t>,
    block: &'t Composite,
) -> Result<(), Memory>
    ensures { OnOk result (first.new ≡ least_link_with first.old
        (composite_link_faults globals.now known.now (pure_composite block.entry.now))) }
{
    let around = Around::of(alloc, globals, known, block)?;
    around.note_members(alloc, first, &block.members)
}
