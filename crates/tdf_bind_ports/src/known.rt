//! The blocks that stand before a line, and the instances of a composite.

ghost use Rattle.std.specs.Option.{option_map};
ghost use Rattle.std.specs.Prelude.{◌≡◌, IfOk, OnOk};
ghost use Rattle.tdf_bind_ports.specs.Ports.{block_named, known_after, no_blocks, no_instances, ports_named, with_block, with_instance, with_instances};
ghost use Rattle.tdf_expr_symbols.specs.Names.{place_in};
ghost use Rattle.tdf_lang_tree.specs.Views.{pure_composite, pure_global};

use crate::index::Index;
use crate::ports::{Ports, ports_of_composite, ports_of_de, ports_of_tdf};
use std::alloc::Global;
use std::marker::Model;
use tdf_base::Memory;
use tdf_lang_tree::{Composite, Global1, Member};

/// Blocks in order: the name and the ports of each.
#[derive(Drop)]
pub struct Known<'t> {
    names: Index<'t>,
    ports: Vec<Ports<'t>>,
}

impl<'t> Model for Known<'t> {
    ghost use Rattle.tdf_bind_ports.specs.Ports.{Known as KnownSeen};

    ghost Value = { KnownSeen };

    ghost view = { λ a. record { names = a.names; ports = a.ports.items } };
}

impl<'t> Known<'t> {
    /// No blocks. It takes no memory.
    pub fn new(alloc: Global) -> Known<'t>
        ensures { result ≡ no_blocks }
    {
        Known {
            names: Index::new(alloc),
            ports: Vec::new(alloc),
        }
    }

    /// One block more.
    ///
    /// # Errors
    /// Out of memory.
    fn add(&mut self, name: &'t [u8], ports: Ports<'t>) -> Result<(), Memory>
        ensures { OnOk result (self.new ≡ with_block name.entry.now ports.entry self.old) }
    {
        self.ports.push(ports)?;
        self.names.add(name)
    }

    /// The place of the first block of this name.
    pub fn place(&self, name: &[u8]) -> Option<usize>
        ensures { result ≡ place_in self.now.names name.now }
    {
        self.names.place(name)
    }

    /// The ports of the first block of this name.
    pub fn ports(&self, name: &[u8]) -> Option<&Ports<'t>>
        ensures { option_map (λ p. p.now) result ≡ ports_named self.now name.now }
    {
        match self.names.place(name) {
            None => None,
            Some(place) => self.ports.get(place),
        }
    }

    /// The blocks after one more declaration.
    ///
    /// # Errors
    /// Out of memory.
    pub fn declare(&mut self, alloc: Global, global: &'t Global1) -> Result<(), Memory>
        ensures { OnOk result (self.new ≡ known_after (pure_global global.entry.now) self.old) }
    {
        match global {
            Global1::Shape(_) => Ok(()),
            Global1::Tdf(block) => {
                let ports = ports_of_tdf(alloc, block)?;
                self.add(block.name.as_bytes(), ports)
            }
            Global1::De(block) => {
                let ports = ports_of_de(alloc, block)?;
                self.add(block.name.as_bytes(), ports)
            }
            Global1::Net(block) => {
                let ports = ports_of_composite(alloc, block)?;
                self.add(block.name.as_bytes(), ports)
            }
        }
    }
}

/// The instances of a composite: the name of each, and the name of its block.
#[derive(Drop)]
pub struct Instances<'t> {
    names: Index<'t>,
    blocks: Vec<&'t [u8]>,
}

impl<'t> Model for Instances<'t> {
    ghost use Rattle.std.specs.Prelude.{map};
    ghost use Rattle.tdf_bind_ports.specs.Ports.{Instances as InstancesSeen};

    ghost Value = { InstancesSeen };

    ghost view = { λ a. record { names = a.names; blocks = map (λ b. b.now) a.blocks.items } };
}

impl<'t> Instances<'t> {
    fn new(alloc: Global) -> Instances<'t>
        ensures { result ≡ no_instances }
    {
        Instances {
            names: Index::new(alloc),
            blocks: Vec::new(alloc),
        }
    }

    #[tactic(auto, using(crate::proofs::Lines::push_laws))]
    fn add(&mut self, member: &'t Member) -> Result<(), Memory>
        ensures { OnOk result (self.new ≡ with_instance member.entry.now self.old) }
    {
        match member {
            Member::Instance { name, block, .. } => {
                self.blocks.push(block.as_bytes())?;
                self.names.add(name.as_bytes())
            }
            Member::Port(_) => Ok(()),
            Member::Signal { .. } => Ok(()),
            Member::DeSignal { .. } => Ok(()),
            Member::Bind { .. } => Ok(()),
        }
    }

    #[tactic(auto, using(crate::proofs::Lines::instance_laws))]
    fn add_all(&mut self, members: &'t Vec<Member>) -> Result<(), Memory>
        ensures { OnOk result (self.new ≡ with_instances members.entry.now.items self.old) }
    {
        for member in members {
            self.add(member)?;
        }
        Ok(())
    }

    /// The instances of a composite.
    ///
    /// # Errors
    /// Out of memory.
    pub fn of(alloc: Global, block: &'t Composite) -> Result<Instances<'t>, Memory>
        ensures { IfOk result (λ instances. instances
            ≡ with_instances (pure_composite block.entry.now).members no_instances) }
    {
        let mut instances = Instances::new(alloc);
        instances.add_all(&block.members)?;
        Ok(instances)
    }

    /// The name of the block of the first instance of this name.
    #[tactic(auto, using(crate::proofs::Lines::block_laws))]
    pub fn block(&self, name: &[u8]) -> Option<&'t [u8]>
        ensures { option_map (λ b. b.now) result ≡ block_named self.now name.now }
    {
        match self.names.place(name) {
            None => None,
            Some(place) => match self.blocks.get(place) {
                None => None,
                Some(block) => Some(*block),
            },
        }
    }
}
