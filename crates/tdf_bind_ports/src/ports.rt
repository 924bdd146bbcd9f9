//! The ports of blocks, and the blocks that stand before a line.

ghost use Rattle.std.specs.List.{flat_map};
ghost use Rattle.std.specs.Option.{option_map};
ghost use Rattle.std.specs.Prelude.{◌≡◌, ◌++◌, length, map, IfOk, OnOk};
ghost use Rattle.tdf_bind_ports.specs.Ports.{block_named, known_after, no_blocks, no_instances, port_named, port_of_de_line, port_of_member, port_of_tdf_line, ports_named, ports_of_composite, ports_of_de, ports_of_tdf, with_block, with_instance, with_instances};
ghost use Rattle.tdf_expr_symbols.specs.Names.{found_at, place_in};
ghost use Rattle.tdf_lang_tree.specs.Views.{pure_composite, pure_de, pure_de_line, pure_global, pure_tdf, pure_tdf_line};

use crate::index::Index;
use std::alloc::Global;
use std::marker::Model;
use tdf_base::Memory;
use tdf_lang_tree::{Composite, DeDecl, DeLine, Global1, Member, PortLine, TdfDecl, TdfLine};

/// The ports of a block, in order; each is found by a map.
#[derive(Drop)]
pub struct Ports<'t> {
    lines: Vec<&'t PortLine>,
    names: Index<'t>,
}

impl<'t> Model for Ports<'t> {
    ghost use Rattle.std.specs.Prelude.{◌≡◌, List, map};
    ghost use Rattle.tdf_lang_tree.specs.declared.blocks.PortLine.{PortLine as Line};

    ghost Value = { List Line };

    ghost view = { λ a. map (λ p. p.now) a.lines.items };

    ghost invariant = { λ a. a.names ≡ map (λ p. p.now.name) a.lines.items };
}

#[tactic(auto, using(crate::proofs::Lines::name_laws))]
fn names_of<'t>(alloc: Global, lines: &[&'t PortLine]) -> Result<Index<'t>, Memory>
    ensures { IfOk result (λ names. names ≡ map (λ p. p.now.name) lines.entry.now) }
{
    let mut names = Index::new(alloc);
    for line in lines {
        names.add(line.name.as_bytes())?;
    }
    Ok(names)
}

fn line_at<'t>(lines: &[&'t PortLine], place: Option<usize>) -> Option<&'t PortLine>
    ensures { result ≡ found_at lines.entry.now place }
{
    match place {
        None => None,
        Some(place) => match lines.get(place) {
            None => None,
            Some(line) => Some(*line),
        },
    }
}

impl<'t> Ports<'t> {
    fn of(alloc: Global, lines: Vec<&'t PortLine>) -> Result<Ports<'t>, Memory>
        ensures { IfOk result (λ ports. ports ≡ map (λ p. p.now) lines.entry.items) }
    {
        match names_of(alloc, &lines) {
            Ok(names) => Ok(Ports { lines, names }),
            Err(failed) => {
                drop(lines);
                Err(failed)
            }
        }
    }

    /// The ports in order.
    pub fn lines(&self) -> &[&'t PortLine]
        ensures { map (λ p. p.now) result.now ≡ self.now }
    {
        self.lines.as_slice()
    }

    /// How many ports there are.
    pub fn len(&self) -> usize
        ensures { result ≡ length self.now }
    {
        self.lines.len()
    }

    /// The place of the first port of this name.
    pub fn place(&self, name: &[u8]) -> Option<usize>
        ensures { result ≡ place_in (map (λ p. p.name) self.now) name.now }
    {
        self.names.place(name)
    }

    /// The first port of this name.
    pub fn named(&self, name: &[u8]) -> Option<&'t PortLine>
        ensures { option_map (λ p. p.now) result ≡ port_named self.now name.now }
    {
        line_at(&self.lines, self.names.place(name))
    }
}

fn push_tdf_line<'t>(lines: &mut Vec<&'t PortLine>, line: &'t TdfLine) -> Result<(), Memory>
    ensures { OnOk result (map (λ p. p.now) lines.new.items
        ≡ map (λ p. p.now) lines.old.items ++ port_of_tdf_line (pure_tdf_line line.entry.now)) }
{
    match line {
        TdfLine::Port(port) => {
            lines.push(port)?;
            Ok(())
        }
        TdfLine::Store(_) => Ok(()),
        TdfLine::Rate { .. } => Ok(()),
    }
}

fn push_de_line<'t>(lines: &mut Vec<&'t PortLine>, line: &'t DeLine) -> Result<(), Memory>
    ensures { OnOk result (map (λ p. p.now) lines.new.items
        ≡ map (λ p. p.now) lines.old.items ++ port_of_de_line (pure_de_line line.entry.now)) }
{
    match line {
        DeLine::Port(port) => {
            lines.push(port)?;
            Ok(())
        }
        DeLine::Store(_) => Ok(()),
        DeLine::Event { .. } => Ok(()),
    }
}

fn push_member<'t>(lines: &mut Vec<&'t PortLine>, member: &'t Member) -> Result<(), Memory>
    ensures { OnOk result (map (λ p. p.now) lines.new.items
        ≡ map (λ p. p.now) lines.old.items ++ port_of_member member.entry.now) }
{
    match member {
        Member::Port(port) => {
            lines.push(port)?;
            Ok(())
        }
        Member::Signal { .. } => Ok(()),
        Member::DeSignal { .. } => Ok(()),
        Member::Instance { .. } => Ok(()),
        Member::Bind { .. } => Ok(()),
    }
}

/// The port lines of a `tdf` block.
///
/// # Errors
/// Out of memory.
#[tactic(auto, using(crate::proofs::Lines::tdf_port_laws))]
fn tdf_lines<'t>(alloc: Global, list: &'t Vec<TdfLine>) -> Result<Vec<&'t PortLine>, Memory>
    ensures { IfOk result (λ lines. map (λ p. p.now) lines.items
        ≡ flat_map port_of_tdf_line (map pure_tdf_line list.entry.now.items)) }
{
    let mut lines = Vec::new(alloc);
    for line in list {
        push_tdf_line(&mut lines, line)?;
    }
    Ok(lines)
}

/// The port lines of a `de` block.
///
/// # Errors
/// Out of memory.
#[tactic(auto, using(crate::proofs::Lines::de_port_laws))]
fn de_lines<'t>(alloc: Global, list: &'t Vec<DeLine>) -> Result<Vec<&'t PortLine>, Memory>
    ensures { IfOk result (λ lines. map (λ p. p.now) lines.items
        ≡ flat_map port_of_de_line (map pure_de_line list.entry.now.items)) }
{
    let mut lines = Vec::new(alloc);
    for line in list {
        push_de_line(&mut lines, line)?;
    }
    Ok(lines)
}

/// The port lines of a `composite` block.
///
/// # Errors
/// Out of memory.
#[tactic(auto, using(crate::proofs::Lines::member_port_laws))]
fn member_lines<'t>(alloc: Global, list: &'t Vec<Member>) -> Result<Vec<&'t PortLine>, Memory>
    ensures { IfOk result (λ lines. map (λ p. p.now) lines.items
        ≡ flat_map port_of_member list.entry.now.items) }
{
    let mut lines = Vec::new(alloc);
    for member in list {
        push_member(&mut lines, member)?;
    }
    Ok(lines)
}

/// The ports of a `tdf` block.
///
/// # Errors
/// Out of memory.
pub fn ports_of_tdf<'t>(alloc: Global, block: &'t TdfDecl) -> Result<Ports<'t>, Memory>
    ensures { IfOk result (λ ports. ports ≡ ports_of_tdf (pure_tdf block.entry.now)) }
{
    let lines = tdf_lines(alloc, &block.decls)?;
    Ports::of(alloc, lines)
}

/// The ports of a `de` block.
///
/// # Errors
/// Out of memory.
pub fn ports_of_de<'t>(alloc: Global, block: &'t DeDecl) -> Result<Ports<'t>, Memory>
    ensures { IfOk result (λ ports. ports ≡ ports_of_de (pure_de block.entry.now)) }
{
    let lines = de_lines(alloc, &block.decls)?;
    Ports::of(alloc, lines)
}

/// The ports of a `composite` block.
///
/// # Errors
/// Out of memory.
pub fn ports_of_composite<'t>(alloc: Global, block: &'t Composite) -> Result<Ports<'t>, Memory>
    ensures { IfOk result (λ ports.
        ports ≡ ports_of_composite (pure_composite block.entry.now)) }
{
    let lines = member_lines(alloc, &block.members)?;
    Ports::of(alloc, lines)
}
