//! The names in force in a body, and how they are made from a tree.

ghost use Rattle.std.specs.Cmp.Lexicographic.{pointwise};
ghost use Rattle.std.specs.Option.{option_map};
ghost use Rattle.std.specs.Prelude.{◌≡◌, ◌*◌, map, length, position, nat_eq, slice_get, IfOk, OnOk};
ghost use Rattle.tdf_expr_symbols.specs.Names.{place_of, thing_of, no_names, with_global, with_globals, globals_of, format_of, with_port, with_store, with_tdf_line, with_tdf_lines, with_attr, with_attrs, tdf_names, with_de_line, with_de_lines, de_names, with_member, with_members, composite_names};
ghost use Rattle.tdf_expr_symbols.specs.Scope.{is_does, does_change, tdf_scope, de_scope, composite_scope, named, least_of, greatest_of, least_rate, greatest_rate_of, loop_of, loop_place};
ghost use Rattle.tdf_expr_symbols.specs.Seen.{seen, seen_loop};
ghost use Rattle.tdf_lang_tree.specs.Views.{pure_global, pure_store, pure_tdf_line, pure_tdf, pure_de_line, pure_de, pure_composite};

use crate::things::{Table, Thing};
use std::alloc::Global;
use std::marker::Model;
use tdf_base::Memory;
use tdf_lang_tree::{
    Attr, Composite, DeDecl, DeLine, FormatRef, Global1, Limit, Member, PortLine, Shape, Store,
    TdfDecl, TdfLine,
};

/// A loop variable that is open: it runs from `from` up to and not including `end`.
#[derive(Clone, Copy)]
pub struct OpenLoop<'t> {
    pub name: &'t [u8],
    pub from: u64,
    pub end: &'t Limit,
}

/// The global names, the names of a block, and whether it has `does_attribute_changes`.
#[derive(Drop)]
pub struct Scope<'g, 't> {
    globals: &'g Table<'t>,
    own: Table<'t>,
    does: bool,
}

impl<'g, 't> Model for Scope<'g, 't> {
    ghost use Rattle.tdf_expr_symbols.specs.Scope.{Scope as ScopeSeen};

    ghost Value = { ScopeSeen };

    ghost view = { λ a. record { globals = a.globals.now; own = a.own; does = a.does } };
}

fn add_global<'t>(table: &mut Table<'t>, global: &'t Global1) -> Result<(), Memory>
    ensures { OnOk result (table.new ≡ with_global (pure_global global.entry.now) table.old) }
{
    match global {
        Global1::Shape(t) => table.add(t.name.as_bytes(), Thing::TypeName(t.shape)),
        Global1::Tdf(block) => table.add(block.name.as_bytes(), Thing::Tdf),
        Global1::De(block) => table.add(block.name.as_bytes(), Thing::De),
        Global1::Net(block) => table.add(block.name.as_bytes(), Thing::Composite),
    }
}

/// The global names: those of types and blocks.
///
/// # Errors
/// Out of memory.
#[tactic(auto, using(crate::proofs::Lists::global_laws))]
pub fn globals_of<'t>(alloc: Global, list: &'t Vec<Global1>) -> Result<Table<'t>, Memory>
    ensures { IfOk result (λ table. table ≡ globals_of (map pure_global list.entry.now.items)) }
{
    let mut table = Table::new(alloc);
    for global in list {
        add_global(&mut table, global)?;
    }
    Ok(table)
}

/// The format that a line names or writes out; none where its name is not that of a type.
pub fn format_of(globals: &Table, format: &FormatRef) -> Option<Shape>
    ensures { result ≡ format_of globals.now format.now }
{
    match format {
        FormatRef::Own(shape) => Some(*shape),
        FormatRef::Named(name) => match globals.find(name.as_bytes()) {
            Some(Thing::TypeName(shape)) => Some(shape),
            _ => None,
        },
    }
}

fn add_port<'t>(
    table: &mut Table<'t>,
    globals: &Table<'t>,
    port: &'t PortLine,
) -> Result<(), Memory>
    ensures { OnOk result (table.new ≡ with_port globals.now port.entry.now table.old) }
{
    let shape = format_of(globals, &port.format);
    table.add(port.name.as_bytes(), Thing::Port(port.kind, shape, None, 0))
}

fn add_store<'t>(table: &mut Table<'t>, globals: &Table<'t>, store: &'t Store) -> Result<(), Memory>
    ensures { OnOk result (table.new ≡ with_store globals.now (pure_store store.entry.now) table.old) }
{
    match store {
        Store::Const {
            name,
            format,
            value,
            ..
        } => {
            table.add(
                name.as_bytes(),
                Thing::Const(format_of(globals, format), value),
            )
        }
        Store::Var {
            name,
            format,
            value,
            ..
        } => {
            table.add(
                name.as_bytes(),
                Thing::Var(format_of(globals, format), value),
            )
        }
        Store::Array {
            name,
            format,
            length,
            values,
            ..
        } => {
            table.add(
                name.as_bytes(),
                Thing::Array(format_of(globals, format), *length, values),
            )
        }
    }
}

fn add_tdf_line<'t>(
    table: &mut Table<'t>,
    globals: &Table<'t>,
    line: &'t TdfLine,
) -> Result<(), Memory>
    ensures { OnOk result (table.new ≡ with_tdf_line globals.now (pure_tdf_line line.entry.now) table.old) }
{
    match line {
        TdfLine::Port(port) => add_port(table, globals, port),
        TdfLine::Store(store) => add_store(table, globals, store),
        TdfLine::Rate {
            name,
            least,
            greatest,
            start,
            ..
        } => { table.add(name.as_bytes(), Thing::RateVar(*least, *greatest, *start)) }
    }
}

#[tactic(auto, using(crate::proofs::Lists::tdf_laws))]
fn add_tdf_lines<'t>(
    table: &mut Table<'t>,
    globals: &Table<'t>,
    lines: &'t Vec<TdfLine>,
) -> Result<(), Memory>
    ensures { OnOk result (table.new ≡ with_tdf_lines globals.now (map pure_tdf_line lines.entry.now.items) table.old) }
{
    for line in lines {
        add_tdf_line(table, globals, line)?;
    }
    Ok(())
}

fn apply_attr<'t>(table: &mut Table<'t>, attr: &'t Attr)
    ensures { table.new ≡ with_attr attr.entry.now table.old }
{
    match attr {
        Attr::Rate { port, rate, .. } => table.set_rate(port.as_bytes(), rate),
        Attr::Delay { port, count, .. } => table.set_delay(port.as_bytes(), *count),
        Attr::Step { .. } => {}
        Attr::Does { .. } => {}
        Attr::Accept { .. } => {}
        Attr::Reject { .. } => {}
    }
}

#[tactic(auto, using(crate::proofs::Lists::attr_laws))]
fn apply_attrs<'t>(table: &mut Table<'t>, attrs: &'t Vec<Attr>)
    ensures { table.new ≡ with_attrs attrs.entry.now.items table.old }
{
    for attr in attrs {
        apply_attr(table, attr);
    }
}

fn add_de_line<'t>(
    table: &mut Table<'t>,
    globals: &Table<'t>,
    line: &'t DeLine,
) -> Result<(), Memory>
    ensures { OnOk result (table.new ≡ with_de_line globals.now (pure_de_line line.entry.now) table.old) }
{
    match line {
        DeLine::Port(port) => add_port(table, globals, port),
        DeLine::Store(store) => add_store(table, globals, store),
        DeLine::Event { name, .. } => table.add(name.as_bytes(), Thing::Event),
    }
}

#[tactic(auto, using(crate::proofs::Lists::de_laws))]
fn add_de_lines<'t>(
    table: &mut Table<'t>,
    globals: &Table<'t>,
    lines: &'t Vec<DeLine>,
) -> Result<(), Memory>
    ensures { OnOk result (table.new ≡ with_de_lines globals.now (map pure_de_line lines.entry.now.items) table.old) }
{
    for line in lines {
        add_de_line(table, globals, line)?;
    }
    Ok(())
}

fn add_member<'t>(
    table: &mut Table<'t>,
    globals: &Table<'t>,
    member: &'t Member,
) -> Result<(), Memory>
    ensures { OnOk result (table.new ≡ with_member globals.now member.entry.now table.old) }
{
    match member {
        Member::Port(port) => add_port(table, globals, port),
        Member::Signal { name, format, .. } => {
            table.add(name.as_bytes(), Thing::Signal(format_of(globals, format)))
        }
        Member::DeSignal {
            name,
            format,
            start,
            ..
        } => {
            table.add(
                name.as_bytes(),
                Thing::DeSignal(format_of(globals, format), start),
            )
        }
        Member::Instance { name, .. } => table.add(name.as_bytes(), Thing::Instance),
        Member::Bind { .. } => Ok(()),
    }
}

#[tactic(auto, using(crate::proofs::Lists::member_laws))]
fn add_members<'t>(
    table: &mut Table<'t>,
    globals: &Table<'t>,
    members: &'t Vec<Member>,
) -> Result<(), Memory>
    ensures { OnOk result (table.new ≡ with_members globals.now members.entry.now.items table.old) }
{
    for member in members {
        add_member(table, globals, member)?;
    }
    Ok(())
}

fn is_does(attr: &Attr) -> bool
    ensures { result ≡ is_does attr.now }
{
    matches!(attr, Attr::Does { .. })
}

fn does_change(attrs: &Vec<Attr>) -> bool
    ensures { result ≡ does_change attrs.now.items }
{
    attrs.iter().any(|attr| is_does(attr))
}

/// The names in force in the bodies of a `tdf` block.
///
/// # Errors
/// Out of memory.
pub fn tdf_scope<'g, 't>(
    alloc: Global,
    globals: &'g Table<'t>,
    block: &'t TdfDecl,
) -> Result<Scope<'g, 't>, Memory>
    ensures { IfOk result (λ scope.
        scope ≡ tdf_scope globals.entry.now (pure_tdf block.entry.now)) }
{
    let mut own = Table::new(alloc);
    add_tdf_lines(&mut own, globals, &block.decls)?;
    apply_attrs(&mut own, &block.attrs);
    Ok(Scope {
        globals,
        own,
        does: does_change(&block.attrs),
    })
}

/// The names in force in the processes of a `de` block.
///
/// # Errors
/// Out of memory.
pub fn de_scope<'g, 't>(
    alloc: Global,
    globals: &'g Table<'t>,
    block: &'t DeDecl,
) -> Result<Scope<'g, 't>, Memory>
    ensures { IfOk result (λ scope. scope ≡ de_scope globals.entry.now (pure_de block.entry.now)) }
{
    let mut own = Table::new(alloc);
    add_de_lines(&mut own, globals, &block.decls)?;
    Ok(Scope {
        globals,
        own,
        does: false,
    })
}

/// The names of a `composite` block, or of `top`.
///
/// # Errors
/// Out of memory.
pub fn composite_scope<'g, 't>(
    alloc: Global,
    globals: &'g Table<'t>,
    block: &'t Composite,
) -> Result<Scope<'g, 't>, Memory>
    ensures { IfOk result (λ scope.
        scope ≡ composite_scope globals.entry.now (pure_composite block.entry.now)) }
{
    let mut own = Table::new(alloc);
    add_members(&mut own, globals, &block.members)?;
    Ok(Scope {
        globals,
        own,
        does: false,
    })
}

fn place_of_loop(loops: &[OpenLoop], name: &[u8]) -> Option<usize>
    ensures { result ≡ position (λ l. pointwise nat_eq name.now l.name.now) loops.now }
{
    loops.iter().position(|open| name == open.name)
}

/// The place of a loop variable among those that are open, outermost first.
pub fn loop_place(loops: &[OpenLoop], name: &[u8]) -> Option<usize>
    ensures { result ≡ loop_place (map seen_loop loops.now) name.now }
{
    place_of_loop(loops, name)
}

/// The loop variable of this name.
#[tactic(auto, using(crate::proofs::Loops::loop_laws))]
fn open_loop<'t>(loops: &[OpenLoop<'t>], name: &[u8]) -> Option<Thing<'t>>
    ensures { option_map seen result ≡ loop_of (map seen_loop loops.entry.now) name.now }
{
    match loop_place(loops, name) {
        None => None,
        Some(place) => match loops.get(place) {
            None => None,
            Some(open) => Some(Thing::Loop(open.from, open.end)),
        },
    }
}

/// The least value of a rate variable; 0 where it is none.
fn least_rate(thing: Option<Thing>) -> u64
    ensures { result ≡ least_rate (option_map seen thing.entry) }
{
    match thing {
        Some(Thing::RateVar(least, _, _)) => least,
        _ => 0,
    }
}

/// The greatest value of a rate variable; 0 where it is none.
fn greatest_rate(thing: Option<Thing>) -> u64
    ensures { result ≡ greatest_rate_of (option_map seen thing.entry) }
{
    match thing {
        Some(Thing::RateVar(_, greatest, _)) => greatest,
        _ => 0,
    }
}

fn product(times: u64, value: u64) -> u128
    ensures { result ≡ times * value }
{
    u128::from(times) * u128::from(value)
}

impl<'g, 't> Scope<'g, 't> {
    /// Whether the block has `does_attribute_changes`.
    pub fn does(&self) -> bool
        ensures { result ≡ self.now.does }
    {
        self.does
    }

    /// What a global name stands for.
    pub fn global(&self, name: &[u8]) -> Option<Thing<'t>>
        ensures { option_map seen result ≡ thing_of self.now.globals name.now }
    {
        self.globals.find(name)
    }

    /// What a name of the block stands for.
    pub fn own(&self, name: &[u8]) -> Option<Thing<'t>>
        ensures { option_map seen result ≡ thing_of self.now.own name.now }
    {
        self.own.find(name)
    }

    /// The place of a name among those of the block.
    pub fn own_place(&self, name: &[u8]) -> Option<usize>
        ensures { result ≡ place_of self.now.own name.now }
    {
        self.own.place(name)
    }

    /// How many names the block has.
    pub fn own_len(&self) -> usize
        ensures { result ≡ length self.now.own.things }
    {
        self.own.len()
    }

    /// What the block's name at a place stands for.
    pub fn own_at(&self, place: usize) -> Option<Thing<'t>>
        ensures { option_map seen result ≡ slice_get self.now.own.things place }
    {
        self.own.at(place)
    }

    /// What a name stands for in a body.
    #[tactic(auto, unfolding(crate::specs::Scope::named))]
    pub fn named(&self, loops: &[OpenLoop<'t>], name: &[u8]) -> Option<Thing<'t>>
        ensures { option_map seen result ≡ named self.now (map seen_loop loops.entry.now) name.now }
    {
        match open_loop(loops, name) {
            None => self.own(name),
            Some(thing) => Some(thing),
        }
    }

    /// The least value of a limit or of a rate.
    #[tactic(auto, unfolding(crate::specs::Scope::least_of))]
    pub fn least_of(&self, limit: &Limit) -> u128
        ensures { result ≡ least_of self.now.own limit.now }
    {
        match limit {
            Limit::Int(n) => u128::from(*n),
            Limit::Var(name) => u128::from(least_rate(self.own(name.as_bytes()))),
            Limit::Times(times, name) => product(*times, least_rate(self.own(name.as_bytes()))),
        }
    }

    /// The greatest value of a limit or of a rate.
    #[tactic(auto, unfolding(crate::specs::Scope::greatest_of))]
    pub fn greatest_of(&self, limit: &Limit) -> u128
        ensures { result ≡ greatest_of self.now.own limit.now }
    {
        match limit {
            Limit::Int(n) => u128::from(*n),
            Limit::Var(name) => u128::from(greatest_rate(self.own(name.as_bytes()))),
            Limit::Times(times, name) => product(*times, greatest_rate(self.own(name.as_bytes()))),
        }
    }
}
