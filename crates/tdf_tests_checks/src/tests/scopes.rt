//! What names stand for.

use super::tree_of;
use std::alloc::Global;
use std::test::Fail;
use tdf_base::Memory;
use tdf_expr_compiler::Layout;
use tdf_expr_symbols::{
    Kind, OpenLoop, Part, Place, Scope, Table, Thing, composite_scope, de_scope, globals_of,
    is_allowed, loop_place, tdf_scope,
};
use tdf_lang_tree::{Global1, Limit, PortKind};

/// A block of each kind.
const BLOCKS: &[u8] = b"language 2\ntype w fixed 16 4\n\
    tdf m\nconst k w 0.5\nvar n w 2\narray a ufixed 8 8 3 1\nin x w\nout y w\nrate r 2 5 3\n\
    set_attributes\nrate x r\nrate y 3 * r\ndelay y 7\ndoes_attribute_changes\nend\nend\n\
    de d\nde_in g w\nevent e\nend\n\
    composite c\nsignal s w\nde_signal t w\ninstance u m\nend\ntop\nend";

/// Whether the global names are those of BLOCKS, in order.
fn has_globals(globals: &Table) -> bool {
    let is_word = match globals.find(b"w") {
        Some(Thing::TypeName(shape)) => shape.signed && shape.wl == 16 && shape.iwl == 4,
        _ => false,
    };
    let is_net = match globals.at(3) {
        Some(thing) => thing.kind() == Kind::Composite,
        None => false,
    };
    is_word && is_net && globals.len() == 4 && globals.place(b"d") == Some(2)
}

/// Whether a name of a block is of a kind.
fn is_own(scope: &Scope, name: &[u8], kind: Kind) -> bool {
    match scope.own(name) {
        Some(thing) => thing.kind() == kind,
        None => false,
    }
}

/// Whether the least and the greatest rate of a port, and its delay, are these.
fn has_rates(scope: &Scope, name: &[u8], least: u128, greatest: u128, delay: u64) -> bool {
    match scope.named(&[], name) {
        Some(Thing::Port(_, Some(_), Some(rate), after)) => scope.least_of(rate) == least
            && scope.greatest_of(rate) == greatest
            && after == delay,
        _ => false,
    }
}

/// Whether a loop over a limit takes the place of the variable `n`.
fn has_loop<'t>(scope: &Scope<'_, 't>, limit: &'t Limit) -> bool {
    let loops = [OpenLoop {
        name: b"n",
        from: 1,
        end: limit,
    }];
    match scope.named(&loops, b"n") {
        Some(Thing::Loop(1, _)) => loop_place(&loops, b"n") == Some(0)
            && loop_place(&loops, b"i") == None,
        _ => false,
    }
}

/// Whether a scope is that of the block `m`.
fn is_module(scope: &Scope) -> bool {
    let is_loop = match scope.own(b"x") {
        Some(Thing::Port(PortKind::In, _, Some(rate), _)) => has_loop(scope, rate),
        _ => false,
    };
    let has_all = scope.own_len() == 6 && scope.own_place(b"a") == Some(2) && scope.does();
    is_loop
        && has_all
        && is_own(scope, b"k", Kind::Const)
        && is_own(scope, b"r", Kind::RateVar)
        && has_rates(scope, b"x", 2, 5, 0)
        && has_rates(scope, b"y", 6, 15, 7)
}

/// Whether a scope is that of the block `d`.
fn is_event_block(scope: &Scope) -> bool {
    is_own(scope, b"g", Kind::Port(PortKind::DeIn)) && is_own(scope, b"e", Kind::Event)
}

/// Whether a scope is that of the block `c`.
fn is_net(scope: &Scope) -> bool {
    is_own(scope, b"s", Kind::Signal)
        && is_own(scope, b"t", Kind::DeSignal)
        && is_own(scope, b"u", Kind::Instance)
}

/// Whether the names of a block stand for what its lines say.
///
/// # Errors
/// Out of memory.
fn is_block<'t>(alloc: Global, globals: &Table<'t>, global: &'t Global1) -> Result<bool, Memory> {
    match global {
        Global1::Shape(line) => Ok(line.line == 2),
        Global1::Tdf(block) => {
            let scope = tdf_scope(alloc, globals, block)?;
            let layout = Layout::of(alloc, &scope)?;
            drop(layout);
            Ok(is_module(&scope))
        }
        Global1::De(block) => Ok(is_event_block(&de_scope(alloc, globals, block)?)),
        Global1::Net(block) => Ok(is_net(&composite_scope(alloc, globals, block)?)),
    }
}

/// How many blocks and types of BLOCKS are as their lines say, or none where the global names aren't.
///
/// # Errors
/// Out of memory.
fn right_blocks(alloc: Global) -> Result<u8, Memory> {
    let tree = tree_of(alloc, BLOCKS)?;
    let globals = globals_of(alloc, &tree.globals)?;
    let mut count = 0u8;
    for global in &tree.globals {
        if is_block(alloc, &globals, global)? {
            count = count.saturating_add(1);
        }
    }
    Ok(if has_globals(&globals) { count } else { 0 })
}

/// Places, kinds, and whether the place allows the kind.
const PLACES: &[(Place, Option<Kind>, bool)] = &[
    (Place::Format, Some(Kind::Type), true),
    (Place::Format, Some(Kind::Tdf), false),
    (Place::Block, Some(Kind::De), true),
    (
        Place::Value(Part::Processing),
        Some(Kind::Port(PortKind::In)),
        true,
    ),
    (
        Place::Value(Part::Initialize),
        Some(Kind::Port(PortKind::In)),
        false,
    ),
    (
        Place::Value(Part::Process),
        Some(Kind::Port(PortKind::DeIn)),
        true,
    ),
    (Place::Value(Part::Processing), Some(Kind::Array), false),
    (Place::Element(Part::Change), Some(Kind::Array), true),
    (
        Place::Element(Part::Process),
        Some(Kind::Port(PortKind::DeIn)),
        false,
    ),
    (
        Place::Target(Part::Processing),
        Some(Kind::Port(PortKind::DeOut)),
        true,
    ),
    (
        Place::Target(Part::Reinitialize),
        Some(Kind::Port(PortKind::Out)),
        false,
    ),
    (Place::Target(Part::Processing), Some(Kind::Const), false),
    (
        Place::TargetElement(Part::Process),
        Some(Kind::Port(PortKind::DeOut)),
        false,
    ),
    (Place::Index, Some(Kind::RateVar), false),
    (Place::Limit, Some(Kind::RateVar), true),
    (Place::Limit, Some(Kind::Loop), false),
    (Place::Sensed, Some(Kind::Port(PortKind::DeIn)), true),
    (Place::Notified, Some(Kind::Port(PortKind::DeIn)), false),
    (Place::Bound, Some(Kind::DeSignal), true),
    (Place::Bound, Some(Kind::Instance), false),
    (Place::Port, None, false),
];

/// How many of PLACES are otherwise.
fn wrong_places() -> u8 {
    let mut count = 0u8;
    for &(place, kind, allowed) in PLACES {
        if is_allowed(place, kind) != allowed {
            count = count.saturating_add(1);
        }
    }
    count
}

#[test]
fn names_in_force(rt: HostRuntime) -> Result<(), Fail> {
    assert_eq!(rt; right_blocks(rt.alloc())?, 4);
    assert_eq!(rt; wrong_places(), 0);
    Ok(())
}
