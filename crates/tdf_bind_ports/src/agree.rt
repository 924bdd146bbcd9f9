//! Whether a port and what it is bound to agree.

ghost use Rattle.std.specs.Option.{option_map};
ghost use Rattle.std.specs.Prelude.{◌≡◌, ◌&&◌};
ghost use Rattle.tdf_bind_ports.specs.Agree.{agrees, fits, has_same_format, is_same_over, is_same_quant, is_same_shape, is_same_word, is_samples};
ghost use Rattle.tdf_expr_symbols.specs.Names.{format_of, kind_of};
ghost use Rattle.tdf_expr_symbols.specs.Seen.{seen};

use tdf_expr_symbols::{Kind, Table, Thing, format_of};
use tdf_fixed::{Over, Quant};
use tdf_lang_tree::{PortKind, PortLine, Shape};

/// Whether a port is one of samples.
fn is_samples(word: PortKind) -> bool
    ensures { result ≡ is_samples word }
{
    match word {
        PortKind::In => true,
        PortKind::Out => true,
        PortKind::DeIn => false,
        PortKind::DeOut => false,
    }
}

fn is_same_word(a: PortKind, b: PortKind) -> bool
    ensures { result ≡ is_same_word a b }
{
    a == b
}

fn is_same_quant(a: Quant, b: Quant) -> bool
    ensures { result ≡ is_same_quant a b }
{
    a == b
}

fn is_same_over(a: Over, b: Over) -> bool
    ensures { result ≡ is_same_over a b }
{
    a == b
}

/// Whether two formats are equal in all five parts.
fn is_same_shape(a: Shape, b: Shape) -> bool
    ensures { result ≡ is_same_shape a b }
{
    a.signed == b.signed
        && a.wl == b.wl
        && a.iwl == b.iwl
        && is_same_quant(a.quant, b.quant)
        && is_same_over(a.over, b.over)
}

fn has_same_format(a: Option<Shape>, b: Option<Shape>) -> bool
    ensures { result ≡ has_same_format a b }
{
    match (a, b) {
        (Some(a), Some(b)) => is_same_shape(a, b),
        _ => false,
    }
}

/// Whether a port of this word may be bound to a name of this kind.
fn fits(word: PortKind, kind: Kind) -> bool
    ensures { result ≡ fits word kind }
{
    match kind {
        Kind::Signal => is_samples(word),
        Kind::DeSignal => !is_samples(word),
        Kind::Port(other) => is_same_word(word, other),
        _ => false,
    }
}

/// Whether a port agrees with what it is bound to.
pub(crate) fn agrees(globals: &Table, port: &PortLine, target: Option<Thing>) -> bool
    ensures { result ≡ agrees globals.now port.now (option_map seen target.entry) }
{
    match target {
        None => false,
        Some(thing) => {
            fits(port.kind, thing.kind())
                && has_same_format(format_of(globals, &port.format), thing.shape())
        }
    }
}
