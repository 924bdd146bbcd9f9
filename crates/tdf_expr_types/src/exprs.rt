//! The faults of expressions.

ghost use Rattle.std.specs.Option.{option_map};
ghost use Rattle.std.specs.Prelude.{◌≡◌, ◌&&◌, map, nat_lt};
ghost use Rattle.tdf_expr_types.specs.machine.Caps.{IsCapped};
ghost use Rattle.tdf_expr_types.specs.machine.Parts.{binary_faults, cast_faults, shift_faults};
ghost use Rattle.tdf_expr_types.specs.machine.Sites.{expr_faults_at, width_at};
ghost use Rattle.tdf_base.specs.First.{least_with};
ghost use Rattle.tdf_expr_symbols.specs.Faults.{cast_shape, expr_faults, is_comparison, is_wide, own_faults, wide_faults};
ghost use Rattle.tdf_expr_symbols.specs.Names.{type_shape};
ghost use Rattle.tdf_expr_symbols.specs.Seen.{seen, seen_loop};
ghost use Rattle.tdf_expr_symbols.specs.Width.{Width, joint, of_binary, width_of_shape, of_shift, width};
ghost use Rattle.tdf_lang_tree.specs.Pure.{EAt, EName, ENumber};
ghost use Rattle.tdf_lang_tree.specs.Views.{pure_expr};

use crate::indices::note_index;
use crate::notes::note_kind;
use crate::site::Site;
use crate::sizes::{self, Sizes};
use tdf_base::{Code, Digits, LineFault, Name, noted};
use tdf_expr_symbols::{Place, Scope, Thing};
use tdf_lang_tree::{Expr, Index, Op, Shape};

/// The greatest count of bits by which a value is shifted.
const MOST_SHIFT: u64 = 63;

/// The format of a type's name.
fn type_shape(thing: Option<Thing>) -> Option<Shape>
    ensures { result ≡ type_shape (option_map seen thing.entry) }
{
    match thing {
        Some(Thing::TypeName(shape)) => Some(shape),
        _ => None,
    }
}

/// Notes where a value has more bits than it may have, and hands its width on.
#[tactic(auto, using(crate::proofs::Leasts::least_laws))]
fn note_wide(first: &mut Option<LineFault>, line: u32, size: Sizes) -> Sizes
    ensures first { (w : Width) → IsCapped size w → first.new ≡ least_with first.old
        (wide_faults w line) }
    ensures width { result ≡ size }
{
    *first = noted(*first, sizes::is_wide(size), Code::Wide, line);
    size
}

fn is_far(bits: u64) -> bool
    ensures { result ≡ nat_lt 63 bits }
{
    bits > MOST_SHIFT
}

fn is_comparison(op: Op) -> bool
    ensures { result ≡ is_comparison op }
{
    matches!(op, Op::Lt | Op::Le | Op::Eq | Op::Ne | Op::Gt | Op::Ge)
}

/// Whether two operands that are compared have together more bits than a value may have.
fn is_wide_test(op: Op, a: Sizes, b: Sizes) -> bool
    ensures { (v w : Width) → IsCapped a v → IsCapped b w → result ≡ (is_comparison op && is_wide (joint v w)) }
{
    is_comparison(op) && sizes::is_wide(sizes::greater(a, b))
}

#[tactic(auto, using(crate::proofs::Leasts::least_laws), unfolding(tdf_expr_symbols::specs::Faults::expr_faults))]
fn check_number(first: &mut Option<LineFault>, site: &Site, digits: &Digits) -> Sizes
    ensures first { first.new ≡ least_with first.old
        (expr_faults_at site.now (ENumber digits.now)) }
    ensures width { IsCapped result (width_at site.now (ENumber digits.now)) }
{
    *first = noted(
        *first,
        sizes::is_inexact(digits),
        Code::InexactLiteral,
        site.line,
    );
    note_wide(first, site.line, sizes::number_width(digits))
}

#[tactic(auto, using(crate::proofs::Leasts::least_laws), unfolding(tdf_expr_symbols::specs::Faults::expr_faults))]
fn check_name(first: &mut Option<LineFault>, site: &Site, name: &Name) -> Sizes
    ensures first { first.new ≡ least_with first.old (expr_faults_at site.now (EName name.now)) }
    ensures width { IsCapped result (width_at site.now (EName name.now)) }
{
    let thing = site.named(name);
    note_kind(first, Place::Value(site.part), thing, site.line);
    note_wide(first, site.line, sizes::thing_width(thing))
}

#[tactic(auto, using(crate::proofs::Leasts::least_laws), unfolding(tdf_expr_symbols::specs::Faults::expr_faults))]
fn check_element(first: &mut Option<LineFault>, site: &Site, name: &Name, index: &Index) -> Sizes
    ensures first { first.new ≡ least_with first.old
        (expr_faults_at site.now (EAt name.now index.now)) }
    ensures width { IsCapped result (width_at site.now (EAt name.now index.now)) }
{
    let thing = site.named(name);
    note_kind(first, Place::Element(site.part), thing, site.line);
    note_index(first, site, thing, index);
    note_wide(first, site.line, sizes::thing_width(thing))
}

/// Notes the faults of a cast of a value with a width, and tells the width of its format.
#[tactic(auto, using(crate::proofs::Leasts::least_laws))]
fn note_cast(
    first: &mut Option<LineFault>,
    scope: &Scope,
    line: u32,
    name: &Name,
    size: Sizes,
) -> Sizes
    ensures first { (w : Width) → IsCapped size w → first.new ≡ least_with first.old
        (cast_faults scope.now line name.now w) }
    ensures width { IsCapped result (width_of_shape (cast_shape scope.now name.now)) }
{
    let thing = scope.global(name.as_bytes());
    let shape = type_shape(thing);
    note_kind(first, Place::Format, thing, line);
    *first = noted(
        *first,
        sizes::is_wide_cast(shape, size),
        Code::WideCast,
        line,
    );
    note_wide(first, line, sizes::shape_width(shape))
}

/// Notes the faults of a value with a width that is shifted, and tells the width then.
#[tactic(auto, using(crate::proofs::Leasts::least_laws))]
fn note_shift(first: &mut Option<LineFault>, line: u32, left: bool, bits: u64, size: Sizes) -> Sizes
    ensures first { (w : Width) → IsCapped size w → first.new ≡ least_with first.old
        (shift_faults line left bits w) }
    ensures width { (w : Width) → IsCapped size w → IsCapped result (of_shift left bits w) }
{
    *first = noted(*first, is_far(bits), Code::Limit, line);
    note_wide(first, line, sizes::shifted(left, bits, size))
}

/// Notes the faults of two operands with widths that are combined, and tells the width then.
#[tactic(auto, using(crate::proofs::Leasts::least_laws))]
fn note_binary(first: &mut Option<LineFault>, line: u32, op: Op, a: Sizes, b: Sizes) -> Sizes
    ensures first { (v w : Width) → IsCapped a v → IsCapped b w → first.new ≡ least_with first.old
        (binary_faults line op v w) }
    ensures width { (v w : Width) → IsCapped a v → IsCapped b w → IsCapped result (of_binary op v w) }
{
    *first = noted(*first, is_wide_test(op, a, b), Code::Wide, line);
    note_wide(first, line, sizes::binary(op, a, b))
}

/// Notes the faults of an expression on a line, and tells its width.
#[tactic(auto, using(crate::proofs::Leasts::least_laws), unfolding(tdf_expr_symbols::specs::Faults::expr_faults))]
pub fn check_expr(first: &mut Option<LineFault>, site: &Site, e: &Expr) -> Sizes
    ensures first { first.new ≡ least_with first.old (expr_faults_at site.now (pure_expr e.now)) }
    ensures width { IsCapped result (width_at site.now (pure_expr e.now)) }
{
    match e {
        Expr::Number(digits) => check_number(first, site, digits),
        Expr::Name(name) => check_name(first, site, name),
        Expr::At(name, index) => check_element(first, site, name, index),
        Expr::Cast(name, value) => {
            let size = check_expr(first, site, value);
            note_cast(first, site.scope, site.line, name, size)
        }
        Expr::Select(test, a, b) => {
            check_expr(first, site, test);
            let a = check_expr(first, site, a);
            let b = check_expr(first, site, b);
            note_wide(first, site.line, sizes::greater(a, b))
        }
        Expr::Not(value) => {
            check_expr(first, site, value);
            note_wide(first, site.line, sizes::truth())
        }
        Expr::Neg(value) => {
            let size = check_expr(first, site, value);
            note_wide(first, site.line, size)
        }
        Expr::Shift(value, left, bits) => {
            let size = check_expr(first, site, value);
            note_shift(first, site.line, *left, *bits, size)
        }
        Expr::Binary(op, a, b) => {
            let a = check_expr(first, site, a);
            let b = check_expr(first, site, b);
            note_binary(first, site.line, *op, a, b)
        }
    }
}
