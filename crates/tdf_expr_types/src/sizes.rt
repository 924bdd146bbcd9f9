//! Widths, counted up to the greatest number.

ghost use Rattle.std.specs.Option.{option_map};
ghost use Rattle.std.specs.Prelude.{◌≡◌, ◌≤◌, ◌/◌, ◌^◌, nat_lt, unsigned_abs};
ghost use Rattle.tdf_expr_types.specs.machine.Caps.{IsCapped};
ghost use Rattle.tdf_fixed.specs.Literal.{exact_of};
ghost use Rattle.tdf_expr_symbols.specs.Faults.{is_err, is_wide, is_wide_cast};
ghost use Rattle.tdf_expr_symbols.specs.Seen.{seen};
ghost use Rattle.tdf_expr_symbols.specs.Width.{Width, bits_from, joint, of_binary, of_number, of_product, width_of_shape, of_shift, of_sum, of_thing, of_truth};

use tdf_base::Digits;
use tdf_expr_symbols::Thing;
use tdf_fixed::{NumErr, Raw, read_exact};
use tdf_lang_tree::{Op, Shape};

/// A width, or the greatest number where a side of it is greater.
#[derive(Clone, Copy)]
pub struct Sizes {
    /// Bits before the point.
    pub whole: u64,
    /// Bits after the point.
    pub part: u64,
}

/// The width of a comparison, of `and`, `or` and `not`.
pub fn truth() -> Sizes
    ensures { IsCapped result of_truth }
{
    Sizes { whole: 1, part: 0 }
}

/// The width of values of a format.
pub fn shape_width(shape: Option<Shape>) -> Sizes
    ensures { IsCapped result (width_of_shape shape) }
{
    match shape {
        None => Sizes { whole: 0, part: 0 },
        Some(shape) => Sizes {
            whole: shape.iwl,
            part: shape.wl.saturating_sub(shape.iwl),
        },
    }
}

/// The width of what a name stands for.
pub fn thing_width(thing: Option<Thing>) -> Sizes
    ensures { IsCapped result (of_thing (option_map seen thing.entry)) }
{
    match thing {
        None => Sizes { whole: 0, part: 0 },
        Some(Thing::RateVar(_, _, _)) => Sizes { whole: 13, part: 0 },
        Some(Thing::Loop(_, _)) => Sizes { whole: 13, part: 0 },
        Some(thing) => shape_width(thing.shape()),
    }
}

fn fits(n: u128, bits: u32) -> bool
    requires { bits ≤ 60 }
    ensures { result ≡ nat_lt n (2 ^ bits) }
{
    n < 1 << bits
}

/// The least count of bits that a number fits, at most 60.
#[tactic(auto, using(crate::proofs::Bits::bits_laws))]
fn bits(n: u128) -> u32
    ensures value { result ≡ bits_from n 0 60 }
    ensures few { result ≤ 60 }
{
    for bits in 0..60 {
        if fits(n, bits) {
            return bits;
        }
    }
    60
}

fn whole_part(raw: Raw) -> u128
    requires { raw.frac ≤ 18 }
    ensures { result ≡ unsigned_abs raw.num / 2 ^ raw.frac }
{
    raw.num.unsigned_abs() >> raw.frac
}

/// The width of a number as it is written; nothing where it is no number of fraction bits.
pub fn number_width(digits: &Digits) -> Sizes
    ensures { IsCapped result (of_number (exact_of digits.now)) }
{
    match read_exact(digits.as_bytes()) {
        Ok(raw) => Sizes {
            whole: u64::from(bits(whole_part(raw))),
            part: u64::from(raw.frac),
        },
        Err(_) => Sizes { whole: 0, part: 0 },
    }
}

/// Whether a number has no exact value.
pub fn is_inexact(digits: &Digits) -> bool
    ensures { result ≡ is_err (exact_of digits.now) }
{
    match read_exact(digits.as_bytes()) {
        Ok(_) => false,
        Err(_) => true,
    }
}

/// The greater of both sides.
pub fn greater(a: Sizes, b: Sizes) -> Sizes
    ensures { (v w : Width) → IsCapped a v → IsCapped b w → IsCapped result (joint v w) }
{
    Sizes {
        whole: a.whole.max(b.whole),
        part: a.part.max(b.part),
    }
}

fn sum(a: Sizes, b: Sizes) -> Sizes
    ensures { (v w : Width) → IsCapped a v → IsCapped b w → IsCapped result (of_sum v w) }
{
    Sizes {
        whole: a.whole.max(b.whole).saturating_add(1),
        part: a.part.max(b.part),
    }
}

fn product(a: Sizes, b: Sizes) -> Sizes
    ensures { (v w : Width) → IsCapped a v → IsCapped b w → IsCapped result (of_product v w) }
{
    Sizes {
        whole: a.whole.saturating_add(b.whole),
        part: a.part.saturating_add(b.part),
    }
}

/// The width of two operands' combination.
pub fn binary(op: Op, a: Sizes, b: Sizes) -> Sizes
    ensures { (v w : Width) → IsCapped a v → IsCapped b w → IsCapped result (of_binary op v w) }
{
    match op {
        Op::Add => sum(a, b),
        Op::Sub => sum(a, b),
        Op::Mul => product(a, b),
        Op::Or => truth(),
        Op::And => truth(),
        Op::Lt => truth(),
        Op::Le => truth(),
        Op::Eq => truth(),
        Op::Ne => truth(),
        Op::Gt => truth(),
        Op::Ge => truth(),
    }
}

/// The width of a value that is shifted by some bits.
pub fn shifted(left: bool, n: u64, a: Sizes) -> Sizes
    ensures { (v : Width) → IsCapped a v → IsCapped result (of_shift left n v) }
{
    if left {
        return Sizes {
            whole: a.whole.saturating_add(n),
            part: a.part,
        };
    }
    Sizes {
        whole: a.whole,
        part: a.part.saturating_add(n),
    }
}

/// Whether a width has more bits than a value may have.
#[tactic(auto, using(crate::proofs::Caps::wide_laws))]
pub fn is_wide(a: Sizes) -> bool
    ensures { (w : Width) → IsCapped a w → result ≡ is_wide w }
{
    a.whole.saturating_add(a.part) > 120
}

/// Whether a width has more bits than a value may have that is cast to a format.
#[tactic(auto, using(crate::proofs::Caps::wide_laws))]
pub fn is_wide_cast(shape: Option<Shape>, a: Sizes) -> bool
    ensures { (w : Width) → IsCapped a w → result ≡ is_wide_cast shape w }
{
    let Some(shape) = shape else {
        return false;
    };
    let part = a.part.max(shape.wl.saturating_sub(shape.iwl));
    a.whole.saturating_add(part) > 120
}
