//! Formats and literals of a body.

ghost use Rattle.std.specs.Prelude.{◌≡◌, ◌∷◌, min, Ok, IfOk, if◌then◌else◌};
ghost use Rattle.tdf_base.specs.Number.{numeral_of};
ghost use Rattle.tdf_expr_compiler.specs.Formats.{IsFormatOf};
ghost use Rattle.tdf_expr_compiler.specs.machine.Found.{bits_in};
ghost use Rattle.tdf_fixed.specs.Cast.{IsLegal};
ghost use Rattle.tdf_fixed.specs.Literal.{decimal_of};
ghost use Rattle.tdf_fixed.specs.declared.raw.Raw.{Raw as RawOf};
ghost use Rattle.tdf_expr_semantics.specs.Value.{literal_number};
ghost use Rattle.tdf_expr_symbols.specs.Width.{width_of_shape};
ghost use Rattle.tdf_lang_tree.specs.Kept.{KeepsLit};

use std::alloc::Global;
use tdf_base::Memory;
use tdf_fixed::{Format, read_decimal};
use tdf_lang_tree::{Lit, Shape};

/// The format that a line wrote.
pub fn format_of(shape: Shape) -> Format
    requires { IsLegal shape.wl shape.iwl }
    ensures { IsFormatOf shape result }
{
    Format {
        signed: shape.signed,
        wl: shape.wl as u32,
        iwl: shape.iwl as u32,
        quant: shape.quant,
        over: shape.over,
    }
}

/// The bits after the point of a format, at most 255.
pub(crate) fn part_of(shape: Option<Shape>) -> u8
    ensures { result ≡ min (width_of_shape shape).part 255 }
{
    match shape {
        None => 0,
        Some(shape) => shape.wl.saturating_sub(shape.iwl).min(255) as u8,
    }
}

/// How many bits a number in a format has at most, its sign aside.
pub(crate) fn bits_in(shape: Option<Shape>) -> u32
    ensures { result ≡ bits_in shape }
{
    match shape {
        None => 0,
        Some(shape) => {
            let bits = if shape.signed {
                shape.wl.saturating_sub(1)
            } else {
                shape.wl
            };
            bits.min(255) as u32
        }
    }
}

/// The text of a literal.
///
/// # Errors
/// Out of memory.
fn text_of(alloc: Global, value: &Lit) -> Result<Vec<u8>, Memory>
    ensures { IfOk result (λ text. text.items ≡ (if value.now.minus then 45 ∷ value.now.digits else value.now.digits)) }
{
    let mut text = Vec::new(alloc);
    if value.minus {
        text.push(b'-')?;
    }
    text.extend_from_slice(value.digits.as_bytes())?;
    Ok(text)
}

/// A decimal number in a format, in units of its last place.
fn read(text: &[u8], format: Format) -> i128
    ensures { (raw : RawOf) → decimal_of format text.now ≡ Ok raw → result ≡ raw.num }
{
    match read_decimal(text, format) {
        Ok(raw) => raw.num,
        Err(_) => 0,
    }
}

/// A literal in a format, in units of its last place.
///
/// # Errors
/// Out of memory.
pub fn literal_in(alloc: Global, shape: Shape, value: &Lit) -> Result<i128, Memory>
    requires legal { IsLegal shape.wl shape.iwl }
    requires number { KeepsLit value.now }
    ensures { IfOk result (λ num.
        num ≡ literal_number shape value.now.minus (numeral_of value.now.digits)) }
{
    let text = text_of(alloc, value)?;
    let num = read(&text, format_of(shape));
    Ok(num)
}
