//! Literals: decimal numbers, read into a format or exactly.

ghost use Rattle.std.specs.Prelude.{◌≡◌, ◌+◌, ◌*◌, ◌-◌, ◌/◌, ◌%◌, ◌<◌, ◌≤◌, ◌^◌, true, length, slice_index, nat_eq, unsigned_abs, IsTrue, IfSome, IfOk};
ghost use Rattle.std.specs.Option.{option_map};
ghost use Rattle.tdf_fixed.specs.Cast.{fraction_of};
ghost use Rattle.tdf_fixed.specs.Literal.{literal_of, literal_cast, literal_exact, decimal_of, exact_of, least_fraction, signed_number};
ghost use Rattle.tdf_base.specs.Number.{numeral_of, is_short};
ghost use Rattle.tdf_fixed.specs.Overflow.{IsOfWidth};
ghost use Rattle.tdf_base.specs.Sides.{spelt, AreDigits};
ghost use Rattle.tdf_fixed.specs.Sides.{signed};

use crate::format::Format;
use crate::overflows::overflow;
use crate::placing::{as_is, opposite, place_fraction, scaled_up};
use crate::raw::Raw;
use tdf_base::{Numeral, is_short, power_of_ten, split, value};
use thiserror::Error;

/// Why a text is no decimal number.
#[derive(Clone, Copy, Debug, Drop, Error, PartialEq, Eq)]
pub enum DecimalErr {
    /// The text is not digits, or digits, a point and digits, with or without a `-` directly in front.
    #[error("not a number")]
    NotNumber,
    /// It has that form, and more than 18 digits on one side of the point.
    #[error("more than 18 digits on one side of the point")]
    TooManyDigits,
}

/// Why a text is no exact binary fraction.
#[derive(Clone, Copy, Debug, Drop, Error, PartialEq, Eq)]
pub enum NumErr {
    /// The text is not digits, or digits, a point and digits, with or without a `-` directly in front.
    #[error("not a number")]
    NotNumber,
    /// It has that form, and more than 18 digits on one side of the point.
    #[error("more than 18 digits on one side of the point")]
    TooManyDigits,
    /// No count of fraction bits makes it whole.
    #[error("not a whole number over a power of 2")]
    Inexact,
}

/// A numeral with its sign.
#[derive(Clone, Copy)]
pub(crate) struct Signed<'t> {
    pub(crate) minus: bool,
    pub(crate) parts: Numeral<'t>,
}

fn begins_minus(text: &[u8]) -> bool
    ensures value { result ≡ nat_eq (slice_index text.now 0) 45 }
    ensures some { IsTrue result → 0 < length text.now }
{
    if text.is_empty() {
        return false;
    }
    text[0] == b'-'
}

fn with_sign<'t>(minus: bool, text: &'t [u8]) -> Option<Signed<'t>>
    ensures value { option_map signed result ≡ option_map (λ n. record { minus = minus; numeral = n }) (numeral_of text.entry.now) }
    ensures digits { IfSome result (λ l. AreDigits l.parts.whole.now l.parts.fraction.now) }
{
    let parts = split(text)?;
    Some(Signed { minus, parts })
}

/// The literal that the text is: a numeral with or without a `-` directly in front.
#[tactic(auto, unfolding(crate::specs::Literal::literal_of))]
fn literal<'t>(text: &'t [u8]) -> Option<Signed<'t>>
    ensures value { option_map signed result ≡ literal_of text.entry.now }
    ensures digits { IfSome result (λ l. AreDigits l.parts.whole.now l.parts.fraction.now) }
{
    if begins_minus(text) {
        return with_sign(true, &text[1..]);
    }
    with_sign(false, text)
}

/// The literal's exact decimal, cast.
#[tactic(auto, unfolding(crate::specs::Literal::literal_cast))]
fn cast_literal(literal: &Signed, format: Format) -> i128
    requires digits { AreDigits literal.now.parts.whole.now literal.now.parts.fraction.now }
    requires short { is_short (spelt literal.now.parts) ≡ true }
    ensures value { result ≡ literal_cast format (signed literal.now) }
    ensures range { IsOfWidth format.signed format.wl result }
{
    let parts = literal.parts;
    let d = power_of_ten(parts.fraction.len());
    let placed = place_fraction(
        format.quant,
        literal.minus,
        value(parts.whole),
        value(parts.fraction),
        d,
        format.wl - format.iwl,
    );
    overflow(format.over, format.signed, format.wl, placed)
}

/// Reads a decimal number, as `-0.75`, into a format: its exact value, cast. It takes no memory.
///
/// # Errors
/// `NotNumber` where the text is not digits, or digits, a point and digits, with or without a `-` directly in front;
/// `TooManyDigits` where it is, and has more than 18 digits on one side of the point.
#[tactic(auto, unfolding(crate::specs::Literal::decimal_of))]
pub fn read_decimal(text: &[u8], format: Format) -> Result<Raw, DecimalErr>
    ensures value { result ≡ decimal_of format text.now }
    ensures range { IfOk result (λ r. IsOfWidth format.signed format.wl r.num) }
    ensures frac { IfOk result (λ r. r.frac ≡ fraction_of format) }
{
    let Some(literal) = literal(text) else {
        return Err(DecimalErr::NotNumber);
    };
    if !is_short(&literal.parts) {
        return Err(DecimalErr::TooManyDigits);
    }
    Ok(Raw {
        num: cast_literal(&literal, format),
        frac: format.wl - format.iwl,
    })
}

fn is_whole(part: u64, d: u128, frac: u32) -> bool
    requires sizes { (part < 10 ^ 18) × (0 < d) }
    requires few { frac ≤ 18 }
    ensures { result ≡ nat_eq (part * 2 ^ frac % d) 0 }
{
    scaled_up(part, frac) % d == 0
}

/// The least count of fraction bits at which `part / 10^digits` is whole.
#[tactic(auto, using(crate::proofs::Exacts::least_lemmas))]
fn least_frac(part: u64, d: u128, digits: u32) -> Option<u32>
    requires sizes { (part < 10 ^ 18) × (0 < d) }
    requires few { digits ≤ 18 }
    ensures value { result ≡ least_fraction part d (digits + 1) 0 }
    ensures few { IfSome result (λ frac. frac ≤ 18) }
{
    for frac in 0..digits + 1 {
        if is_whole(part, d, frac) {
            return Some(frac);
        }
    }
    None
}

/// `(whole + part/d) * 2^frac`.
#[tactic(auto, using(crate::proofs::Exacts::exact_small))]
fn exact_magnitude(whole: u64, part: u64, d: u128, frac: u32) -> u128
    requires sides { (whole < 10 ^ 18) × (part < 10 ^ 18) × (part < d) }
    requires few { frac ≤ 18 }
    ensures value { result ≡ whole * 2 ^ frac + part * 2 ^ frac / d }
    ensures below { result < 10 ^ 18 * 2 ^ frac }
    ensures small { result < 2 ^ 124 }
{
    scaled_up(whole, frac) + scaled_up(part, frac) / d
}

/// `(whole + part/d) * 2^frac` with a sign.
fn exact_number(minus: bool, whole: u64, part: u64, d: u128, frac: u32) -> i128
    requires sides { (whole < 10 ^ 18) × (part < 10 ^ 18) × (part < d) }
    requires few { frac ≤ 18 }
    ensures value { result ≡ signed_number minus (whole * 2 ^ frac + part * 2 ^ frac / d) }
    ensures below { unsigned_abs result < 10 ^ 18 * 2 ^ frac }
{
    let number = exact_magnitude(whole, part, d, frac);
    if minus {
        opposite(number)
    } else {
        as_is(number)
    }
}

#[tactic(auto, unfolding(crate::specs::Literal::literal_exact))]
fn exact(literal: &Signed) -> Result<Raw, NumErr>
    requires digits { AreDigits literal.now.parts.whole.now literal.now.parts.fraction.now }
    requires short { is_short (spelt literal.now.parts) ≡ true }
    ensures value { result ≡ literal_exact (signed literal.now) }
    ensures few { IfOk result (λ r. r.frac ≤ 18) }
    ensures below { IfOk result (λ r. unsigned_abs r.num < 10 ^ 18 * 2 ^ r.frac) }
{
    let parts = literal.parts;
    let d = power_of_ten(parts.fraction.len());
    let part = value(parts.fraction);
    let Some(frac) = least_frac(part, d, parts.fraction.len() as u32) else {
        return Err(NumErr::Inexact);
    };
    Ok(Raw {
        num: exact_number(literal.minus, value(parts.whole), part, d, frac),
        frac,
    })
}

/// Reads a decimal number exactly: the value with the least count of fraction bits, at most 18; the value is below 10^18 either
/// way. It takes no memory.
///
/// # Errors
/// `NotNumber` and `TooManyDigits` as for `read_decimal`; `Inexact` where no count of fraction bits makes the value whole.
#[tactic(auto, unfolding(crate::specs::Literal::exact_of))]
pub fn read_exact(text: &[u8]) -> Result<Raw, NumErr>
    ensures value { result ≡ exact_of text.now }
    ensures few { IfOk result (λ r. r.frac ≤ 18) }
    ensures below { IfOk result (λ r. unsigned_abs r.num < 10 ^ 18 * 2 ^ r.frac) }
{
    let Some(literal) = literal(text) else {
        return Err(NumErr::NotNumber);
    };
    if !is_short(&literal.parts) {
        return Err(NumErr::TooManyDigits);
    }
    exact(&literal)
}
