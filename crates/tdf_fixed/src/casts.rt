//! The cast: rounding first, overflow second.

ghost use Rattle.std.specs.Prelude.{◌≡◌, ◌-◌, ◌*◌, ◌<◌, ◌≤◌, ◌^◌, unsigned_abs};
ghost use Rattle.tdf_fixed.specs.Cast.{cast_of, fraction_of};
ghost use Rattle.tdf_fixed.specs.Overflow.{IsOfWidth, overflowed};
ghost use Rattle.tdf_fixed.specs.Quantise.{requantised};
ghost use Rattle.tdf_fixed.specs.declared.over.Over.TheVariants.{Wrap};
ghost use Rattle.tdf_fixed.specs.declared.quant.Quant.TheVariants.{Trn};

use crate::format::Format;
use crate::over::Over;
use crate::overflows::overflow;
use crate::quant::Quant;
use crate::raw::Raw;
use crate::rounding::place;
use crate::short::{cast_short, cut_short};

/// The cast of any value, in 128 bits. Its parameters are numbers, so that nothing is copied where `cast` doesn't need it.
#[cold]
#[inline(never)]
fn cast_long(num: i128, from: u32, to: u32, quant: Quant, over: Over, signed: bool, wl: u32) -> i128
    requires few { (from ≤ 120) × (to ≤ 63) }
    requires small { unsigned_abs num * 2 ^ (to - from) ≤ 2 ^ 120 }
    requires wl { (1 ≤ wl) × (wl ≤ 64) }
    ensures { result ≡ overflowed over signed wl (requantised quant num from to) }
{
    overflow(over, signed, wl, place(quant, num, from, to))
}

#[inline(always)]
#[tactic(auto, unfolding(crate::specs::Cast::cast_of))]
fn cast_number(value: Raw, format: Format) -> i128
    requires few { value.frac ≤ 120 }
    requires small { unsigned_abs value.num * 2 ^ (fraction_of format - value.frac) ≤ 2 ^ 120 }
    ensures { result ≡ cast_of format value.num value.frac }
{
    match cast_short(&value, &format) {
        Some(num) => i128::from(num),
        None => cast_long(
            value.num,
            value.frac,
            format.wl - format.iwl,
            format.quant,
            format.over,
            format.signed,
            format.wl,
        ),
    }
}

/// The value in a format: rounded to its last place by `quant`, then fitted into its range by `over`. The result has
/// `wl - iwl` fraction bits. It takes no memory.
#[inline]
pub fn cast(value: Raw, format: Format) -> Raw
    requires few { value.frac ≤ 120 }
    requires small { unsigned_abs value.num * 2 ^ (fraction_of format - value.frac) ≤ 2 ^ 120 }
    ensures num { result.num ≡ cast_of format value.num value.frac }
    ensures frac { result.frac ≡ fraction_of format }
    ensures range { IsOfWidth format.signed format.wl result.num }
    ensures few { result.frac ≤ 63 }
    ensures small { unsigned_abs result.num < 2 ^ 64 }
{
    Raw {
        num: cast_number(value, format),
        frac: format.wl - format.iwl,
    }
}

#[inline(always)]
#[tactic(auto, unfolding(crate::specs::Cast::cast_of))]
fn cut_number(value: Raw, format: Format) -> i128
    requires modes { (format.quant ≡ Trn) × (format.over ≡ Wrap) }
    requires few { value.frac ≤ 120 }
    requires small { unsigned_abs value.num * 2 ^ (fraction_of format - value.frac) ≤ 2 ^ 120 }
    ensures { result ≡ cast_of format value.num value.frac }
{
    match cut_short(
        value.num,
        value.frac,
        format.wl - format.iwl,
        format.signed,
        format.wl,
    ) {
        Some(num) => i128::from(num),
        None => cast_long(
            value.num,
            value.frac,
            format.wl - format.iwl,
            Quant::Trn,
            Over::Wrap,
            format.signed,
            format.wl,
        ),
    }
}

/// As `cast`, to a format whose modes are `trn` and `wrap`: two shifts, for a caller that knows the modes.
#[inline(always)]
pub fn cast_trn_wrap(value: Raw, format: Format) -> Raw
    requires modes { (format.quant ≡ Trn) × (format.over ≡ Wrap) }
    requires few { value.frac ≤ 120 }
    requires small { unsigned_abs value.num * 2 ^ (fraction_of format - value.frac) ≤ 2 ^ 120 }
    ensures num { result.num ≡ cast_of format value.num value.frac }
    ensures frac { result.frac ≡ fraction_of format }
    ensures range { IsOfWidth format.signed format.wl result.num }
    ensures few { result.frac ≤ 63 }
    ensures small { unsigned_abs result.num < 2 ^ 64 }
{
    Raw {
        num: cut_number(value, format),
        frac: format.wl - format.iwl,
    }
}
