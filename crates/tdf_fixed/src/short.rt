//! Casts of 64-bit values, by 64-bit arithmetic and without a branch on the value.

ghost use Rattle.std.specs.Prelude.{◌≡◌, ◌+◌, ◌-◌, ◌*◌, ◌/◌, ◌<◌, ◌≤◌, ◌^◌, pos, ◌*ℤ◌, unsigned_abs, FitsSigned, IfSome, IsSome};
ghost use Rattle.std.specs.Int.{w64};
ghost use Rattle.tdf_fixed.specs.Cast.{cast_of, fraction_of};
ghost use Rattle.tdf_fixed.specs.Overflow.{least, most, least_symmetric, half_of, wrapped, overflowed};
ghost use Rattle.tdf_fixed.specs.Quantise.{above_by, below, is_odd, rounded_whole, quantised, requantised};
ghost use Rattle.tdf_fixed.specs.declared.over.Over.TheVariants.{Wrap};
ghost use Rattle.tdf_fixed.specs.declared.quant.Quant.TheVariants.{Trn};

use crate::format::Format;
use crate::over::Over;
use crate::quant::Quant;
use crate::raw::Raw;
use crate::rounding::up;

/// A power of two.
#[tactic(auto, using(crate::proofs::Shorts::small_power))]
fn unit(s: u32) -> i64
    requires { s ≤ 62 }
    ensures value { result ≡ pos (2 ^ s) }
    ensures small { unsigned_abs result ≤ 2 ^ 62 }
{
    1 << s
}

fn multiple(num: i64, s: u32) -> i64
    requires few { s ≤ 61 }
    requires small { unsigned_abs num * 2 ^ s ≤ 2 ^ 61 }
    ensures { result ≡ num *ℤ pos (2 ^ s) }
{
    num * unit(s)
}

/// `num / 2^s`, rounded down.
fn floor(num: i64, s: u32) -> i64
    requires { s ≤ 62 }
    ensures { result ≡ below num (2 ^ s) }
{
    num >> s
}

/// The multiple of `2^s` below.
fn back(num: i64, s: u32) -> i64
    requires { s ≤ 62 }
    ensures { result ≡ below num (2 ^ s) *ℤ pos (2 ^ s) }
{
    floor(num, s) * unit(s)
}

/// The distance from the neighbour below, in parts of `1/2^s`.
#[tactic(auto, using(crate::proofs::Shorts::rest_lemmas))]
fn rest(num: i64, s: u32) -> u64
    requires { s ≤ 62 }
    ensures value { result ≡ above_by num (2 ^ s) }
    ensures below { result < 2 ^ s }
{
    (num - back(num, s)) as u64
}

fn odd(num: i64) -> bool
    ensures { result ≡ is_odd num }
{
    rest(num, 1) == 1
}

/// Rounds a fraction, given its sign, its neighbour below and its distance from that in parts of `1/d`.
#[tactic(auto, unfolding(crate::specs::Quantise::rounded_whole))]
fn settle(quant: Quant, negative: bool, whole: i64, rest: u64, d: u64) -> i64
    requires few { rest < 2 ^ 62 }
    requires small { 0 < rest → unsigned_abs whole ≤ 2 ^ 62 }
    ensures value { result ≡ rounded_whole quant negative whole rest d }
{
    let twice = 2 * rest;
    let above = up(quant, negative, odd(whole), d < twice, twice == d);
    if rest != 0 && above { whole + 1 } else { whole }
}

/// `num / 2^s`, rounded.
#[tactic(auto, using(crate::proofs::Shorts::quantise_lemmas))]
fn quantise(quant: Quant, num: i64, s: u32) -> i64
    requires { s ≤ 62 }
    ensures { result ≡ quantised quant num (2 ^ s) }
{
    let whole = floor(num, s);
    match quant {
        Quant::Trn => whole,
        _ => settle(quant, num < 0, whole, rest(num, s), 1 << s),
    }
}

fn lowest(signed: bool, wl: u32) -> i64
    requires { (1 ≤ wl) × (wl ≤ 62) }
    ensures { result ≡ least signed wl }
{
    if signed { -unit(wl - 1) } else { 0 }
}

fn highest(signed: bool, wl: u32) -> i64
    requires { (1 ≤ wl) × (wl ≤ 62) }
    ensures { result ≡ most signed wl }
{
    if signed {
        unit(wl - 1) - 1
    } else {
        unit(wl) - 1
    }
}

fn lowest_symmetric(signed: bool, wl: u32) -> i64
    requires { (1 ≤ wl) × (wl ≤ 62) }
    ensures { result ≡ least_symmetric signed wl }
{
    if signed { 1 - unit(wl - 1) } else { 0 }
}

/// Half of a signed range, 0 of one without a sign.
#[tactic(auto, using(crate::proofs::Shorts::small_power))]
fn half(signed: bool, wl: u32) -> u64
    requires { (1 ≤ wl) × (wl ≤ 62) }
    ensures value { result ≡ half_of signed wl }
    ensures small { result ≤ 2 ^ 62 }
{
    if signed { 1 << (wl - 1) } else { 0 }
}

/// What is to be taken from a rest: `2^wl` where it is half a signed range or more, else 0; without a branch.
#[tactic(auto, using(crate::proofs::Shorts::wrap_lemmas))]
fn excess(signed: bool, wl: u32, rest: u64) -> u64
    requires wl { (1 ≤ wl) × (wl ≤ 62) }
    requires rest { rest < 2 ^ wl }
    ensures value { result ≡ (rest + half_of signed wl) / 2 ^ wl * 2 ^ wl }
    ensures small { result ≤ 2 ^ 62 }
{
    ((rest + half(signed, wl)) >> wl) * (1 << wl)
}

/// The number of the range that differs from `num` by a multiple of `2^wl`.
#[tactic(auto, using(crate::proofs::Shorts::wrap_lemmas))]
fn wrap(signed: bool, wl: u32, num: i64) -> i64
    requires { (1 ≤ wl) × (wl ≤ 62) }
    ensures { result ≡ wrapped signed wl num }
{
    let rest = rest(num, wl);
    rest as i64 - excess(signed, wl, rest) as i64
}

/// Fits a whole number into the range of `wl` bits.
#[tactic(auto, unfolding(crate::specs::Overflow::overflowed))]
fn overflow(over: Over, signed: bool, wl: u32, num: i64) -> i64
    requires { (1 ≤ wl) × (wl ≤ 62) }
    ensures { result ≡ overflowed over signed wl num }
{
    match over {
        Over::Wrap => wrap(signed, wl, num),
        Over::Sat => num.clamp(lowest(signed, wl), highest(signed, wl)),
        Over::SatZero => {
            if num.clamp(lowest(signed, wl), highest(signed, wl)) == num {
                num
            } else {
                0
            }
        }
        Over::SatSym => num.clamp(lowest_symmetric(signed, wl), highest(signed, wl)),
    }
}

/// The cast of `num / 2^s` in units of the last place, where `s` is small.
#[inline(always)]
fn lowered(num: i64, s: u32, format: &Format) -> Option<i64>
    requires { format.now.wl ≤ 62 }
    ensures value { IfSome result (λ n. n ≡ overflowed format.now.over format.now.signed format.now.wl (quantised format.now.quant num (2 ^ s))) }
    ensures found { s ≤ 62 → IsSome result }
{
    if s > 62 {
        return None;
    }
    let whole = quantise(format.quant, num, s);
    Some(overflow(format.over, format.signed, format.wl, whole))
}

/// The cast of `num * 2^s` in units of the last place, where that is small.
#[inline(always)]
#[tactic(auto, using(crate::proofs::Shorts::raised_within))]
fn raised(num: i64, s: u32, format: &Format) -> Option<i64>
    requires { format.now.wl ≤ 62 }
    ensures value { IfSome result (λ n. n ≡ overflowed format.now.over format.now.signed format.now.wl (num *ℤ pos (2 ^ s))) }
    ensures found { s ≤ 61 → unsigned_abs num < 2 ^ (61 - s) → IsSome result }
{
    if s > 61 || num.unsigned_abs() >> (61 - s) != 0 {
        return None;
    }
    Some(overflow(format.over, format.signed, format.wl, multiple(num, s)))
}

/// The cast of a value that fits 64 bits to a format of at most 62: `None` where either is larger, or the shift is.
#[inline(always)]
#[tactic(auto, using(crate::proofs::Scaling::placed_up, crate::proofs::Scaling::placed_down), unfolding(crate::specs::Cast::cast_of))]
pub(crate) fn cast_short(value: &Raw, format: &Format) -> Option<i64>
    ensures value { IfSome result (λ n. n ≡ cast_of format.now value.now.num value.now.frac) }
    ensures lowered { FitsSigned w64 value.now.num → format.now.wl ≤ 62 → fraction_of format.now ≤ value.now.frac
        → value.now.frac - fraction_of format.now ≤ 62 → IsSome result }
    ensures raised { format.now.wl ≤ 62 → value.now.frac < fraction_of format.now
        → fraction_of format.now - value.now.frac ≤ 61
        → unsigned_abs value.now.num < 2 ^ (61 - (fraction_of format.now - value.now.frac)) → IsSome result }
{
    let to = format.wl - format.iwl;
    if format.wl > 62
        || value.num < -9_223_372_036_854_775_808
        || value.num > 9_223_372_036_854_775_807
    {
        return None;
    }
    if to <= value.frac {
        return lowered(value.num as i64, value.frac - to, format);
    }
    raised(value.num as i64, to - value.frac, format)
}

/// `num / 2^s` by `trn` and `wrap`.
#[inline(always)]
#[tactic(auto, using(crate::proofs::Shorts::trn_is, crate::proofs::Shorts::overflowed_wrap))]
fn cut(num: i64, s: u32, signed: bool, wl: u32) -> i64
    requires { (s ≤ 62) × (1 ≤ wl) × (wl ≤ 62) }
    ensures { result ≡ overflowed Wrap signed wl (quantised Trn num (2 ^ s)) }
{
    wrap(signed, wl, floor(num, s))
}

/// The cast of a value that fits 64 bits by `trn` and `wrap` to a format of at most 62: `None` where either is larger, or has
/// fewer places after the point, or the shift is large.
#[inline(always)]
#[tactic(auto, using(crate::proofs::Scaling::placed_down))]
pub(crate) fn cut_short(num: i128, from: u32, to: u32, signed: bool, wl: u32) -> Option<i64>
    requires { 1 ≤ wl }
    ensures value { IfSome result (λ n. n ≡ overflowed Wrap signed wl (requantised Trn num from to)) }
    ensures found { FitsSigned w64 num → wl ≤ 62 → to ≤ from → from - to ≤ 62 → IsSome result }
{
    if wl > 62 || from < to || from - to > 62 {
        return None;
    }
    if num < -9_223_372_036_854_775_808 || num > 9_223_372_036_854_775_807 {
        return None;
    }
    Some(cut(num as i64, from - to, signed, wl))
}
