//! Rounding, in 128 bits.

ghost use Rattle.std.specs.Prelude.{◌≡◌, ◌+◌, ◌-◌, ◌*◌, ◌<◌, ◌≤◌, ◌^◌, ℤ, pos, ◌+ℤ◌, ◌*ℤ◌, unsigned_abs, ℕ, nat_eq, nat_lt};
ghost use Rattle.tdf_fixed.specs.Quantise.{above_by, below, goes_up, is_odd, rounded_whole, quantised, requantised};

use crate::bits::low;
use crate::quant::Quant;

/// The low `s` bits of two's complement: the distance from the neighbour below, in parts of `1/2^s`.
#[tactic(auto, using(tdf_base::proofs::Api::power_of_two))]
pub(crate) fn part(num: i128, s: u32) -> u128
    requires { s ≤ 120 }
    ensures value { result ≡ above_by num (2 ^ s) }
    ensures below { result < 2 ^ s }
    ensures small { result < 2 ^ 120 }
{
    if num >= 0 {
        low(num as u128, s)
    } else {
        (1 << s) - 1 - low(!num as u128, s)
    }
}

fn odd(num: i128) -> bool
    ensures { result ≡ is_odd num }
{
    part(num, 1) == 1
}

/// Whether the mode takes the neighbour above; `more` and `tie` say whether that is nearer, or both are as near.
pub(crate) fn up(quant: Quant, negative: bool, odd: bool, more: bool, tie: bool) -> bool
    ensures { (twice d : ℕ) → more ≡ nat_lt d twice → tie ≡ nat_eq twice d → result ≡ goes_up quant negative odd twice d }
{
    match quant {
        Quant::Trn => false,
        Quant::TrnZero => negative,
        Quant::Rnd => more || tie,
        Quant::RndZero => more || (tie && negative),
        Quant::RndMinInf => more,
        Quant::RndInf => more || (tie && !negative),
        Quant::RndConv => more || (tie && odd),
    }
}

/// Rounds a fraction, given its sign, its neighbour below and its distance from that in parts of `1/d`.
#[tactic(auto, unfolding(crate::specs::Quantise::rounded_whole))]
pub(crate) fn settle(quant: Quant, negative: bool, whole: i128, rest: u128, d: u128) -> i128
    requires few { rest < 2 ^ 120 }
    requires small { unsigned_abs whole ≤ 2 ^ 125 }
    ensures { result ≡ rounded_whole quant negative whole rest d }
{
    let twice = 2 * rest;
    let above = up(quant, negative, odd(whole), d < twice, twice == d);
    if rest != 0 && above { whole + 1 } else { whole }
}

/// `num / 2^s`, rounded.
pub(crate) fn quantise(quant: Quant, num: i128, s: u32) -> i128
    requires few { s ≤ 120 }
    requires small { unsigned_abs num ≤ 2 ^ 120 }
    ensures { result ≡ quantised quant num (2 ^ s) }
{
    settle(quant, num < 0, num >> s, part(num, s), 1 << s)
}

fn scaled(num: i128, s: u32) -> i128
    requires few { s ≤ 63 }
    requires small { unsigned_abs num * 2 ^ s ≤ 2 ^ 120 }
    ensures { result ≡ num *ℤ pos (2 ^ s) }
{
    num * (1 << s)
}

/// `num / 2^from` in units of `1/2^to`, rounded.
pub(crate) fn place(quant: Quant, num: i128, from: u32, to: u32) -> i128
    requires few { (from ≤ 120) × (to ≤ 63) }
    requires small { unsigned_abs num * 2 ^ (to - from) ≤ 2 ^ 120 }
    ensures { result ≡ requantised quant num from to }
{
    if from <= to {
        scaled(num, to - from)
    } else {
        quantise(quant, num, from - to)
    }
}
