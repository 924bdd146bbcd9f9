//! A decimal fraction, rounded to a last place.

ghost use Rattle.std.specs.Prelude.{◌≡◌, ◌+◌, ◌*◌, ◌<◌, ◌≤◌, ◌^◌, ℤ, pos, negsuc, neg_ℤ};
ghost use Rattle.tdf_fixed.specs.Literal.{placed_fraction};

use crate::quant::Quant;
use crate::rounding::settle;

pub(crate) fn scaled_up(number: u64, to: u32) -> u128
    requires { (number < 10 ^ 18) × (to ≤ 63) }
    ensures value { result ≡ number * 2 ^ to }
    ensures small { result < 2 ^ 123 }
{
    u128::from(number) << to
}

pub(crate) fn as_is(number: u128) -> i128
    requires { number < 2 ^ 124 }
    ensures { result ≡ pos number }
{
    number as i128
}

pub(crate) fn opposite(number: u128) -> i128
    requires { number < 2 ^ 124 }
    ensures { result ≡ neg_ℤ (pos number) }
{
    -(number as i128)
}

fn below_opposite(number: u128) -> i128
    requires { number < 2 ^ 124 }
    ensures { result ≡ negsuc number }
{
    -(number as i128) - 1
}

/// `whole + part/d` with a sign, in units of `1/2^to`, rounded.
pub(crate) fn place_fraction(
    quant: Quant,
    minus: bool,
    whole: u64,
    part: u64,
    d: u128,
    to: u32,
) -> i128
    requires sides { (whole < 10 ^ 18) × (part < d) × (d ≤ 10 ^ 18) }
    requires few { to ≤ 63 }
    ensures { result ≡ placed_fraction quant minus (whole * d + part) d to }
{
    let up = scaled_up(part, to);
    let whole = scaled_up(whole, to) + up / d;
    let rest = up % d;
    if !minus {
        return settle(quant, false, as_is(whole), rest, d);
    }
    if rest == 0 {
        return opposite(whole);
    }
    settle(quant, true, below_opposite(whole), d - rest, d)
}
