//! Fitting a whole number into a range, in 128 bits.

ghost use Rattle.std.specs.Prelude.{◌≡◌, ◌-◌, ◌≤◌, ◌^◌, unsigned_abs};
ghost use Rattle.tdf_fixed.specs.Overflow.{least, most, least_symmetric, wrapped, overflowed};

use crate::over::Over;
use crate::rounding::part;

/// The least number of a range.
pub(crate) fn lowest(signed: bool, wl: u32) -> i128
    requires { (1 ≤ wl) × (wl ≤ 64) }
    ensures { result ≡ least signed wl }
{
    if signed { -(1 << (wl - 1)) } else { 0 }
}

/// The greatest number of a range.
pub(crate) fn highest(signed: bool, wl: u32) -> i128
    requires { (1 ≤ wl) × (wl ≤ 64) }
    ensures { result ≡ most signed wl }
{
    if signed {
        (1 << (wl - 1)) - 1
    } else {
        (1 << wl) - 1
    }
}

fn lowest_symmetric(signed: bool, wl: u32) -> i128
    requires { (1 ≤ wl) × (wl ≤ 64) }
    ensures { result ≡ least_symmetric signed wl }
{
    if signed { -((1 << (wl - 1)) - 1) } else { 0 }
}

#[tactic(auto, unfolding(crate::specs::Overflow::wrapped))]
fn wrap(signed: bool, wl: u32, num: i128) -> i128
    requires { (1 ≤ wl) × (wl ≤ 64) }
    ensures { result ≡ wrapped signed wl num }
{
    let rest = part(num, wl);
    if signed && rest >= 1 << (wl - 1) {
        return rest as i128 - (1 << wl);
    }
    rest as i128
}

/// Fits a whole number into the range of `wl` bits.
#[tactic(auto, unfolding(crate::specs::Overflow::overflowed))]
pub(crate) fn overflow(over: Over, signed: bool, wl: u32, num: i128) -> i128
    requires { (1 ≤ wl) × (wl ≤ 64) }
    ensures { result ≡ overflowed over signed wl num }
{
    let most = highest(signed, wl);
    match over {
        Over::Wrap => wrap(signed, wl, num),
        Over::Sat => num.clamp(lowest(signed, wl), most),
        Over::SatZero => {
            if lowest(signed, wl) <= num && num <= most {
                num
            } else {
                0
            }
        }
        Over::SatSym => num.clamp(lowest_symmetric(signed, wl), most),
    }
}
