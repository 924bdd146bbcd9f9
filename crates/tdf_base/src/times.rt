//! Times in a text, read as counts of picoseconds or of a resolution.

ghost use Rattle.std.specs.Prelude.{◌≡◌, ◌+◌, ◌*◌, ◌<◌, ◌≤◌, ◌^◌, length, position, IfOk, IfSome};
ghost use Rattle.tdf_base.specs.Limits.{time_end};
ghost use Rattle.tdf_base.specs.Sides.{spelt, AreDigits};
ghost use Rattle.tdf_base.specs.Time.{time_of, time_at, starts_unit, picoseconds_of, femtoseconds_of, femtoseconds_in, count_of, whole_time};

use crate::limits::TIME_END;
use crate::numerals::{Numeral, is_short, power_of_ten, split, value};
use crate::resolution::Resolution;
use thiserror::Error;

/// Why a text is no time.
#[derive(Clone, Copy, Debug, Drop, Error, PartialEq, Eq)]
pub enum TimeErr {
    /// The text has not the form, or its count is not whole.
    #[error("not a time")]
    NotTime,
    /// The count is 10^18 or more.
    #[error("time too large")]
    TimeTooLarge,
}

/// The least count that is too large.
const LIMIT: u128 = TIME_END as u128;

fn begins_unit(byte: u8) -> bool
    ensures { result ≡ starts_unit byte }
{
    !byte.is_ascii_digit() && byte != b'.'
}

fn unit_start(text: &[u8]) -> Option<usize>
    ensures value { result ≡ position starts_unit text.now }
    ensures within { IfSome result (λ at. at < length text.now) }
{
    text.iter().position(|byte| begins_unit(*byte))
}

/// The picoseconds of a unit of time.
fn picoseconds(unit: &[u8]) -> Option<u64>
    ensures value { result ≡ picoseconds_of unit.now }
    ensures small { IfSome result (λ scale. scale ≤ 10 ^ 15) }
{
    if unit == b"s".as_slice() {
        return Some(1_000_000_000_000);
    }
    if unit == b"ms".as_slice() {
        return Some(1_000_000_000);
    }
    if unit == b"us".as_slice() {
        return Some(1_000_000);
    }
    if unit == b"ns".as_slice() {
        return Some(1_000);
    }
    if unit == b"ps".as_slice() {
        return Some(1);
    }
    None
}

/// The femtoseconds of a unit of time.
fn femtoseconds(unit: &[u8]) -> Option<u64>
    ensures value { result ≡ femtoseconds_of unit.now }
    ensures small { IfSome result (λ scale. scale ≤ 10 ^ 15) }
{
    if unit == b"s".as_slice() {
        return Some(1_000_000_000_000_000);
    }
    if unit == b"ms".as_slice() {
        return Some(1_000_000_000_000);
    }
    if unit == b"us".as_slice() {
        return Some(1_000_000_000);
    }
    if unit == b"ns".as_slice() {
        return Some(1_000_000);
    }
    if unit == b"ps".as_slice() {
        return Some(1_000);
    }
    if unit == b"fs".as_slice() {
        return Some(1);
    }
    None
}

/// The femtoseconds of one count: 1,000 where times are in ps, 1 where they are in fs.
pub fn femtoseconds_of_count(resolution: Resolution) -> u64
    ensures value { result ≡ femtoseconds_in resolution }
    ensures some { 0 < result }
{
    match resolution {
        Resolution::Ps => 1_000,
        Resolution::Fs => 1,
    }
}

/// `(whole + part/d) * scale / per` counts, where they are whole and few enough.
fn whole(whole: u64, part: u64, d: u128, scale: u64, per: u64) -> Result<u64, TimeErr>
    requires sides { (whole < 10 ^ 18) × (part < 10 ^ 18) }
    requires scale { scale ≤ 10 ^ 15 }
    requires divides { (0 < d) × (0 < per) }
    ensures value { result ≡ whole_time ((whole * d + part) * scale) (d * per) }
    ensures below { IfOk result (λ t. t < time_end) }
{
    let scale = u128::from(scale);
    let per = u128::from(per);
    let part = u128::from(part) * scale;
    let parts = u128::from(whole) * scale + part / d;
    if part % d != 0 {
        return Err(TimeErr::NotTime);
    }
    if parts % per != 0 {
        return Err(TimeErr::NotTime);
    }
    let count = parts / per;
    if count < LIMIT {
        Ok(count as u64)
    } else {
        Err(TimeErr::TimeTooLarge)
    }
}

/// The time of a numeral whose unit has `scale` parts, of which `per` make one count.
#[tactic(auto, unfolding(crate::specs::Time::count_of))]
fn count(numeral: &Numeral, scale: u64, per: u64) -> Result<u64, TimeErr>
    requires digits { AreDigits numeral.now.whole.now numeral.now.fraction.now }
    requires scale { scale ≤ 10 ^ 15 }
    requires some { 0 < per }
    ensures value { result ≡ count_of (spelt numeral.now) scale per }
    ensures below { IfOk result (λ t. t < time_end) }
{
    if !is_short(numeral) {
        return Err(TimeErr::NotTime);
    }
    whole(
        value(numeral.whole),
        value(numeral.fraction),
        power_of_ten(numeral.fraction.len()),
        scale,
        per,
    )
}

/// Reads a time, as `2.5us`: a number of 1 to 18 digits on each side of its point, directly followed by `s`, `ms`, `us`, `ns`
/// or `ps`. Answers the count of picoseconds, below 10^18. It takes no memory.
///
/// # Errors
/// `NotTime` where the text has not this form or its count is not whole; `TimeTooLarge` where it has, and the count is 10^18
/// or more.
#[tactic(auto, unfolding(crate::specs::Time::time_of))]
pub fn read_time(text: &[u8]) -> Result<u64, TimeErr>
    ensures value { result ≡ time_of text.now }
    ensures below { IfOk result (λ t. t < time_end) }
{
    let Some(at) = unit_start(text) else {
        return Err(TimeErr::NotTime);
    };
    let Some(numeral) = split(&text[..at]) else {
        return Err(TimeErr::NotTime);
    };
    let Some(scale) = picoseconds(&text[at..]) else {
        return Err(TimeErr::NotTime);
    };
    count(&numeral, scale, 1)
}

/// Reads a time at a resolution: a number of 1 to 18 digits on each side of its point, directly followed by `s`, `ms`, `us`,
/// `ns`, `ps` or `fs`. Answers the count of that resolution, below 10^18. It takes no memory.
///
/// # Errors
/// `NotTime` where the text has not this form or its count is not whole; `TimeTooLarge` where it has, and the count is 10^18
/// or more.
#[tactic(auto, unfolding(crate::specs::Time::time_at))]
pub fn read_time_at(text: &[u8], resolution: Resolution) -> Result<u64, TimeErr>
    ensures value { result ≡ time_at resolution text.now }
    ensures below { IfOk result (λ t. t < time_end) }
{
    let Some(at) = unit_start(text) else {
        return Err(TimeErr::NotTime);
    };
    let Some(numeral) = split(&text[..at]) else {
        return Err(TimeErr::NotTime);
    };
    let Some(scale) = femtoseconds(&text[at..]) else {
        return Err(TimeErr::NotTime);
    };
    count(&numeral, scale, femtoseconds_of_count(resolution))
}
