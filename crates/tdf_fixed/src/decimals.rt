//! Decimal texts of values and times.

ghost use Rattle.std.specs.Prelude.{◌≡◌, ◌+◌, ◌*◌, ◌/◌, ◌%◌, ◌<◌, ◌≤◌, ◌^◌, ◌∷◌, ◌++◌, take, drop, length, slice_index, true, ◌≢◌, ◌-◌, OnOk, OnErr, unsigned_abs, decimal};
ghost use Rattle.std.specs.List.{list_all};
ghost use Rattle.tdf_base.specs.declared.resolution.Resolution.TheVariants.{Fs};
ghost use Rattle.tdf_fixed.specs.Zeros.{is_zero};
ghost use Rattle.tdf_fixed.specs.Decimal.{fraction_digits, fraction_text, magnitude_text, value_text, places_of, seconds_text, seconds_text_at};

use crate::bits::low;
use crate::raw::Raw;
use itoa::Buffer;
use tdf_base::{Memory, Resolution};

/// Appends a whole number by its digits.
#[inline(never)]
fn push_digits(out: &mut Vec<u8>, whole: u64) -> Result<(), Memory>
    ensures ok { OnOk result (out.new.items ≡ out.old.items ++ decimal whole) }
    ensures kept { take (length out.old.items) out.new.items ≡ out.old.items }
{
    out.extend_from_slice(Buffer::new().format(whole).as_bytes())?;
    Ok(())
}

#[inline(always)]
#[tactic(auto, using(crate::proofs::Fractions::one_digit))]
fn push_whole(out: &mut Vec<u8>, whole: u64) -> Result<(), Memory>
    ensures ok { OnOk result (out.new.items ≡ out.old.items ++ decimal whole) }
    ensures kept { take (length out.old.items) out.new.items ≡ out.old.items }
{
    if whole < 10 {
        out.push(b'0' + whole as u8)?;
        return Ok(());
    }
    push_digits(out, whole)
}

fn push_wide(out: &mut Vec<u8>, whole: u128) -> Result<(), Memory>
    ensures ok { OnOk result (out.new.items ≡ out.old.items ++ decimal whole) }
    ensures kept { take (length out.old.items) out.new.items ≡ out.old.items }
{
    if whole <= 18_446_744_073_709_551_615 {
        return push_whole(out, whole as u64);
    }
    out.extend_from_slice(Buffer::new().format(whole).as_bytes())?;
    Ok(())
}

/// The counts of a second.
fn counts_of_second(resolution: Resolution) -> u64
    ensures value { result ≡ 10 ^ places_of resolution }
    ensures some { 0 < result }
    ensures small { result ≤ 10 ^ 15 }
{
    match resolution {
        Resolution::Ps => 1_000_000_000_000,
        Resolution::Fs => 1_000_000_000_000_000,
    }
}

/// How many digits are left without the zeros at the end.
#[tactic(auto, using(crate::proofs::CutDigits::zero_step))]
fn kept_digits(digits: &[u8]) -> usize
    ensures within { result ≤ length digits.now }
    ensures zeros { list_all is_zero (drop result digits.now) ≡ true }
    ensures last { 0 < result → slice_index digits.now (result - 1) ≢ 48 }
{
    let count = digits.len();
    for k in 0..count {
        if digits[count - 1 - k] != b'0' {
            return count - k;
        }
    }
    0
}

/// The digits of a part of a second, of which there are `places` at most: those of `second + rest` after its first, which is 1.
#[tactic(auto, using(crate::proofs::CutDigits::tail_some))]
fn push_time_digits(out: &mut Vec<u8>, rest: u64, second: u64, places: u32) -> Result<(), Memory>
    requires places { places ≤ 15 }
    requires second { second ≡ 10 ^ places }
    requires rest { rest < second }
    requires small { second ≤ 10 ^ 15 }
    ensures ok { OnOk result (out.new.items ≡ out.old.items ++ fraction_digits places rest second) }
    ensures kept { take (length out.old.items) out.new.items ≡ out.old.items }
{
    let mut buffer = Buffer::new();
    let digits = &buffer.format(second + rest).as_bytes()[1..];
    out.extend_from_slice(&digits[..kept_digits(digits)])?;
    Ok(())
}

/// The same, of at least six places: a part of so many microseconds of a picosecond's resolution has the digits of their number, as
/// has one of so many nanoseconds.
#[inline(always)]
#[tactic(auto, using(crate::proofs::ShortTimes::short_lemmas))]
fn push_short_digits(out: &mut Vec<u8>, rest: u64, second: u64, places: u32) -> Result<(), Memory>
    requires some { 6 ≤ places }
    requires places { places ≤ 15 }
    requires second { second ≡ 10 ^ places }
    requires rest { rest < second }
    requires small { second ≤ 10 ^ 15 }
    ensures ok { OnOk result (out.new.items ≡ out.old.items ++ fraction_digits places rest second) }
    ensures kept { take (length out.old.items) out.new.items ≡ out.old.items }
{
    if rest % 1_000_000 == 0 {
        return push_time_digits(out, rest / 1_000_000, second / 1_000_000, places - 6);
    }
    if rest % 1_000 == 0 {
        return push_time_digits(out, rest / 1_000, second / 1_000, places - 3);
    }
    push_time_digits(out, rest, second, places)
}

#[tactic(auto, using(crate::proofs::Fractions::fraction_lemmas))]
fn push_time_fraction(out: &mut Vec<u8>, rest: u64, second: u64, places: u32) -> Result<(), Memory>
    requires some { 6 ≤ places }
    requires places { places ≤ 15 }
    requires second { second ≡ 10 ^ places }
    requires rest { rest < second }
    requires small { second ≤ 10 ^ 15 }
    ensures ok { OnOk result (out.new.items ≡ out.old.items ++ fraction_text places rest second) }
    ensures kept { take (length out.old.items) out.new.items ≡ out.old.items }
{
    if rest == 0 {
        return Ok(());
    }
    out.push(b'.')?;
    push_short_digits(out, rest, second, places)
}

fn places(resolution: Resolution) -> u32
    ensures value { result ≡ places_of resolution }
    ensures some { 6 ≤ result }
    ensures few { result ≤ 15 }
{
    match resolution {
        Resolution::Ps => 12,
        Resolution::Fs => 15,
    }
}

/// Appends a time in seconds. After an error `out` may have a front part of it.
#[inline(always)]
#[tactic(auto, using(crate::proofs::Fractions::text_lemmas))]
fn push_time_in(out: &mut Vec<u8>, time: u64, resolution: Resolution) -> Result<(), Memory>
    ensures ok { OnOk result (out.new.items ≡ out.old.items ++ seconds_text_at resolution time) }
    ensures kept { take (length out.old.items) out.new.items ≡ out.old.items }
{
    let second = counts_of_second(resolution);
    push_whole(out, time / second)?;
    push_time_fraction(out, time % second, second, places(resolution))
}

/// The same, for each resolution by itself: the counts of a second are then known where they divide.
#[inline(always)]
fn push_time(out: &mut Vec<u8>, time: u64, resolution: Resolution) -> Result<(), Memory>
    ensures ok { OnOk result (out.new.items ≡ out.old.items ++ seconds_text_at resolution time) }
    ensures kept { take (length out.old.items) out.new.items ≡ out.old.items }
{
    match resolution {
        Resolution::Ps => push_time_in(out, time, Resolution::Ps),
        Resolution::Fs => push_time_in(out, time, Resolution::Fs),
    }
}

/// Appends a time of so many counts of the resolution, in seconds, as an exact decimal: `2500000` counts of a picosecond are
/// `0.0000025`.
///
/// # Errors
/// Out of memory; `out` is then unchanged.
#[inline(always)]
pub fn push_seconds_at(out: &mut Vec<u8>, time: u64, resolution: Resolution) -> Result<(), Memory>
    ensures ok { OnOk result (out.new.items ≡ out.old.items ++ seconds_text_at resolution time) }
    ensures err { OnErr result (out.new.items ≡ out.old.items) }
{
    let start = out.len();
    match push_time(out, time, resolution) {
        Ok(()) => Ok(()),
        Err(error) => {
            out.truncate(start);
            Err(error)
        }
    }
}

/// Appends a time of so many picoseconds, in seconds, as an exact decimal: `2500000` is `0.0000025`.
///
/// # Errors
/// Out of memory; `out` is then unchanged.
#[tactic(auto, using(crate::proofs::Fractions::seconds_in_picoseconds))]
pub fn push_seconds(out: &mut Vec<u8>, time: u64) -> Result<(), Memory>
    ensures ok { OnOk result (out.new.items ≡ out.old.items ++ seconds_text time) }
    ensures err { OnErr result (out.new.items ≡ out.old.items) }
{
    push_seconds_at(out, time, Resolution::Ps)
}

#[tactic(auto, using(crate::proofs::Fractions::text_lemmas))]
fn push_wide_time(out: &mut Vec<u8>, time: u128) -> Result<(), Memory>
    ensures ok { OnOk result (out.new.items ≡ out.old.items ++ seconds_text_at Fs time) }
    ensures kept { take (length out.old.items) out.new.items ≡ out.old.items }
{
    let second = counts_of_second(Resolution::Fs);
    push_wide(out, time / u128::from(second))?;
    push_time_fraction(
        out,
        (time % u128::from(second)) as u64,
        second,
        places(Resolution::Fs),
    )
}

/// Appends a time of so many femtoseconds, in seconds, as an exact decimal. A time of a table may be longer than one of a model.
///
/// # Errors
/// Out of memory; `out` is then unchanged.
pub fn push_femtoseconds(out: &mut Vec<u8>, time: u128) -> Result<(), Memory>
    ensures ok { OnOk result (out.new.items ≡ out.old.items ++ seconds_text_at Fs time) }
    ensures err { OnErr result (out.new.items ≡ out.old.items) }
{
    let start = out.len();
    match push_wide_time(out, time) {
        Ok(()) => Ok(()),
        Err(error) => {
            out.truncate(start);
            Err(error)
        }
    }
}

/// `10 * left / 2^frac`, the next digit of a binary fraction.
#[tactic(auto, using(tdf_base::proofs::Api::power_of_two))]
fn next_digit(left: u128, frac: u32) -> u8
    requires few { frac ≤ 120 }
    requires below { left < 2 ^ frac }
    ensures { result ≡ 48 + 10 * left / 2 ^ frac }
{
    ((10 * left) >> frac) as u8 + b'0'
}

/// The digits of a binary fraction with few bits: those of a decimal one with as many places.
#[tactic(auto, using(crate::proofs::Fractions::digits_of_tens, crate::proofs::Fractions::few_fives, crate::proofs::Fractions::few_tens, crate::proofs::Fractions::below_tens))]
fn push_few_digits(out: &mut Vec<u8>, rest: u64, frac: u32) -> Result<(), Memory>
    requires few { frac ≤ 15 }
    requires below { rest < 2 ^ frac }
    ensures ok { OnOk result (out.new.items ≡ out.old.items ++ fraction_digits frac rest (2 ^ frac)) }
    ensures kept { take (length out.old.items) out.new.items ≡ out.old.items }
{
    push_time_digits(out, rest * 5u64.pow(frac), 10u64.pow(frac), frac)
}

/// The digits of a binary fraction, one by one.
#[tactic(auto, using(crate::proofs::Fractions::fraction_lemmas, tdf_base::proofs::Api::power_of_two))]
fn push_many_digits(out: &mut Vec<u8>, rest: u128, frac: u32) -> Result<(), Memory>
    requires few { frac ≤ 120 }
    requires below { rest < 2 ^ frac }
    ensures ok { OnOk result (out.new.items ≡ out.old.items ++ fraction_digits frac rest (2 ^ frac)) }
    ensures kept { take (length out.old.items) out.new.items ≡ out.old.items }
{
    let mut left = rest;
    for _k in 0..frac {
        if left == 0 {
            return Ok(());
        }
        out.push(next_digit(left, frac))?;
        left = low(10 * left, frac);
    }
    Ok(())
}

fn push_binary_digits(out: &mut Vec<u8>, rest: u128, frac: u32) -> Result<(), Memory>
    requires few { frac ≤ 120 }
    requires below { rest < 2 ^ frac }
    ensures ok { OnOk result (out.new.items ≡ out.old.items ++ fraction_digits frac rest (2 ^ frac)) }
    ensures kept { take (length out.old.items) out.new.items ≡ out.old.items }
{
    if frac <= 15 {
        push_few_digits(out, rest as u64, frac)
    } else {
        push_many_digits(out, rest, frac)
    }
}

#[tactic(auto, using(crate::proofs::Fractions::fraction_lemmas))]
fn push_binary_fraction(out: &mut Vec<u8>, rest: u128, frac: u32) -> Result<(), Memory>
    requires few { frac ≤ 120 }
    requires below { rest < 2 ^ frac }
    ensures ok { OnOk result (out.new.items ≡ out.old.items ++ fraction_text frac rest (2 ^ frac)) }
    ensures kept { take (length out.old.items) out.new.items ≡ out.old.items }
{
    if rest == 0 {
        return Ok(());
    }
    out.push(b'.')?;
    push_binary_digits(out, rest, frac)
}

#[inline(never)]
#[tactic(auto, using(crate::proofs::Fractions::text_lemmas))]
fn push_parts(out: &mut Vec<u8>, magnitude: u128, frac: u32) -> Result<(), Memory>
    requires few { frac ≤ 120 }
    ensures ok { OnOk result (out.new.items ≡ out.old.items ++ magnitude_text frac magnitude (2 ^ frac)) }
    ensures kept { take (length out.old.items) out.new.items ≡ out.old.items }
{
    push_wide(out, magnitude >> frac)?;
    push_binary_fraction(out, low(magnitude, frac), frac)
}

#[inline(always)]
#[tactic(auto, using(crate::proofs::Fractions::whole_text))]
fn push_magnitude(out: &mut Vec<u8>, magnitude: u128, frac: u32) -> Result<(), Memory>
    requires few { frac ≤ 120 }
    ensures ok { OnOk result (out.new.items ≡ out.old.items ++ magnitude_text frac magnitude (2 ^ frac)) }
    ensures kept { take (length out.old.items) out.new.items ≡ out.old.items }
{
    if frac == 0 {
        return push_wide(out, magnitude);
    }
    push_parts(out, magnitude, frac)
}

fn push_negative(out: &mut Vec<u8>, magnitude: u128, frac: u32) -> Result<(), Memory>
    requires few { frac ≤ 120 }
    ensures ok { OnOk result (out.new.items ≡ out.old.items ++ (45 ∷ magnitude_text frac magnitude (2 ^ frac))) }
    ensures kept { take (length out.old.items) out.new.items ≡ out.old.items }
{
    out.push(b'-')?;
    push_magnitude(out, magnitude, frac)
}

#[tactic(auto, using(crate::proofs::Fractions::text_lemmas))]
fn push_value(out: &mut Vec<u8>, value: Raw) -> Result<(), Memory>
    requires few { value.frac ≤ 120 }
    ensures ok { OnOk result (out.new.items ≡ out.old.items ++ value_text value.num value.frac) }
    ensures kept { take (length out.old.items) out.new.items ≡ out.old.items }
{
    if value.num < 0 {
        return push_negative(out, value.num.unsigned_abs(), value.frac);
    }
    push_magnitude(out, value.num.unsigned_abs(), value.frac)
}

/// Appends the value as an exact decimal: `-0.75` for `Raw { num: -3, frac: 2 }`. The whole part has no leading zeros, the
/// fraction ends with its last digit that is not 0, and is left out with its point where it is 0.
///
/// # Errors
/// Out of memory; `out` is then unchanged.
pub fn push_decimal(out: &mut Vec<u8>, value: Raw) -> Result<(), Memory>
    requires few { value.frac ≤ 120 }
    ensures ok { OnOk result (out.new.items ≡ out.old.items ++ value_text value.num value.frac) }
    ensures err { OnErr result (out.new.items ≡ out.old.items) }
{
    let start = out.len();
    match push_value(out, value) {
        Ok(()) => Ok(()),
        Err(error) => {
            out.truncate(start);
            Err(error)
        }
    }
}
