//! Numbers as they are written: digits, or digits, a point and digits.

ghost use Rattle.std.specs.Prelude.{◌≡◌, ◌<◌, ◌≤◌, ◌^◌, true, length, position, ◌==◌, ◌+◌, IfSome};
ghost use Rattle.std.specs.List.{list_all};
ghost use Rattle.std.specs.Option.{option_map};
ghost use Rattle.tdf_base.specs.Digits.{is_digit, are_digits, int_of, number};
ghost use Rattle.tdf_base.specs.Limits.{most_digits};
ghost use Rattle.tdf_base.specs.Number.{numeral_of, numeral_both, numeral_alone, is_number, is_short};
ghost use Rattle.tdf_base.specs.Sides.{spelt, AreDigits};

use crate::limits::MOST_DIGITS;

/// The two sides of a numeral; the side after the point is empty where there is no point.
#[derive(Clone, Copy)]
pub struct Numeral<'t> {
    /// The digits in front of the point, one at least.
    pub whole: &'t [u8],
    /// The digits after it, one at least where there is a point.
    pub fraction: &'t [u8],
}

fn every_digit(text: &[u8]) -> bool
    ensures { result ≡ list_all is_digit text.now }
{
    text.iter().all(|byte| byte.is_ascii_digit())
}

/// Whether the text is one digit or more, and nothing else.
pub fn are_digits(text: &[u8]) -> bool
    ensures { result ≡ are_digits text.now }
{
    0 < text.len() && every_digit(text)
}

fn alone<'t>(text: &'t [u8]) -> Option<Numeral<'t>>
    ensures sides { option_map spelt result ≡ numeral_alone text.entry.now }
    ensures digits { IfSome result (λ p. AreDigits p.whole.now p.fraction.now) }
{
    if !are_digits(text) {
        return None;
    }
    Some(Numeral {
        whole: text,
        fraction: b"",
    })
}

fn both<'t>(whole: &'t [u8], fraction: &'t [u8]) -> Option<Numeral<'t>>
    ensures sides { option_map spelt result ≡ numeral_both whole.entry.now fraction.entry.now }
    ensures digits { IfSome result (λ p. AreDigits p.whole.now p.fraction.now) }
{
    if !are_digits(whole) || !are_digits(fraction) {
        return None;
    }
    Some(Numeral { whole, fraction })
}

fn point(text: &[u8]) -> Option<usize>
    ensures value { result ≡ position (λ c. c == 46) text.now }
    ensures within { IfSome result (λ at. at < length text.now) }
{
    text.iter().position(|byte| *byte == b'.')
}

/// The two sides of the numeral that the text is: digits, or digits, a point and digits. `None` exactly where it is none.
#[tactic(auto, unfolding(crate::specs::Number::numeral_of))]
pub fn split<'t>(text: &'t [u8]) -> Option<Numeral<'t>>
    ensures sides { option_map spelt result ≡ numeral_of text.entry.now }
    ensures digits { IfSome result (λ p. AreDigits p.whole.now p.fraction.now) }
{
    match point(text) {
        None => alone(text),
        Some(at) => both(&text[..at], &text[at + 1..]),
    }
}

/// The number that at most 18 digits spell.
#[tactic(auto, using(crate::proofs::Places::place_lemmas))]
pub fn value(text: &[u8]) -> u64
    requires digits { list_all is_digit text.now ≡ true }
    requires few { length text.now ≤ most_digits }
    ensures value { result ≡ number text.now }
    ensures small { result < 10 ^ length text.now }
    ensures below { result < 10 ^ 18 }
{
    let mut value = 0u64;
    for byte in text {
        value = 10 * value + u64::from(*byte - b'0');
    }
    value
}

/// A power of ten.
#[tactic(auto, using(crate::proofs::Powers::power_of_ten, crate::proofs::Powers::power_some))]
pub fn power_of_ten(count: usize) -> u128
    requires { count ≤ most_digits }
    ensures value { result ≡ 10 ^ count }
    ensures small { result ≤ 10 ^ 18 }
    ensures some { 0 < result }
{
    10u128.pow(count as u32)
}

/// Whether there are at most 18 digits on each side.
pub fn is_short(numeral: &Numeral) -> bool
    ensures { result ≡ is_short (spelt numeral.now) }
{
    numeral.whole.len() <= MOST_DIGITS && numeral.fraction.len() <= MOST_DIGITS
}

/// Whether the text is a number as models write it: digits, or digits, a point and digits, 1 to 18 digits on each side.
#[tactic(auto, unfolding(crate::specs::Number::is_number))]
pub fn is_number(text: &[u8]) -> bool
    ensures { result ≡ is_number text.now }
{
    match split(text) {
        None => false,
        Some(numeral) => is_short(&numeral),
    }
}

/// The value of a whole number: 1 to 18 digits, and nothing else; needless zeros may lead. `None` exactly where the text is none.
#[tactic(auto, unfolding(crate::specs::Digits::int_of))]
pub fn read_int(text: &[u8]) -> Option<u64>
    ensures value { result ≡ int_of text.now }
    ensures below { IfSome result (λ n. n < 10 ^ 18) }
{
    if are_digits(text) && text.len() <= MOST_DIGITS {
        return Some(value(text));
    }
    None
}
