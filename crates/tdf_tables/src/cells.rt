//! Cells.

ghost use Rattle.std.specs.Prelude.{◌≡◌, ◌&&◌, ◌<◌, true, length, nat_lt, nat_eq};
ghost use Rattle.tdf_base.specs.Sides.{spelt};
ghost use Rattle.tdf_tables.specs.machine.Scan.{has_leading_zero, ends_in_zero, is_plain, is_decimal, is_negative, is_cell};

use tdf_base::{Numeral, split};

fn has_leading_zero(digits: &[u8]) -> bool
    ensures { result ≡ has_leading_zero digits.now }
{
    1 < digits.len() && digits[0] == b'0'
}

#[tactic(auto, using(crate::proofs::Decimals::end_laws))]
fn ends_in_zero(digits: &[u8]) -> bool
    ensures { result ≡ ends_in_zero digits.now }
{
    0 < digits.len() && digits[digits.len() - 1] == b'0'
}

/// Whether a numeral has no needless zero.
pub(crate) fn is_plain(numeral: &Numeral) -> bool
    ensures { result ≡ is_plain (spelt numeral.now) }
{
    !has_leading_zero(numeral.whole) && !ends_in_zero(numeral.fraction)
}

#[tactic(auto, unfolding(crate::specs::machine::Scan::is_decimal))]
fn is_decimal(text: &[u8]) -> bool
    ensures { result ≡ is_decimal text.now }
{
    match split(text) {
        None => false,
        Some(numeral) => is_plain(&numeral),
    }
}

fn is_negative(text: &[u8]) -> bool
    ensures { result ≡ is_negative text.now }
{
    text != b"0".as_slice() && is_decimal(text)
}

/// Whether the text is a cell of a table.
#[tactic(auto, unfolding(crate::specs::machine::Scan::is_cell))]
pub(crate) fn is_cell(text: &[u8]) -> bool
    ensures { result ≡ is_cell text.now }
{
    match text {
        [] => false,
        [b'*', rest @ ..] => rest.is_empty(),
        [b'-', rest @ ..] => is_negative(rest),
        _ => is_decimal(text),
    }
}
