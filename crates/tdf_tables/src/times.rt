//! Times.

ghost use Rattle.std.specs.Prelude.{◌≡◌, ◌<◌, ◌≤◌, ◌+◌, ◌*◌, ◌-◌, ◌^◌, ℕ, None, true, IfSome, length};
ghost use Rattle.tdf_base.specs.Digits.{number};
ghost use Rattle.tdf_base.specs.declared.resolution.Resolution.TheVariants.{Fs};
ghost use Rattle.tdf_fixed.specs.Decimal.{seconds_text_at};
ghost use Rattle.tdf_base.specs.Sides.{spelt};
ghost use Rattle.tdf_tables.specs.machine.Scan.{may_be_time};
ghost use Rattle.tdf_tables.specs.Tables.{latest};

use crate::cells::is_plain;
use tdf_base::{Numeral, power_of_ten, split, value};

/// So many whole seconds and a part of a second with so many places, in fs.
#[tactic(auto, using(crate::proofs::TimeLaws::power_lemmas))]
fn femtoseconds(whole: u64, part: u64, places: usize) -> u128
    requires whole { whole < 10 ^ 6 }
    requires places { places ≤ 15 }
    requires part { part < 10 ^ places }
    ensures value { result ≡ whole * 10 ^ 15 + part * 10 ^ (15 - places) }
    ensures early { result < latest }
{
    u128::from(whole) * 1_000_000_000_000_000 + u128::from(part) * power_of_ten(15 - places)
}

/// Whether a time may be written so: no needless zero, at most 6 digits before its point, and 15 after it.
fn may_be_time(numeral: &Numeral) -> bool
    ensures { result ≡ may_be_time (spelt numeral.now) }
{
    is_plain(numeral) && numeral.whole.len() <= 6 && numeral.fraction.len() <= 15
}

/// A time in seconds, as a count of fs; none where the text isn't the one text of a time of a table.
pub(crate) fn read_seconds(text: &[u8]) -> Option<u128>
    ensures some { IfSome result (λ t. t < latest) }
    ensures is { IfSome result (λ t. text.now ≡ seconds_text_at Fs t) }
    ensures none { result ≡ None → (t : ℕ) → t < latest → ¬ (text.now ≡ seconds_text_at Fs t) }
{
    match split(text) {
        Some(numeral) if may_be_time(&numeral) => Some(femtoseconds(
            value(numeral.whole),
            value(numeral.fraction),
            numeral.fraction.len(),
        )),
        _ => None,
    }
}
