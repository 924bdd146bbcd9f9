//! The bits of two's complement as text.

ghost use Rattle.std.specs.Prelude.{◌≡◌, ◌+◌, ◌<◌, ◌≤◌, ◌^◌, ◌++◌, length, take, OnOk, OnErr};
ghost use Rattle.tdf_fixed.specs.Bits.{bit_at, bits_text};

use crate::raw::Raw;
use crate::rounding::part;
use tdf_base::Memory;

/// The digit of a bit of two's complement.
fn bit(num: i128, place: u32) -> u8
    requires { place < 64 }
    ensures { result ≡ bit_at num place }
{
    b'0' + part(num >> place, 1) as u8
}

#[tactic(auto, using(crate::proofs::BitTexts::bits_lemmas))]
fn push_places(out: &mut Vec<u8>, num: i128, width: u32) -> Result<(), Memory>
    requires { width ≤ 64 }
    ensures ok { OnOk result (out.new.items ≡ out.old.items ++ bits_text num width) }
    ensures kept { take (length out.old.items) out.new.items ≡ out.old.items }
{
    for k in 0..width {
        out.push(bit(num, width - 1 - k))?;
    }
    Ok(())
}

/// Appends the low `width` bits of the two's complement of `num`, the highest first: `1101` for -3 at 4 bits.
///
/// # Errors
/// Out of memory; `out` is then unchanged.
pub fn push_bits(out: &mut Vec<u8>, value: Raw, width: u32) -> Result<(), Memory>
    requires { width ≤ 64 }
    ensures ok { OnOk result (out.new.items ≡ out.old.items ++ bits_text value.num width) }
    ensures err { OnErr result (out.new.items ≡ out.old.items) }
{
    let start = out.len();
    match push_places(out, value.num, width) {
        Ok(()) => Ok(()),
        Err(error) => {
            out.truncate(start);
            Err(error)
        }
    }
}
