//! Words and numbers of a line, and numbers of rows.

ghost use Rattle.std.specs.Prelude.{◌≡◌, ◌<◌, ◌+◌, ◌++◌, IfOk, OnErr, OnOk, decimal, length, take};

use crate::memory::Memory;
use itoa::Buffer;

/// Appends a word.
///
/// # Errors
/// Out of memory.
pub fn push_word(out: &mut Vec<u8>, word: &[u8]) -> Result<(), Memory>
    ensures ok { OnOk result (out.new.items ≡ out.old.items ++ word.now) }
    ensures kept { take (length out.old.items) out.new.items ≡ out.old.items }
{
    out.extend_from_slice(word)?;
    Ok(())
}

/// Appends a number in decimal digits.
///
/// # Errors
/// Out of memory.
pub fn push_number(out: &mut Vec<u8>, number: u64) -> Result<(), Memory>
    ensures ok { OnOk result (out.new.items ≡ out.old.items ++ decimal number) }
    ensures kept { take (length out.old.items) out.new.items ≡ out.old.items }
{
    push_word(out, Buffer::new().format(number).as_bytes())
}

/// The number of a row at a place, counted from 0, in 32 bits. More rows do not fit in memory.
///
/// # Errors
/// Out of memory, where the place has more bits.
pub fn row_number(place: usize) -> Result<u32, Memory>
    ensures number { IfOk result (λ number. number ≡ place) }
    ensures large { OnErr result (4294967295 < place) }
{
    u32::try_from(place).map_err(|_| Memory)
}

/// The number of the cluster at a place: places count from 0, and clusters from 1. More clusters do not fit in memory.
///
/// # Errors
/// Out of memory, where the number has more bits.
pub fn cluster_number(place: usize) -> Result<u32, Memory>
    ensures number { IfOk result (λ number. number ≡ place + 1) }
    ensures large { OnErr result (4294967294 < place) }
{
    if place > 4_294_967_294 {
        return Err(Memory);
    }
    Ok(place as u32 + 1)
}
