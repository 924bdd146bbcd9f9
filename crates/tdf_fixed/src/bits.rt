//! A mask of low bits.

ghost use Rattle.std.specs.Prelude.{◌≡◌, ◌<◌, ◌≤◌, ◌^◌, ◌%◌};

/// The low `count` bits.
pub(crate) fn low(number: u128, count: u32) -> u128
    requires few { count ≤ 120 }
    ensures value { result ≡ number % 2 ^ count }
    ensures below { result < 2 ^ count }
{
    number & ((1 << count) - 1)
}
