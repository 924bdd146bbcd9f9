//! Arithmetic in 128 bits, of numbers that stay within 2^120.

ghost use Rattle.std.specs.Prelude.{◌≡◌, ◌≤◌, ◌%◌, ◌^◌, pos, ◌-ℤ◌, ◌*ℤ◌, unsigned_abs};
ghost use Rattle.tdf_expr_machine.specs.Nodes.{IsRaised, is_true, relates, truth_number};

use crate::nodes::Relation;

/// The number moved up by so many bits.
#[inline]
pub(crate) fn raised(num: i128, bits: u32) -> i128
    requires { IsRaised num bits }
    ensures { result ≡ num *ℤ pos (2 ^ bits) }
{
    num * (1 << bits)
}

#[inline]
pub(crate) fn difference(a: i128, b: i128) -> i128
    requires { (unsigned_abs a ≤ 2 ^ 120) × (unsigned_abs b ≤ 2 ^ 120) }
    ensures { result ≡ a -ℤ b }
{
    a - b
}

/// Whether a number is taken as true.
#[inline]
pub(crate) fn holds(num: i128) -> bool
    ensures { result ≡ is_true num }
{
    num != 0
}

/// 1 for true, 0 for false.
#[inline]
pub(crate) fn truth_number(so: bool) -> i128
    ensures { result ≡ truth_number so }
{
    if so { 1 } else { 0 }
}

#[inline]
pub(crate) fn relates(relation: Relation, a: i128, b: i128) -> bool
    ensures { result ≡ relates relation a b }
{
    match relation {
        Relation::Less => a < b,
        Relation::AtMost => a <= b,
        Relation::Equal => a == b,
        Relation::Different => a != b,
    }
}

/// The low bits of a number.
#[inline]
pub(crate) fn low(num: u128, bits: u32) -> u128
    requires { bits ≤ 120 }
    ensures { result ≡ num % 2 ^ bits }
{
    num & ((1 << bits) - 1)
}
