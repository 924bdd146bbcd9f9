//! The greatest common divisor of two numbers.

ghost use Rattle.std.specs.Prelude.{◌≡◌, ◌<◌, ◌≤◌, ◌*◌};
ghost use Rattle.std.specs.Int.{IsGcd, ◌∣◌};

/// The greatest common divisor of two numbers.
pub(crate) fn gcd(first: u64, second: u64) -> u64
    requires { 0 < first }
    ensures divisor { IsGcd first second result }
    ensures some { 0 < result }
{
    let mut greater = first;
    let mut rest = second;
    while rest != 0 {
        let next = greater % rest;
        greater = rest;
        rest = next;
    }
    greater
}

/// How often a divisor is in a number.
pub(crate) fn times(number: u64, divisor: u64) -> u64
    requires some { 0 < number }
    requires divides { divisor ∣ number }
    requires divisor { 0 < divisor }
    ensures value { result * divisor ≡ number }
    ensures some { 0 < result }
    ensures few { result ≤ number }
{
    number / divisor
}
