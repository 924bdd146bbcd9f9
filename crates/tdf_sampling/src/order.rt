//! Cells by value. They are compared by their bytes, so they may be of any length.

ghost use Rattle.std.specs.Prelude.{◌≡◌, option_map};
ghost use Rattle.tdf_sampling.specs.Order.{without_sign};
ghost use Rattle.tdf_sampling.specs.machine.Bytes.{comes_first, comes_within, whole_len};

fn whole_len(number: &[u8]) -> usize
    ensures { result ≡ whole_len number.now }
{
    number.iter().take_while(|byte| **byte != b'.').count()
}

/// Whether a number is at most another, both without a sign: no digit in front is needless, so a longer whole part is greater.
fn is_within(a: &[u8], b: &[u8]) -> bool
    ensures { result ≡ comes_within a.now b.now }
{
    let left = whole_len(a);
    let right = whole_len(b);
    if left == right {
        return a.cmp(b).is_le();
    }
    left < right
}

/// A number below 0, without its sign.
fn without_sign<'t>(number: &'t [u8]) -> Option<&'t [u8]>
    ensures { option_map (λ digits. digits.now) result ≡ without_sign number.entry.now }
{
    match number {
        [b'-', digits @ ..] => Some(digits),
        _ => None,
    }
}

/// Whether a number is at most another.
#[tactic(auto, unfolding(crate::specs::machine::Bytes::comes_first))]
pub(crate) fn is_at_most(a: &[u8], b: &[u8]) -> bool
    ensures { result ≡ comes_first a.now b.now }
{
    match without_sign(a) {
        None => match without_sign(b) {
            None => is_within(a, b),
            Some(_) => false,
        },
        Some(left) => match without_sign(b) {
            None => true,
            Some(right) => is_within(right, left),
        },
    }
}
