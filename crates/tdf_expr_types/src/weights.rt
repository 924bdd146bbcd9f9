//! Weights of statements, counted up to one more than the greatest that a body may have.

ghost use Rattle.std.specs.Prelude.{◌≡◌, ◌≤◌, ◌+◌, ◌-◌, ◌*◌, ℕ, nat_lt};
ghost use Rattle.tdf_base.specs.Limits.{heaviest_body};
ghost use Rattle.tdf_expr_types.specs.machine.Weights.{capped};
ghost use Rattle.tdf_expr_symbols.specs.Scope.{greatest_of};

use tdf_base::HEAVIEST_BODY;
use tdf_expr_symbols::Scope;
use tdf_lang_tree::Limit;

const MOST: u64 = HEAVIEST_BODY + 1;

/// A weight, or the most that is counted.
#[tactic(auto, unfolding(crate::specs::machine::Weights::capped))]
pub fn most(n: u64) -> u64
    ensures value { result ≡ capped n }
    ensures small { result ≤ 65537 }
{
    n.min(MOST)
}

#[tactic(auto, unfolding(crate::specs::machine::Weights::capped))]
fn most_wide(n: u128) -> u64
    ensures value { result ≡ capped n }
    ensures small { result ≤ 65537 }
{
    n.min(u128::from(MOST)) as u64
}

/// The weight of an `if`, by those of its parts.
#[tactic(auto, using(crate::proofs::Counts::weight_laws))]
pub fn if_weight(a: u64, b: u64) -> u64
    requires { (a ≤ 65537) × (b ≤ 65537) }
    ensures value { (x y : ℕ) → a ≡ capped x → b ≡ capped y → result ≡ capped (1 + (x + y)) }
    ensures small { result ≤ 65537 }
{
    most(1 + (a + b))
}

#[tactic(auto, using(crate::proofs::Counts::weight_laws))]
fn times(a: u64, b: u64) -> u64
    requires { (a ≤ 65537) × (b ≤ 65537) }
    ensures value { result ≡ a * b }
    ensures small { result ≤ 65537 * 65537 }
{
    a * b
}

/// The weight of a `for`, by its turns and by that of its body.
#[tactic(auto, using(crate::proofs::Counts::weight_laws))]
pub fn for_weight(turns: u64, body: u64) -> u64
    requires { (turns ≤ 65537) × (body ≤ 65537) }
    ensures value { (n x : ℕ) → turns ≡ capped n → body ≡ capped x → result ≡ capped (1 + n * x) }
    ensures small { result ≤ 65537 }
{
    most(1 + times(turns, body))
}

/// How many turns a `for` takes at most.
pub fn turns(scope: &Scope, from: u64, limit: &Limit) -> u64
    ensures value { result ≡ capped (greatest_of scope.now.own limit.now - from) }
    ensures small { result ≤ 65537 }
{
    most_wide(scope.greatest_of(limit).saturating_sub(u128::from(from)))
}

/// Whether a weight is more than a body may have.
#[tactic(auto, unfolding(crate::specs::machine::Weights::capped))]
pub fn is_heavy(weight: u64) -> bool
    ensures { (n : ℕ) → weight ≡ capped n → result ≡ nat_lt heaviest_body n }
{
    weight > HEAVIEST_BODY
}
