//! Where an indexed element of a body stands.

ghost use Rattle.std.specs.Prelude.{◌≡◌, ◌≤◌, ◌^◌, map, min, IfSome};
ghost use Rattle.tdf_expr_compiler.specs.machine.Indexed.{IsSpotOf, IsFallen, IsRisen};
ghost use Rattle.tdf_expr_symbols.specs.Seen.{seen_loop};

use tdf_base::Name;
use tdf_expr_machine::Spot;
use tdf_expr_symbols::{OpenLoop, loop_place};
use tdf_lang_tree::Index;

/// A number of a body without a fault, which is at most 8192.
pub(crate) fn small(number: u64) -> u32
    ensures { result ≡ min number 8192 }
{
    number.min(8192) as u32
}

/// The place `at + times * variable - less`; without such a variable that of 0.
#[tactic(auto, using(crate::proofs::Indexed::spot_laws))]
fn risen(loops: &[OpenLoop], name: &Name, at: u32, times: u32, less: u32) -> Spot
    ensures { IsRisen (map seen_loop loops.now) name.now at times less result }
{
    match loop_place(loops, name.as_bytes()) {
        Some(depth) => Spot::Rise {
            at,
            times,
            variable: small(depth as u64),
            less,
        },
        None => Spot::Fixed(at),
    }
}

/// The place `at - variable`; without such a variable that of 0.
#[tactic(auto, using(crate::proofs::Indexed::spot_laws))]
fn fallen(loops: &[OpenLoop], at: u32, name: &Name) -> Spot
    ensures { IsFallen (map seen_loop loops.now) name.now at result }
{
    match loop_place(loops, name.as_bytes()) {
        Some(depth) => Spot::Fall {
            at,
            variable: small(depth as u64),
        },
        None => Spot::Fixed(at),
    }
}

/// Where the element of an index stands, of what begins at a place.
#[tactic(auto, using(crate::proofs::Indexed::index_laws))]
pub(crate) fn spot_of(loops: &[OpenLoop], at: u32, index: &Index) -> Spot
    requires { at ≤ 2 ^ 31 }
    ensures { IsSpotOf (map seen_loop loops.now) at index.now result }
{
    match index {
        Index::Int(n) => Spot::Fixed(at + small(*n)),
        Index::Var(name) => risen(loops, name, at, 1, 0),
        Index::Plus(name, n) => risen(loops, name, at + small(*n), 1, 0),
        Index::Minus(name, n) => risen(loops, name, at, 1, small(*n)),
        Index::From(n, name) => fallen(loops, at + small(*n), name),
        Index::Times(factor, name) => risen(loops, name, at, small(*factor), 0),
        Index::TimesPlus(factor, name, n) => {
            risen(loops, name, at + small(*n), small(*factor), 0)
        }
    }
}
