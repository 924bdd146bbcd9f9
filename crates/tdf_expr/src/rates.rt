//! The rate variables of a block.

ghost use Rattle.std.specs.Prelude.{◌≡◌, ◌≤◌, ◌^◌, ◌++◌, length, slice_get, Some, OnOk, IfOk};
ghost use Rattle.tdf_expr.specs.machine.Cells.{IsRateKept};
ghost use Rattle.tdf_expr.specs.Plans.{rate_span, rate_spans};
ghost use Rattle.tdf_expr_symbols.specs.Names.{Thing as ThingSeen};
ghost use Rattle.tdf_expr_symbols.specs.Seen.{seen};
ghost use Rattle.tdf_expr_symbols.specs.Sound.{IsSound};

use crate::spans::RateSpan;
use std::alloc::Global;
use tdf_base::Memory;
use tdf_expr_symbols::{Scope, Thing};

/// The limits of a name that is a rate variable.
#[tactic(auto, using(crate::proofs::Pushes::cell_laws))]
fn push_rate(spans: &mut Vec<RateSpan>, thing: Thing) -> Result<(), Memory>
    requires { IsRateKept (seen thing) }
    ensures { OnOk result (spans.new.items ≡ spans.old.items ++ rate_span (seen thing.entry)) }
{
    match thing {
        Thing::RateVar(least, greatest, start) => {
            spans.push(RateSpan {
                least: least as u32,
                greatest: greatest as u32,
                start: start as u32,
            })?;
            Ok(())
        }
        _ => Ok(()),
    }
}

/// The limits of the name at a place.
#[tactic(auto, using(crate::proofs::Planned::rate_plan_laws))]
fn push_place(spans: &mut Vec<RateSpan>, scope: &Scope, place: usize) -> Result<(), Memory>
    requires sound { IsSound scope.now }
    ensures { (t : ThingSeen) → slice_get scope.now.own.things place ≡ Some t
        → OnOk result (spans.new.items ≡ spans.old.items ++ rate_span t) }
{
    match scope.own_at(place) {
        None => Ok(()),
        Some(thing) => push_rate(spans, thing),
    }
}

/// The rate variables of a block.
///
/// # Errors
/// Out of memory, also where there are more than 2^31.
#[tactic(auto, using(crate::proofs::Planned::plan_laws))]
pub(crate) fn rate_plan(alloc: Global, scope: &Scope) -> Result<Vec<RateSpan>, Memory>
    requires sound { IsSound scope.now }
    ensures spans { IfOk result (λ spans. spans.items ≡ rate_spans scope.now.own) }
    ensures few { IfOk result (λ spans. length spans.items ≤ 2 ^ 31) }
{
    let mut spans = Vec::new(alloc);
    for place in 0..scope.own_len() {
        push_place(&mut spans, scope, place)?;
    }
    if spans.len() > 1 << 31 {
        return Err(Memory);
    }
    Ok(spans)
}
