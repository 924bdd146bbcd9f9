//! The events of a block.

ghost use Rattle.std.specs.Prelude.{◌≡◌, ◌+◌, slice_get, Some, IfOk};
ghost use Rattle.tdf_expr_semantics.specs.Places.{events_of, total};
ghost use Rattle.tdf_expr_symbols.specs.Names.{Thing as ThingSeen};
ghost use Rattle.tdf_expr_symbols.specs.Seen.{seen};

use tdf_base::Memory;
use tdf_expr_symbols::{Scope, Thing};

fn one_more(count: u32) -> Result<u32, Memory>
    ensures { IfOk result (λ n. n ≡ count + 1) }
{
    match count.checked_add(1) {
        None => Err(Memory),
        Some(next) => Ok(next),
    }
}

/// The count of events, with that of a name.
fn count_event(count: u32, thing: Thing) -> Result<u32, Memory>
    ensures { IfOk result (λ n. n ≡ count + events_of (seen thing.entry)) }
{
    match thing {
        Thing::Event => one_more(count),
        _ => Ok(count),
    }
}

/// The count of events, with that of the name at a place.
fn count_place(count: u32, scope: &Scope, place: usize) -> Result<u32, Memory>
    ensures { (t : ThingSeen) → slice_get scope.now.own.things place ≡ Some t → IfOk result (λ n. n ≡ count + events_of t) }
{
    match scope.own_at(place) {
        None => Ok(count),
        Some(thing) => count_event(count, thing),
    }
}

/// How many events a block has.
///
/// # Errors
/// Out of memory, where there are more than 2^32.
#[tactic(auto, using(crate::proofs::Ported::event_laws))]
pub(crate) fn event_count(scope: &Scope) -> Result<u32, Memory>
    ensures { IfOk result (λ n. n ≡ total events_of scope.now.own.things) }
{
    let mut count = 0;
    for place in 0..scope.own_len() {
        count = count_place(count, scope, place)?;
    }
    Ok(count)
}
