//! The first of the assignments.

ghost use Rattle.std.specs.Prelude.{◌≡◌, ◌≢◌, ◌<◌, ◌≤◌, ◌+◌, ◌*◌, ◌^◌, List, All, length, IfSome};
ghost use Rattle.tdf_base.specs.Limits.{time_end, most_firings};
ghost use Rattle.tdf_graph.specs.Ranges.{IsRate};
ghost use Rattle.tdf_timestep.specs.Order.{spot_comes_before, port_rank, spot_of};
ghost use Rattle.tdf_timestep.specs.Period.{share_of, period_of, IsAssigned, IsPortOf};
ghost use Rattle.tdf_timestep.specs.views.Found.{IsFound, IsFoundUpTo, IsBetter, IsOther};

use crate::assign::Assign;
use crate::share::{comes_before, period_of, spot_of};
use tdf_graph::Net;

/// The place of the earlier of the best assignment so far and one more.
fn better(assigned: &[Assign], best: Option<u32>, place: u32) -> Option<u32>
    requires place { place < length assigned.now }
    requires best { IfSome best (λ b. b < place) }
    ensures better { IsBetter assigned.now best place result }
    ensures within { IfSome result (λ b. b < place + 1) }
{
    match best {
        None => Some(place),
        Some(other) => {
            if comes_before(
                spot_of(&assigned[place as usize]),
                spot_of(&assigned[other as usize]),
            ) {
                Some(place)
            } else {
                Some(other)
            }
        }
    }
}

/// The place of the first assignment.
pub(crate) fn first_of(assigned: &[Assign]) -> Option<u32>
    requires { length assigned.now < 2 ^ 32 }
    ensures { IsFound assigned.now (λ _. Unit {0}) result }
{
    let mut best: Option<u32> = None;
    for place in 0..assigned.len() as u32 {
        best = better(assigned, best, place);
    }
    best
}

/// The place of the first assignment that gives another period: that at a place, or the best one before.
fn other_or(
    net: &Net,
    counts: &[u64],
    assigned: &[Assign],
    period: u128,
    best: Option<u32>,
    place: u32,
) -> Option<u32>
    requires few { All (λ q. q ≤ most_firings) counts.now }
    requires assigned { All (IsAssigned net.now.ports.items counts.now) assigned.now }
    requires place { place < length assigned.now }
    requires best { IfSome best (λ b. b < place) }
    requires found { IsFoundUpTo place assigned.now (IsOther net.now.ports.items counts.now period) best }
    ensures found { IsFoundUpTo (place + 1) assigned.now (IsOther net.now.ports.items counts.now period) result }
    ensures within { IfSome result (λ b. b < place + 1) }
{
    if period_of(net, counts, &assigned[place as usize]) == period {
        return best;
    }
    better(assigned, best, place)
}

/// The place of the first assignment that gives another period than this one.
pub(crate) fn first_other(
    net: &Net,
    counts: &[u64],
    assigned: &[Assign],
    period: u128,
) -> Option<u32>
    requires few { All (λ q. q ≤ most_firings) counts.now }
    requires assigned { All (IsAssigned net.now.ports.items counts.now) assigned.now }
    requires small { length assigned.now < 2 ^ 32 }
    ensures { IsFound assigned.now (IsOther net.now.ports.items counts.now period) result }
{
    let mut best: Option<u32> = None;
    for place in 0..assigned.len() as u32 {
        best = other_or(net, counts, assigned, period, best, place);
    }
    best
}
