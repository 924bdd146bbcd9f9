//! What an actor or a port has in one period, and their order.

ghost use Rattle.std.specs.Prelude.{◌≡◌, ◌≢◌, ◌<◌, ◌≤◌, ◌+◌, ◌*◌, ◌^◌, ◌↔◌, ◌⊎◌, List, All, length, IsTrue, slice_index};
ghost use Rattle.std.specs.Int.{◌∣◌};
ghost use Rattle.tdf_base.specs.Limits.{time_end, most_firings};
ghost use Rattle.tdf_timestep.specs.Order.{spot_comes_before, port_rank, spot_of};
ghost use Rattle.tdf_timestep.specs.Period.{share_of, period_of, IsAssigned, IsPortOf};

use crate::assign::{Assign, Spot};
use tdf_graph::Net;

/// A module itself comes before its ports.
fn rank(port: Option<u32>) -> u64
    ensures { result ≡ port_rank port }
{
    match port {
        None => 0,
        Some(number) => u64::from(number) + 1,
    }
}

/// Whether one spot comes before another: by actor, the module itself before its ports.
pub(crate) fn comes_before(one: Spot, other: Spot) -> bool
    ensures { result ≡ spot_comes_before one other }
{
    one.actor < other.actor || (one.actor == other.actor && rank(one.port) < rank(other.port))
}

/// The module or port of an assignment.
pub(crate) fn spot_of(assign: &Assign) -> Spot
    ensures { result ≡ spot_of assign.now }
{
    Spot {
        actor: assign.actor,
        port: assign.port,
    }
}

/// What an actor, or one of its ports, has in one period: firings, or samples.
pub(crate) fn share(net: &Net, counts: &[u64], spot: Spot) -> u64
    requires few { All (λ q. q ≤ most_firings) counts.now }
    requires actor { spot.actor < length counts.now }
    requires port { IsPortOf net.now.ports.items spot.actor spot.port }
    ensures share { result ≡ share_of net.now.ports.items counts.now spot }
    ensures few { result ≤ 2 ^ 30 }
{
    match spot.port {
        None => counts[spot.actor as usize],
        Some(number) => counts[spot.actor as usize] * u64::from(net.ports[number as usize].rate),
    }
}

/// The period that an assignment gives.
pub(crate) fn period_of(net: &Net, counts: &[u64], assign: &Assign) -> u128
    requires few { All (λ q. q ≤ most_firings) counts.now }
    requires assigned { IsAssigned net.now.ports.items counts.now assign.now }
    ensures value { result ≡ period_of net.now.ports.items counts.now assign.now }
{
    u128::from(share(net, counts, spot_of(assign))) * u128::from(assign.step)
}
