//! The first step that isn't whole.

ghost use Rattle.std.specs.Prelude.{◌≡◌, ◌≢◌, ◌<◌, ◌≤◌, ◌+◌, ◌*◌, ◌^◌, ◌↔◌, List, All, length, vec_len, Some, IsTrue, slice_index};
ghost use Rattle.std.specs.Int.{◌∣◌};
ghost use Rattle.tdf_base.specs.Limits.{time_end, most_firings};
ghost use Rattle.tdf_timestep.specs.Order.{spot_comes_before};
ghost use Rattle.tdf_timestep.specs.Period.{share_of, IsPortOf};
ghost use Rattle.tdf_timestep.specs.views.Broken.{IsUnwhole, IsLesser, IsConsidered, IsFirstAmong, IsSeen};

use crate::assign::Spot;
use crate::share::{comes_before, share};
use tdf_graph::Net;

/// Whether a share is some and doesn't divide the period.
fn is_unwhole(share: u64, period: u64) -> bool
    ensures { IsTrue result ↔ IsUnwhole share period }
{
    share != 0 && period % share != 0
}

/// The earlier of the best spot so far and one more.
fn lesser(best: Option<Spot>, spot: Spot) -> Option<Spot>
    ensures { IsLesser best spot result }
{
    match best {
        None => Some(spot),
        Some(other) => {
            if comes_before(spot, other) {
                Some(spot)
            } else {
                Some(other)
            }
        }
    }
}

/// The earlier of the best spot so far and one more, if the step of that one isn't whole.
#[tactic(auto, using(crate::proofs::Unwhole::idle))]
fn consider(net: &Net, counts: &[u64], period: u64, best: Option<Spot>, spot: Spot) -> Option<Spot>
    requires few { All (λ q. q ≤ most_firings) counts.now }
    requires actor { spot.actor < length counts.now }
    requires port { IsPortOf net.now.ports.items spot.actor spot.port }
    ensures { IsConsidered net.now.ports.items counts.now period best spot result }
{
    if counts[spot.actor as usize] == 0 || !is_unwhole(share(net, counts, spot), period) {
        return best;
    }
    lesser(best, spot)
}

/// The first actor whose step isn't whole.
fn first_actor(net: &Net, counts: &[u64], period: u64) -> Option<Spot>
    requires few { All (λ q. q ≤ most_firings) counts.now }
    requires long { length counts.now ≡ vec_len net.now.actors }
    ensures { IsFirstAmong net.now.ports.items counts.now period (IsSeen net.now.ports.items (length counts.now) 0) result }
{
    let mut best: Option<Spot> = None;
    for actor in 0..counts.len() as u32 {
        best = consider(net, counts, period, best, Spot { actor, port: None });
    }
    best
}

/// The spot of a port.
fn port_spot(net: &Net, number: u32) -> Spot
    requires { number < vec_len net.now.ports }
    ensures actor { result.actor < vec_len net.now.actors }
    ensures own { IsPortOf net.now.ports.items result.actor result.port }
    ensures number { result.port ≡ Some number }
{
    Spot {
        actor: net.ports[number as usize].actor,
        port: Some(number),
    }
}

/// The first actor or port whose step isn't whole.
pub(crate) fn first_unwhole(net: &Net, counts: &[u64], period: u64) -> Option<Spot>
    requires few { All (λ q. q ≤ most_firings) counts.now }
    requires long { length counts.now ≡ vec_len net.now.actors }
    ensures { IsFirstAmong net.now.ports.items counts.now period (IsSeen net.now.ports.items (length counts.now) (length net.now.ports.items)) result }
{
    let mut best = first_actor(net, counts, period);
    for number in 0..net.ports.len() as u32 {
        best = consider(net, counts, period, best, port_spot(net, number));
    }
    best
}
