//! The pass over all clusters at a time, in order of number.

ghost use Rattle.std.specs.Prelude.{◌≡◌, false, true};
ghost use Rattle.tdf_exec.specs.Cluster.{is_next_due};
ghost use Rattle.tdf_exec.specs.Gained.{HaveRoom};
ghost use Rattle.tdf_exec.specs.Made.{IsClusterOf};
ghost use Rattle.tdf_exec.specs.Played.{AreInputsFor};
ghost use Rattle.tdf_sim_refinement.specs.Fired.{HasFired, HasStayed, HasTooFew};
ghost use Rattle.tdf_sim_refinement.specs.Pass.{CanPass, HasPassedAll, HasPassedPart, pass_of, pass_run};

use crate::firing::fire_due;
use tdf_bind::Flat;
use tdf_convert::{Inputs, Outputs};
use tdf_exec::Cluster;

/// What the firings of a time go by.
#[derive(Drop)]
pub struct Moment<'a> {
    /// The time, in counts of the resolution.
    pub time: u64,
    /// When the period of each cluster began, in order of number.
    pub since: &'a [u64],
    /// What the samplers of each cluster read.
    pub inputs: &'a [Inputs],
}

/// The turn of a cluster: its entries of an offset, if its next one has this offset. The answer is false where the
/// turns that are left are too few.
fn fire_turn(
    flat: &Flat,
    offset: u64,
    inputs: &Inputs,
    cluster: &mut Cluster,
    outputs: &mut Outputs,
    left: &mut u64,
) -> bool
    requires of { IsClusterOf flat.now cluster.old }
    requires inputs { is_next_due cluster.old offset ≡ true → AreInputsFor flat.now offset cluster.old inputs.now }
    requires room { is_next_due cluster.old offset ≡ true → HaveRoom offset cluster.old outputs.old }
    ensures idle { is_next_due cluster.old offset ≡ false → result ≡ true }
    ensures stays { is_next_due cluster.old offset ≡ false → HasStayed cluster.old cluster.new
        outputs.old outputs.new left.old left.new }
    ensures fired { is_next_due cluster.old offset ≡ true → result ≡ true → HasFired flat.now offset
        inputs.now cluster.old cluster.new outputs.old outputs.new left.old left.new }
    ensures few { is_next_due cluster.old offset ≡ true → result ≡ false → HasTooFew offset
        cluster.old cluster.new outputs.old outputs.new left.old left.new }
{
    match cluster.next_offset() {
        None => true,
        Some(next) => {
            if next == offset {
                return fire_due(flat, offset, inputs, cluster, outputs, left);
            }
            true
        }
    }
}

/// Gives each cluster its turn at a time, in order of number: it does its entries of the time, each for one of the
/// turns that are left. Where the turns are too few for a cluster, those before it have had theirs, and the answer is
/// false.
pub fn fire_all(
    flat: &Flat,
    moment: &Moment,
    clusters: &mut Vec<Cluster>,
    outputs: &mut Outputs,
    left: &mut u64,
) -> bool
    requires { CanPass flat.now (pass_of moment.now)
        (pass_run clusters.old.items outputs.old left.old) }
    ensures all { result ≡ true → HasPassedAll flat.now (pass_of moment.now)
        (pass_run clusters.old.items outputs.old left.old)
        (pass_run clusters.new.items outputs.new left.new) }
    ensures part { result ≡ false → HasPassedPart flat.now (pass_of moment.now)
        (pass_run clusters.old.items outputs.old left.old)
        (pass_run clusters.new.items outputs.new left.new) }
{
    for n in 0..clusters.len() {
        let offset = moment.time - moment.since[n];
        let inputs = &moment.inputs[n];
        if !fire_turn(flat, offset, inputs, &mut clusters[n], outputs, left) {
            return false;
        }
    }
    true
}
