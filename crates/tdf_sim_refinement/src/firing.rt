//! The firings of a cluster at a time, within the turns that are left.

ghost use Rattle.std.specs.Prelude.{◌≡◌, ◌<◌, ◌≤◌, false, true, Some};
ghost use Rattle.tdf_exec.specs.Cluster.{due_count, next_offset};
ghost use Rattle.tdf_exec.specs.Gained.{HaveRoom};
ghost use Rattle.tdf_exec.specs.Made.{IsClusterOf};
ghost use Rattle.tdf_exec.specs.Played.{AreInputsFor};
ghost use Rattle.tdf_sim_refinement.specs.Fired.{HasFired, HasTooFew};

use tdf_bind::Flat;
use tdf_convert::{Inputs, Outputs};
use tdf_exec::Cluster;

/// Whether the turns that are left are enough for the entries of this offset.
#[inline(always)]
fn has_turns(cluster: &Cluster, offset: u64, left: u64) -> bool
    ensures enough { result ≡ true → due_count cluster.now offset ≤ left }
    ensures few { result ≡ false → left < due_count cluster.now offset }
{
    if cluster.waiting() <= left {
        return true;
    }
    cluster.due_count(offset) <= left
}

/// Does the entries of a cluster that have the offset of its next entry, each for one of the turns that are left. Where
/// these are too few it does none of them, and the answer is false.
pub fn fire_due(
    flat: &Flat,
    offset: u64,
    inputs: &Inputs,
    cluster: &mut Cluster,
    outputs: &mut Outputs,
    left: &mut u64,
) -> bool
    requires of { IsClusterOf flat.now cluster.old }
    requires next { next_offset cluster.old ≡ Some offset }
    requires inputs { AreInputsFor flat.now offset cluster.old inputs.now }
    requires room { HaveRoom offset cluster.old outputs.old }
    ensures fired { result ≡ true → HasFired flat.now offset inputs.now cluster.old cluster.new
        outputs.old outputs.new left.old left.new }
    ensures few { result ≡ false → HasTooFew offset cluster.old cluster.new
        outputs.old outputs.new left.old left.new }
{
    if !has_turns(cluster, offset, *left) {
        return false;
    }
    *left -= cluster.fire_at(flat, offset, inputs, outputs);
    true
}
