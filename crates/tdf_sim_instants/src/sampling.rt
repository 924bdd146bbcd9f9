//! The samplers that are due get the values of their signals.

ghost use Rattle.std.specs.Prelude.{◌≡◌, ◌≤◌, length, false, true};
ghost use Rattle.tdf_convert.specs.Links.{AreLinks, HaveSignals};
ghost use Rattle.tdf_convert.specs.Sampled.{AreSampled};
ghost use Rattle.tdf_sim_instants.specs.Sampling.{CanSample, HaveSampled, sampling_at};
ghost use Rattle.tdf_sim_refinement.specs.Below.{is_next_due};

use tdf_convert::{Inputs, Links, sample_nothing};
use tdf_fixed::Raw;
use tdf_sim_refinement::Cluster;

/// The samplers of a cluster, if entries of this offset come next, get the values of their signals.
fn sample_turn(cluster: &Cluster, offset: u64, links: &Links, values: &[Raw], inputs: &mut Inputs)
    requires links { AreLinks links.now.list.items (length inputs.old) }
    requires signals { HaveSignals links.now.list.items (length values.now) }
    ensures due { is_next_due cluster.now offset ≡ true → AreSampled cluster.now.entries offset
        links.now.list.items values.now inputs.old inputs.new }
    ensures idle { is_next_due cluster.now offset ≡ false → inputs.new ≡ inputs.old }
    ensures long { length inputs.new ≡ length inputs.old }
{
    if sample_nothing(links) {
        return;
    }
    if let Some(next) = cluster.next_offset() {
        if next == offset {
            cluster.sample_due(offset, links, values, inputs);
        }
    }
}

/// The samplers of all clusters that are due at a time get the values of their signals. `since` has the start of the period of each
/// cluster.
pub(crate) fn sample_all(
    time: u64,
    since: &[u64],
    clusters: &[Cluster],
    links: &[Links],
    values: &[Raw],
    inputs: &mut Vec<Inputs>,
)
    requires { CanSample (sampling_at time since.now clusters.now links.now values.now) inputs.old.items }
    ensures { HaveSampled (sampling_at time since.now clusters.now links.now values.now)
        (length clusters.now) inputs.old.items inputs.new.items }
{
    for n in 0..clusters.len() {
        sample_turn(
            &clusters[n],
            time - since[n],
            &links[n],
            values,
            &mut inputs[n],
        );
    }
}
