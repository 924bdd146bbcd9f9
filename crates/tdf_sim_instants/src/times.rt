//! The next time at which something is due.

ghost use Rattle.std.specs.Prelude.{◌≡◌, ◌≤◌, ◌-◌, ◌^◌, false, length, min};
ghost use Rattle.tdf_sim_instants.specs.Times.{IsLeastDue, IsNextDue, due_time};
ghost use Rattle.tdf_events.specs.Kernel.{side_of};

use tdf_events::Kernel;
use tdf_sim_refinement::Cluster;

/// The time at which something is next due in a cluster whose period began at `since`: its next entry, or the end of the period.
fn due_time(cluster: &Cluster, since: u64) -> u64
    ensures { result ≡ min (due_time since cluster.now) (2 ^ 64 - 1) }
{
    let offset = match cluster.next_offset() {
        Some(offset) => offset,
        None => cluster.period(),
    };
    since.saturating_add(offset)
}

/// The least time at which something is next due in one of the clusters; a limit where that is none below it.
fn least_due(clusters: &[Cluster], since: &[u64], limit: u64) -> u64
    requires { length clusters.now ≤ length since.now }
    ensures { IsLeastDue clusters.now since.now (length clusters.now) limit result }
{
    let mut least = limit;
    for n in 0..clusters.len() {
        let due = due_time(&clusters[n], since[n]);
        if due < least {
            least = due;
        }
    }
    least
}

/// The least time at which something is next due, in a cluster or on the event side; the stop where there is none before it.
pub(crate) fn next_time(clusters: &[Cluster], since: &[u64], kernel: &Kernel, stop: u64) -> u64
    requires starts { length clusters.now ≤ length since.now }
    requires going { kernel.now.spent ≡ false }
    ensures { IsNextDue clusters.now since.now (side_of kernel.now) stop result }
{
    let least = least_due(clusters, since, stop);
    match kernel.next_time() {
        Some(next) => {
            if next < least {
                return next;
            }
            least
        }
        None => least,
    }
}
