//! When the periods of clusters began.

ghost use Rattle.std.specs.Prelude.{◌≡◌, IfOk, map};
ghost use Rattle.tdf_saved.specs.State.{ClusterStateOf};

use std::alloc::Global;
use tdf_base::Memory;
use tdf_saved::ClusterState;

/// When the period of each cluster began, by their states.
///
/// # Errors
/// Out of memory.
pub(crate) fn starts_of(alloc: Global, states: &[ClusterState]) -> Result<Vec<u64>, Memory>
    ensures { IfOk result (λ starts.
        starts.items ≡ map (λ (s : ClusterStateOf). s.start) states.now) }
{
    let mut starts = Vec::new(alloc);
    for n in 0..states.len() {
        let state = &states[n];
        starts.push(state.start)?;
    }
    Ok(starts)
}
