//! How often some actors fire in a plan.

ghost use Rattle.std.specs.Prelude.{◌≡◌, ◌<◌, ◌+◌, ◌^◌, ℕ, IfOk, length, slice_index};
ghost use Rattle.tdf_cluster_net.specs.Numbers.{Rise};
ghost use Rattle.tdf_cluster_plans.specs.Counted.{AreCounted, firings_of};
ghost use Rattle.tdf_cluster_plans.specs.machine.Counting.{HasOneMore};

use std::alloc::Global;
use tdf_base::Memory;
use tdf_cluster_net::place_in;
use tdf_schedule::Entry;

/// One firing more of an actor; a number that is none of these changes nothing.
fn count_one(numbers: &[u32], counts: &mut Vec<u64>, actor: u32)
    requires long { length counts.old.items ≡ length numbers.now }
    requires rising { Rise numbers.now }
    requires few { (i : ℕ) → slice_index counts.old.items i + 1 < 2 ^ 64 }
    ensures { HasOneMore numbers.now actor counts.old.items counts.new.items }
{
    if let Some(place) = place_in(numbers, actor) {
        counts[place] += 1;
    }
}

/// Sets the count of each of these actors to how often it fires in these entries. It takes no memory.
pub fn set_firings(numbers: &[u32], entries: &[Entry], counts: &mut Vec<u64>)
    requires long { length counts.old.items ≡ length numbers.now }
    requires rising { Rise numbers.now }
    ensures { AreCounted numbers.now entries.now counts.new.items }
{
    counts.fill(0);
    for seen in 0..entries.len() {
        count_one(numbers, counts, entries[seen].actor);
    }
}

/// How often the actor with each of these numbers fires in these entries.
///
/// # Errors
/// Out of memory.
pub fn firings(alloc: Global, numbers: &[u32], entries: &[Entry]) -> Result<Vec<u64>, Memory>
    requires { Rise numbers.now }
    ensures { IfOk result (λ counts. AreCounted numbers.now entries.now counts.items) }
{
    let mut counts = vec![in alloc; 0; numbers.len()]?;
    set_firings(numbers, entries, &mut counts);
    Ok(counts)
}

/// How often an actor fires in these entries, where it is counted for the actors with these numbers; another one is counted now.
pub fn firings_of(numbers: &[u32], counts: &[u64], entries: &[Entry], actor: u32) -> u64
    requires { AreCounted numbers.now entries.now counts.now }
    ensures { result ≡ firings_of entries.now actor }
{
    if let Some(place) = place_in(numbers, actor) {
        return counts[place];
    }
    entries.iter().filter(|entry| entry.actor == actor).count() as u64
}
