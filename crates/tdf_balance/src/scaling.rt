//! Counts of some actors, multiplied.

ghost use Rattle.std.specs.Prelude.{◌≡◌, ◌<◌, ◌≤◌, ◌*◌, ◌^◌, All, true, false, length, vec_len, slice_index};
ghost use Rattle.tdf_base.specs.Limits.{most_firings};
ghost use Rattle.tdf_balance.specs.views.Scaled.{AreOnce, ScaledUpTo, HasTooGreat, IsScaled, HasGreat};

use tdf_base::MOST_FIRINGS;
use tdf_graph::Parts;

/// Multiplies the counts of the actors of a list; false where one of them would pass the limit of a cluster's firings.
fn scale(counts: &mut Vec<u64>, actors: &[u32], factor: u64) -> bool
    requires few { All (λ q. q ≤ most_firings) counts.old.items }
    requires factor { (0 < factor) × (factor < 2 ^ 32) }
    requires once { AreOnce (length counts.old.items) actors.now }
    ensures scaled { result ≡ true → ScaledUpTo (length actors.now) factor actors.now counts.old.items counts.new.items }
    ensures above { result ≡ false → HasTooGreat factor actors.now counts.old.items }
{
    if factor == 1 {
        return true;
    }
    for actor in actors {
        let count = counts[*actor as usize] * factor;
        if MOST_FIRINGS < count {
            return false;
        }
        counts[*actor as usize] = count;
    }
    true
}

/// Multiplies the counts of a part; false where one of them would pass the limit of a cluster's firings.
pub(crate) fn scale_part(counts: &mut Vec<u64>, parts: &Parts, label: u32, factor: u64) -> bool
    requires label { label < length parts.now }
    requires few { All (λ q. q ≤ most_firings) counts.old.items }
    requires factor { (0 < factor) × (factor < 2 ^ 32) }
    requires long { length parts.now ≡ length counts.old.items }
    ensures scaled { result ≡ true → IsScaled parts.now label factor counts.old.items counts.new.items }
    ensures above { result ≡ false → HasGreat parts.now label factor counts.old.items }
{
    scale(counts, parts.members(label), factor)
}
