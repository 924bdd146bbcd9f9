//! Update and delta notification.

ghost use Rattle.std.specs.Prelude.{◌≡◌, ◌<◌, ℕ, Some, length, slice_get};
ghost use Rattle.tdf_events_queue.specs.Lists.{list_at};
ghost use Rattle.tdf_events.specs.Delta.{differs};
ghost use Rattle.tdf_events.specs.machine.Updating.{AreGiven, AreReached, does_change};

use tdf_events_queue::{Lists, NumberSet, trigger};
use tdf_fixed::Raw;

/// Whether a value that waits differs from the one of its signal.
fn differs(value: Raw, waiting: Option<Raw>) -> bool
    ensures { result ≡ differs value waiting }
{
    match waiting {
        None => false,
        Some(new) => !(value.num == new.num && value.frac == new.frac),
    }
}

/// The processes that are sensitive to signals that change are triggered.
pub(crate) fn trigger_changed(
    signals: &[u32],
    values: &[Raw],
    waiting: &[Option<Raw>],
    lists: &Lists,
    set: &mut NumberSet,
)
    requires values { (i s : ℕ) → slice_get signals.now i ≡ Some s → s < length values.now }
    requires waiting { (i s : ℕ) → slice_get signals.now i ≡ Some s → s < length waiting.now }
    requires lists { (i s : ℕ) → slice_get signals.now i ≡ Some s → s < length lists.now }
    requires members { (s j p : ℕ) → slice_get (list_at lists.now s) j ≡ Some p
        → p < length set.old.flags }
    ensures { AreReached lists.now (does_change values.now waiting.now) signals.now
        (length signals.now) set.old.flags set.new.flags }
{
    for i in 0..signals.len() {
        let signal = signals[i];
        if differs(values[signal as usize], waiting[signal as usize]) {
            trigger(lists, signal, set);
        }
    }
}

/// Each signal takes the value that waits for it, and nothing waits for it any more.
pub(crate) fn give_values(signals: &[u32], waiting: &mut Vec<Option<Raw>>, values: &mut Vec<Raw>)
    requires values { (i s : ℕ) → slice_get signals.now i ≡ Some s
        → s < length values.old.items }
    requires waiting { (i s : ℕ) → slice_get signals.now i ≡ Some s
        → s < length waiting.old.items }
    ensures { AreGiven signals.now (length signals.now) waiting.old.items waiting.new.items
        values.old.items values.new.items }
{
    for i in 0..signals.len() {
        let signal = signals[i] as usize;
        if let Some(new) = waiting[signal] {
            values[signal] = new;
            waiting[signal] = None;
        }
    }
}
