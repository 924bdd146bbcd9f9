//! What the lists of some numbers name goes into a set.

ghost use Rattle.std.specs.Prelude.{◌≡◌, ◌<◌, ℕ, Some, length, slice_get};
ghost use Rattle.tdf_events_queue.specs.Lists.{list_at};
ghost use Rattle.tdf_events_queue.specs.Triggered.{AreAllTriggered, AreTriggered};

use crate::lists::Lists;
use crate::sets::NumberSet;

/// Puts the numbers of a list into a set.
fn insert_all(list: &[u32], set: &mut NumberSet)
    requires { (j p : ℕ) → slice_get list.now j ≡ Some p → p < length set.old.flags }
    ensures { AreTriggered list.now (length list.now) set.old.flags set.new.flags }
{
    for i in 0..list.len() {
        set.insert(list[i]);
    }
}

/// Puts the list of a number into a set.
pub fn trigger(lists: &Lists, number: u32, set: &mut NumberSet)
    requires number { number < length lists.now }
    requires members { (s j p : ℕ) → slice_get (list_at lists.now s) j ≡ Some p
        → p < length set.old.flags }
    ensures { AreTriggered (list_at lists.now number) (length (list_at lists.now number))
        set.old.flags set.new.flags }
{
    insert_all(lists.at(number), set);
}

/// Puts the lists of several numbers into a set.
pub fn trigger_all(lists: &Lists, numbers: &[u32], set: &mut NumberSet)
    requires numbers { (i s : ℕ) → slice_get numbers.now i ≡ Some s → s < length lists.now }
    requires members { (s j p : ℕ) → slice_get (list_at lists.now s) j ≡ Some p
        → p < length set.old.flags }
    ensures { AreAllTriggered lists.now numbers.now (length numbers.now) set.old.flags
        set.new.flags }
{
    for i in 0..numbers.len() {
        trigger(lists, numbers[i], set);
    }
}
