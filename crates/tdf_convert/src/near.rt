//! Where the entries of an offset stand in a plan, which goes by offset.

ghost use Rattle.std.specs.Prelude.{◌≡◌, ◌<◌, ◌≤◌, ℕ, IfSome, length, Some, slice_get, true};
ghost use Rattle.tdf_convert.specs.Sampled.{AreByOffset};
ghost use Rattle.tdf_schedule.specs.declared.entry.Entry.{Entry as EntryOf};

use tdf_schedule::Entry;

/// So many entries are looked at one by one before they are halved.
const NEAR: usize = 6;

/// Whether the entries before a place are below an offset, as the last of them is.
#[inline]
fn are_below(entries: &[Entry], place: usize, offset: u64) -> bool
    requires sorted { AreByOffset entries.now }
    requires within { place ≤ length entries.now }
    ensures { result ≡ true → (j : ℕ) (x : EntryOf) → j < place
        → slice_get entries.now j ≡ Some x → x.offset < offset }
{
    if place == 0 {
        return true;
    }
    let last = entries[place - 1];
    last.offset < offset
}

/// Whether the entries from a place on are not below an offset, as the first of them is not.
#[inline]
fn are_from(entries: &[Entry], place: usize, offset: u64) -> bool
    requires sorted { AreByOffset entries.now }
    requires within { place ≤ length entries.now }
    ensures { result ≡ true → (j : ℕ) (x : EntryOf) → place ≤ j
        → slice_get entries.now j ≡ Some x → offset ≤ x.offset }
{
    if place == entries.len() {
        return true;
    }
    let first = entries[place];
    offset <= first.offset
}

/// Whether the entries at this offset or after are seen to begin at a place.
#[inline]
fn begins_at(entries: &[Entry], place: usize, offset: u64) -> bool
    requires sorted { AreByOffset entries.now }
    ensures bound { result ≡ true → place ≤ length entries.now }
    ensures before { result ≡ true → (j : ℕ) (x : EntryOf) → j < place
        → slice_get entries.now j ≡ Some x → x.offset < offset }
    ensures from { result ≡ true → (j : ℕ) (x : EntryOf) → place ≤ j
        → slice_get entries.now j ≡ Some x → offset ≤ x.offset }
{
    if place > entries.len() || !are_below(entries, place, offset) {
        return false;
    }
    are_from(entries, place, offset)
}

/// The place of the first entry at this offset or after, where it is one of the few that follow a place.
fn near_begin(entries: &[Entry], place: usize, offset: u64) -> Option<usize>
    requires sorted { AreByOffset entries.now }
    ensures bound { IfSome result (λ p. p ≤ length entries.now) }
    ensures before { IfSome result (λ p. (j : ℕ) (x : EntryOf) → j < p
        → slice_get entries.now j ≡ Some x → x.offset < offset) }
    ensures from { IfSome result (λ p. (j : ℕ) (x : EntryOf) → p ≤ j
        → slice_get entries.now j ≡ Some x → offset ≤ x.offset) }
{
    for i in place..entries.len().min(place.saturating_add(NEAR)) {
        if begins_at(entries, i + 1, offset) {
            return Some(i + 1);
        }
    }
    None
}

/// The place of the first entry at this offset or after: the one that is given, or found by halving. It takes no memory.
pub fn first_from(entries: &[Entry], place: usize, offset: u64) -> usize
    requires sorted { AreByOffset entries.now }
    ensures bound { result ≤ length entries.now }
    ensures before { (j : ℕ) (x : EntryOf) → j < result → slice_get entries.now j ≡ Some x
        → x.offset < offset }
    ensures from { (j : ℕ) (x : EntryOf) → result ≤ j → slice_get entries.now j ≡ Some x
        → offset ≤ x.offset }
{
    if begins_at(entries, place, offset) {
        return place;
    }
    entries.partition_point(|entry| entry.offset < offset)
}

/// The place of the first entry after this offset: one of the few that follow a place, or found by halving. It takes no memory.
pub fn first_after(entries: &[Entry], place: usize, offset: u64) -> usize
    requires sorted { AreByOffset entries.now }
    ensures bound { result ≤ length entries.now }
    ensures upto { (j : ℕ) (x : EntryOf) → j < result → slice_get entries.now j ≡ Some x
        → x.offset ≤ offset }
    ensures after { (j : ℕ) (x : EntryOf) → result ≤ j → slice_get entries.now j ≡ Some x
        → offset < x.offset }
{
    if offset < u64::MAX {
        if let Some(near) = near_begin(entries, place, offset + 1) {
            return near;
        }
    }
    entries.partition_point(|entry| entry.offset <= offset)
}
