//! Notifications of a saved text, read exactly.

ghost use Rattle.std.specs.List.{AllByRecursion, flat_map};
ghost use Rattle.std.specs.Prelude.{◌≡◌, ◌≢◌, ◌++◌, ℕ, List, true, false, IfErr, IfOk, IfSome, None, map};
ghost use Rattle.tdf_save.specs.Members.{AreNamesApart};
ghost use Rattle.tdf_save.specs.Text.{saved_pending};
ghost use Rattle.tdf_save.specs.machine.Pieces.{Any, IsNext};
ghost use Rattle.tdf_save_reading.specs.machine.Events.{Blank, IsEvent, IsNotice, IsPlaceFor, event_name, place_text};
ghost use Rattle.tdf_save_reading.specs.machine.Pieces.{IsPiece, IsStateRefusal, NoPiece};

use crate::lists::{begins_with, is_next, put};
use crate::numbers::{cut, last_count};
use crate::places::{likely_place, places_of};
use indexmap::IndexSet;
use std::alloc::Global;
use tdf_saved::{Pending, StateErr};

/// What comes after a name that a space ends; none where the text begins otherwise.
fn cut_name<'t>(text: &'t [u8], name: &[u8]) -> Option<&'t [u8]>
    ensures is { IfSome result (λ rest. text.entry.now ≡ name.now ++ rest.now) }
    ensures blank { IfSome result (λ rest. Blank rest.now) }
    ensures none { result ≡ None → (rest : List ℕ) → Blank rest → text.entry.now ≢ name.now ++ rest }
{
    match cut(text, name) {
        Some(rest) => {
            if begins_with(rest, b' ') {
                return Some(rest);
            }
            None
        }
        None => None,
    }
}

/// The event at a place, if its name begins a text, and what comes after the name.
fn event_at<'t>(names: &[Vec<u8>], place: usize, text: &'t [u8]) -> Option<(usize, &'t [u8])>
    ensures is { IfSome result (λ p. IsPiece (event_name (map (λ z. z.items) names.now))
        (IsEvent (map (λ z. z.items) names.now)) Blank text.entry.now p.0 p.1.now) }
{
    if place >= names.len() {
        return None;
    }
    match cut_name(text, &names[place]) {
        Some(rest) => Some((place, rest)),
        None => None,
    }
}

/// The first event whose name begins a text, and what comes after the name.
fn first_event<'t>(names: &[Vec<u8>], text: &'t [u8]) -> Option<(usize, &'t [u8])>
    ensures is { IfSome result (λ p. IsPiece (event_name (map (λ z. z.items) names.now))
        (IsEvent (map (λ z. z.items) names.now)) Blank text.entry.now p.0 p.1.now) }
    ensures none { result ≡ None → NoPiece (event_name (map (λ z. z.items) names.now))
        (IsEvent (map (λ z. z.items) names.now)) Blank text.entry.now }
{
    for k in 0..names.len() {
        if let Some(rest) = cut_name(text, &names[k]) {
            return Some((k, rest));
        }
    }
    None
}

/// The event whose name begins a text, and what comes after the name. The place that the map has for the name up to the last space of the
/// line is tried first, and all events only where it isn't the one: then the text is that of no notification, or the name has an LF.
fn read_event<'t>(
    names: &[Vec<u8>],
    places: &IndexSet<&[u8]>,
    text: &'t [u8],
) -> Option<(usize, &'t [u8])>
    ensures is { IfSome result (λ p. IsPiece (event_name (map (λ z. z.items) names.now))
        (IsEvent (map (λ z. z.items) names.now)) Blank text.entry.now p.0 p.1.now) }
    ensures none { result ≡ None → NoPiece (event_name (map (λ z. z.items) names.now))
        (IsEvent (map (λ z. z.items) names.now)) Blank text.entry.now }
{
    if let Some(place) = likely_place(places, text) {
        if let Some((place, rest)) = event_at(names, place, text) {
            return Some((place, rest));
        }
    }
    first_event(names, text)
}

/// The place of an event among the names, and the time of its notification.
fn read_place<'t>(
    names: &[Vec<u8>],
    places: &IndexSet<&[u8]>,
    text: &'t [u8],
) -> Option<((usize, u64), &'t [u8])>
    requires apart { AreNamesApart (map (λ z. z.items) names.now) }
    ensures is { IfSome result (λ p. IsPiece (place_text (map (λ z. z.items) names.now))
        (IsPlaceFor (map (λ z. z.items) names.now)) Any text.entry.now p.0 p.1.now) }
    ensures none { result ≡ None → NoPiece (place_text (map (λ z. z.items) names.now))
        (IsPlaceFor (map (λ z. z.items) names.now)) Any text.entry.now }
{
    let Some(word) = cut(text, b"pending ") else {
        return None;
    };
    let Some((place, last)) = read_event(names, places, word) else {
        return None;
    };
    match last_count(last) {
        Some((time, rest)) => Some(((place, time), rest)),
        None => None,
    }
}

/// A notification.
fn read_notice<'t>(
    names: &[Vec<u8>],
    places: &IndexSet<&[u8]>,
    text: &'t [u8],
) -> Option<(Pending, &'t [u8])>
    requires apart { AreNamesApart (map (λ z. z.items) names.now) }
    ensures is { IfSome result (λ p. IsPiece (saved_pending (map (λ z. z.items) names.now))
        (IsNotice (map (λ z. z.items) names.now)) Any text.entry.now p.0 p.1.now) }
    ensures none { result ≡ None → NoPiece (saved_pending (map (λ z. z.items) names.now))
        (IsNotice (map (λ z. z.items) names.now)) Any text.entry.now }
{
    let Some(((place, time), rest)) = read_place(names, places, text) else {
        return None;
    };
    if place > 4_294_967_295 {
        return None;
    }
    Some((
        Pending {
            event: place as u32,
            time,
        },
        rest,
    ))
}

/// Notifications, up to what may come after them.
fn read_all<'t>(
    alloc: Global,
    names: &[Vec<u8>],
    places: &IndexSet<&[u8]>,
    text: &'t [u8],
) -> Result<(Vec<Pending>, &'t [u8]), StateErr>
    requires apart { AreNamesApart (map (λ z. z.items) names.now) }
    ensures is { IfOk result (λ p. IsPiece (flat_map (saved_pending (map (λ z. z.items) names.now)))
        (AllByRecursion (IsNotice (map (λ z. z.items) names.now))) IsNext text.entry.now p.0.items p.1.now) }
    ensures refused { IfErr result (IsStateRefusal
        (NoPiece (flat_map (saved_pending (map (λ z. z.items) names.now)))
        (AllByRecursion (IsNotice (map (λ z. z.items) names.now))) IsNext text.entry.now)) }
{
    let mut list = Vec::new(alloc);
    let mut rest = text;
    while begins_with(rest, b'p') {
        match read_notice(names, places, rest) {
            Some((notice, left)) => {
                put(&mut list, notice)?;
                rest = left;
            }
            None => return Err(StateErr::Bad),
        }
    }
    if is_next(rest) {
        return Ok((list, rest));
    }
    Err(StateErr::Bad)
}

/// Notifications, up to what may come after them. The place of each event is in a map that is made once.
pub(crate) fn read_notices<'t>(
    alloc: Global,
    names: &[Vec<u8>],
    text: &'t [u8],
) -> Result<(Vec<Pending>, &'t [u8]), StateErr>
    requires apart { AreNamesApart (map (λ z. z.items) names.now) }
    ensures is { IfOk result (λ p. IsPiece (flat_map (saved_pending (map (λ z. z.items) names.now)))
        (AllByRecursion (IsNotice (map (λ z. z.items) names.now))) IsNext text.entry.now p.0.items p.1.now) }
    ensures refused { IfErr result (IsStateRefusal
        (NoPiece (flat_map (saved_pending (map (λ z. z.items) names.now)))
        (AllByRecursion (IsNotice (map (λ z. z.items) names.now))) IsNext text.entry.now)) }
{
    let places = places_of(alloc, names)?;
    read_all(alloc, names, &places, text)
}
