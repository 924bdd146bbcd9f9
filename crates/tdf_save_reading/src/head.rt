//! The head of a saved text, read exactly.

ghost use Rattle.std.specs.Prelude.{◌≡◌, IfSome, None};
ghost use Rattle.tdf_save.specs.machine.Pieces.{Any, AnyFlag};
ghost use Rattle.tdf_save_reading.specs.machine.Heads.{IsRunInRange, kind_text, run_text};
ghost use Rattle.tdf_save_reading.specs.machine.Pieces.{IsPiece, NoPiece};

use crate::numbers::{cut, last_count, spaced_count};

/// The time of a snapshot, the turns that were used, and the most turns.
#[derive(Clone, Copy, Drop)]
pub(crate) struct Run {
    pub(crate) time: u64,
    pub(crate) used: u64,
    pub(crate) budget: u64,
}

/// Whether the trace is a value change dump.
pub(crate) fn read_kind<'t>(text: &'t [u8]) -> Option<(bool, &'t [u8])>
    ensures is { IfSome result (λ p. IsPiece kind_text AnyFlag Any text.entry.now p.0 p.1.now) }
    ensures none { result ≡ None → NoPiece kind_text AnyFlag Any text.entry.now }
{
    if let Some(rest) = cut(text, b"saved 1\nkind vcd\n") {
        return Some((true, rest));
    }
    match cut(text, b"saved 1\nkind table\n") {
        Some(rest) => Some((false, rest)),
        None => None,
    }
}

/// The time and the turns.
pub(crate) fn read_run<'t>(text: &'t [u8]) -> Option<(Run, &'t [u8])>
    ensures is { IfSome result (λ p. IsPiece run_text IsRunInRange Any text.entry.now p.0 p.1.now) }
    ensures none { result ≡ None → NoPiece run_text IsRunInRange Any text.entry.now }
{
    let Some(words) = cut(text, b"run") else {
        return None;
    };
    let Some((time, after)) = spaced_count(words) else {
        return None;
    };
    let Some((used, last)) = spaced_count(after) else {
        return None;
    };
    match last_count(last) {
        Some((budget, rest)) => Some((Run { time, used, budget }, rest)),
        None => None,
    }
}
