//! The rows that open a text, read by their pieces.

ghost use Rattle.std.specs.Prelude.{map, ◌≡◌};
ghost use Rattle.tdf_lang_parser.specs.machine.Heads.{read_resolution, read_version, resolution_line, resolution_of, version_of};
ghost use Rattle.tdf_lang_parser.specs.views.RowViews.{rows_left};

use crate::rows::RowsLeft;
use tdf_base::{Resolution, Version};

fn version(piece: &[u8]) -> Option<Version>
    ensures { result ≡ version_of piece.now }
{
    if piece == b"1".as_slice() {
        return Some(Version::V1);
    }
    if piece == b"2".as_slice() {
        return Some(Version::V2);
    }
    if piece == b"3".as_slice() {
        return Some(Version::V3);
    }
    None
}

fn resolution(piece: &[u8]) -> Option<Resolution>
    ensures { result ≡ resolution_of piece.now }
{
    if piece == b"1ps".as_slice() {
        return Some(Resolution::Ps);
    }
    if piece == b"1fs".as_slice() {
        return Some(Resolution::Fs);
    }
    None
}

/// The version that a row says, if it is a `language` line.
pub(crate) fn read_version(pieces: &[&[u8]]) -> Option<Version>
    ensures { result ≡ read_version (map (λ p. p.now) pieces.now) }
{
    match pieces {
        [first, second] => {
            if *first == b"language".as_slice() {
                version(second)
            } else {
                None
            }
        }
        _ => None,
    }
}

/// The resolution that a row says, if it is a `resolution` line.
fn read_resolution(pieces: &[&[u8]]) -> Option<Resolution>
    ensures { result ≡ read_resolution (map (λ p. p.now) pieces.now) }
{
    match pieces {
        [first, second] => {
            if *first == b"resolution".as_slice() {
                resolution(second)
            } else {
                None
            }
        }
        _ => None,
    }
}

/// The resolution that the first of these rows says, where it is a `resolution` line and the version allows one.
pub(crate) fn resolution_line(version: Version, rows: &RowsLeft) -> Option<Resolution>
    ensures { result ≡ resolution_line version (rows_left rows.now) }
{
    if !version.has_resolution() {
        return None;
    }
    match rows.number {
        Some(_) => read_resolution(&rows.pieces),
        None => None,
    }
}
