//! The buffer before a writer: bytes that are on their way to it.
ghost use Rattle.std.specs.Prelude.{◌≡◌, [], ◌++◌, ◌<◌, ◌≤◌, length, take, slice_range, IsTrue};
ghost use Rattle.std.specs.Io.KnownBytes.{Appends};
ghost use Rattle.tdf_io.specs.Device.{HandsOver};

use std::io::Write;

/// How many bytes a buffer before a writer gathers.
pub(crate) const GATHERED: usize = 8192;

/// Bytes on their way to a writer: those from `written` to `end`.
#[derive(Drop)]
pub(crate) struct Gathered {
    bytes: [u8; GATHERED],
    pub(crate) written: usize,
    pub(crate) end: usize,
    ghost in_order: { written ≤ end },
    ghost within: { end ≤ 8192 },
}

impl Gathered {
    /// Nothing is on its way.
    pub(crate) fn new() -> Gathered
        ensures { slice_range result.bytes result.written result.end ≡ [] }
    {
        Gathered {
            bytes: [0; GATHERED],
            written: 0,
            end: 0,
        }
    }

    /// Takes the front of `piece`, as much as there is room for, and says how many bytes.
    pub(crate) fn put(&mut self, piece: &[u8]) -> usize
        requires room { self.old.end < 8192 }
        requires given { 0 < length piece.now }
        ensures some { 0 < result }
        ensures bound { result ≤ length piece.now }
        ensures gained { slice_range self.new.bytes self.new.written self.new.end ≡ slice_range self.old.bytes self.old.written self.old.end ++ take result piece.now }
    {
        let count = piece.len().min(GATHERED - self.end);
        self.bytes[self.end..self.end + count].copy_from_slice(&piece[..count]);
        self.end += count;
        count
    }

    /// Hands what is on its way to the writer, and says whether it took all. Else what it didn't take stays here.
    pub(crate) fn write_to<W: Write + Drop>(&mut self, writer: &mut W) -> bool
        ensures all { IsTrue result → slice_range self.new.bytes self.new.written self.new.end ≡ [] }
        ensures room { IsTrue result → self.new.end ≡ 0 }
        ensures handed { HandsOver (W.contents writer.old) (W.contents writer.new) (slice_range self.old.bytes self.old.written self.old.end) (slice_range self.new.bytes self.new.written self.new.end) }
    {
        self.written = write_on(writer, &self.bytes[..self.end], self.written);
        if self.written < self.end {
            return false;
        }
        self.written = 0;
        self.end = 0;
        true
    }
}

/// Hands the writer the bytes from place `from` on, and says up to which place it took them: the end, or the place
/// where a write failed or took nothing.
fn write_on<W: Write + Drop>(writer: &mut W, bytes: &[u8], from: usize) -> usize
    requires { from ≤ length bytes.now }
    ensures up { from ≤ result }
    ensures bound { result ≤ length bytes.now }
    ensures wrote { Appends (W.contents writer.old) (W.contents writer.new) (slice_range bytes.now from result) }
{
    let mut written = from;
    while written < bytes.len() {
        match writer.write(&bytes[written..]) {
            Ok(count) if count > 0 => written += count,
            _ => return written,
        }
    }
    written
}
