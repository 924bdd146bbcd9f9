//! Std's readers and writers as sources and sinks.
ghost use Rattle.std.specs.Prelude.{◌≡◌, ℕ, [], None, ◌<◌, ◌≤◌, length, take, IfOk, OnOk, OnErr};
ghost use Rattle.std.specs.Io.{WritesAtMost};
ghost use Rattle.std.specs.Io.KnownBytes.{append_known, Keeps, WriteAppends};
ghost use Rattle.tdf_io.specs.Faults.{CountsFaults, CountsSinkFaults};
ghost use Rattle.tdf_io.specs.Device.{PassesOn};

use crate::gather::{GATHERED, Gathered};
use crate::{Failed, Sink, SinkErr, Source};
use std::io::{Read, Write};
use std::marker::Model;

/// A reader of std as a source. It tells its bytes where the reader does, counts an Err of the reader as a fault, and
/// counts no reads.
#[derive(Drop)]
pub struct StdSource<R: Read + Drop> {
    inner: R,
    faults: u64,
}

impl<R: Read + Drop> Model for StdSource<R> {
    ghost use Rattle.tdf_io.specs.Device.{ReaderSeen};

    ghost Value = { ReaderSeen };

    ghost view = { λ s. record { left = R.remaining s.inner; faults = s.faults } };
}

impl<R: Read + Drop> StdSource<R> {
    /// A source that gives what the reader gives. It takes no memory.
    pub fn new(inner: R) -> StdSource<R>
        ensures { result ≡ record { left = R.remaining inner; faults = 0 } }
    {
        StdSource { inner, faults: 0 }
    }
}

impl<R: Read + Drop> Source for StdSource<R> {
    ghost left = { λ s. s.left };

    ghost faults = { λ s. s.faults };

    ghost reads = { λ _. 0 };

    fn read(&mut self, buf: &mut [u8]) -> Result<usize, Failed> {
        match self.inner.read(buf) {
            Ok(count) => Ok(count),
            Err(_) => {
                self.faults = self.faults.saturating_add(1);
                Err(Failed)
            }
        }
    }
}

/// A writer of std as a sink. It gathers small pieces and hands the writer many at once, so all that it took is with the
/// writer only after a [`flush`](StdSink::flush). It tells its bytes where the writer does: what the writer holds, and
/// then what is on its way. An Err of the writer, and a write that takes nothing, count as a fault.
#[derive(Drop)]
pub struct StdSink<W: Write + Drop> {
    inner: W,
    faults: u64,
    gathered: Gathered,
}

impl<W: Write + Drop> Model for StdSink<W> {
    ghost use Rattle.tdf_io.specs.Device.{WriterSeen};
    ghost use Rattle.std.specs.Prelude.{slice_range};

    ghost Value = { WriterSeen };

    ghost view = { λ s. record { held = W.contents s.inner; waiting = slice_range s.gathered.bytes s.gathered.written s.gathered.end; faults = s.faults } };
}

impl<W: Write + Drop> StdSink<W> {
    /// A sink that writes to the writer. It takes no memory.
    pub fn new(inner: W) -> StdSink<W>
        ensures { result ≡ record { held = W.contents inner; waiting = []; faults = 0 } }
    {
        StdSink {
            inner,
            faults: 0,
            gathered: Gathered::new(),
        }
    }

    /// Hands all that is on its way to the writer: after an Ok it holds all that the sink took. After an Err what the writer
    /// has not taken is still on its way, and a later call goes on from there.
    pub fn flush(&mut self) -> Result<(), Failed>
        ensures all { OnOk result (self.new.waiting ≡ []) }
        ensures whole { OnOk result (Keeps (append_known self.old.held self.old.waiting) self.new.held) }
        ensures kept { Keeps (append_known self.old.held self.old.waiting) (append_known self.new.held self.new.waiting) }
        ensures order { PassesOn self.old self.new [] }
        ensures counted { CountsFaults self.old.faults self.new.faults result }
    {
        if self.gathered.write_to(&mut self.inner) {
            return Ok(());
        }
        self.faults = self.faults.saturating_add(1);
        Err(Failed)
    }
}

impl<W: Write + Drop> Sink for StdSink<W> {
    ghost taken = { λ s. append_known s.held s.waiting };

    ghost faults = { λ s. s.faults };

    fn write(&mut self, piece: &[u8]) -> Result<usize, SinkErr>
        requires { 0 < length piece.now }
        ensures some { IfOk result (λ n. 0 < n) }
        ensures bound { WritesAtMost result piece.now }
        ensures bytes { WriteAppends (append_known self.old.held self.old.waiting) (append_known self.new.held self.new.waiting) result piece.now }
        ensures counted { CountsSinkFaults self.old.faults self.new.faults result }

        ensures order { IfOk result (λ n. PassesOn self.old self.new (take n piece.now)) }
        ensures refused { OnErr result (PassesOn self.old self.new []) }
        ensures within { length self.new.waiting ≤ 8192 }
    {
        if self.gathered.end < GATHERED {
            return Ok(self.gathered.put(piece));
        }
        if self.gathered.write_to(&mut self.inner) {
            return Ok(self.gathered.put(piece));
        }
        self.faults = self.faults.saturating_add(1);
        Err(SinkErr::Failed)
    }
}
