ghost use Rattle.std.specs.Prelude.{◌≡◌, ℕ, ◌+◌, ◌<◌, ◌≤◌, ◌↔◌, Some, length, min, Contains, IfOk, IsErr};
ghost use Rattle.std.specs.Io.{ReadsAtMost};
ghost use Rattle.std.specs.Io.KnownBytes.{ReadConsumes};
ghost use Rattle.tdf_io.specs.Faults.{CountsFaults, FaultsRose, next_count};

use crate::moves::fill;
use crate::{Failed, Source};
use std::marker::Model;

/// Bytes in memory, as a source whose calls are numbered from 0 to 2^64 - 1 (later calls keep that number). A call whose
/// number is in `fails` answers `Failed`; every other one gives at most `most` bytes.
#[derive(Drop)]
pub struct MemSource {
    bytes: Vec<u8>,
    read: usize,
    calls: u64,
    fails: Vec<u64>,
    most: usize,
    faults: u64,
}

impl Model for MemSource {
    ghost use Rattle.std.specs.Prelude.{drop, length, ◌≤◌, ◌<◌};
    ghost use Rattle.tdf_io.specs.Device.{SourceSeen};

    ghost Value = { SourceSeen };

    ghost view = { λ s. record { left = drop s.read s.bytes.items; calls = s.calls; fails = s.fails.items; most = s.most; faults = s.faults } };

    ghost invariant = { λ s. record { within : s.read ≤ length s.bytes.items; some : 0 < s.most } };
}

impl MemSource {
    /// A source of just these bytes, before its first call. It takes no memory.
    pub fn new(bytes: Vec<u8>, fails: Vec<u64>, most: usize) -> MemSource
        requires { 0 < most }
        ensures { result ≡ record { left = bytes.items; calls = 0; fails = fails.items; most = most; faults = 0 } }
    {
        MemSource {
            bytes,
            read: 0,
            calls: 0,
            fails,
            most,
            faults: 0,
        }
    }
}

impl Source for MemSource {
    ghost left = { λ s. Some s.left };

    ghost faults = { λ s. s.faults };

    ghost reads = { λ s. s.calls };

    #[tactic(auto, using(crate::proofs::Gives::moves))]
    fn read(&mut self, buf: &mut [u8]) -> Result<usize, Failed>
        requires { 0 < length buf.old }
        ensures bound { ReadsAtMost result buf.new }
        ensures bytes { ReadConsumes (Some self.old.left) (Some self.new.left) result buf.new }
        ensures counted { CountsFaults self.old.faults self.new.faults result }
        ensures counts { self.old.calls ≤ self.new.calls }
        ensures one_read { self.new.calls ≤ self.old.calls + 1 }

        ensures fails { IsErr result ↔ Contains self.old.fails self.old.calls }
        ensures rises { Contains self.old.fails self.old.calls → FaultsRose self.old.faults self.new.faults }
        ensures stays { ¬ Contains self.old.fails self.old.calls → self.new.faults ≡ self.old.faults }
        ensures moves { IfOk result (λ n. n ≡ min (min self.old.most (length buf.old)) (length self.old.left)) }
        ensures number { self.new.calls ≡ next_count self.old.calls }
        ensures same { (self.new.fails ≡ self.old.fails) × (self.new.most ≡ self.old.most) }
    {
        let number = self.calls;
        self.calls = self.calls.saturating_add(1);
        if self.fails.contains(&number) {
            self.faults = self.faults.saturating_add(1);
            return Err(Failed);
        }
        let count = fill(buf, &self.bytes[self.read..], self.most);
        self.read += count;
        Ok(count)
    }
}
