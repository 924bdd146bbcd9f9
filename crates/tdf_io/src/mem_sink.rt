ghost use Rattle.std.specs.Prelude.{◌≡◌, ℕ, ◌<◌, ◌↔◌, Some, [], length, min, Contains, IfOk, IsErrOf};
ghost use Rattle.std.specs.Io.{WritesAtMost};
ghost use Rattle.std.specs.Io.KnownBytes.{WriteAppends};
ghost use Rattle.tdf_io.specs.Faults.{CountsSinkFaults, FaultsRose, next_count};

use crate::{Sink, SinkErr};
use std::alloc::Global;
use std::marker::Model;

/// A sink in memory whose calls are numbered from 0 to 2^64 - 1 (later calls keep that number). A call whose number
/// is in `fails` answers `Failed`; every other one takes at most `most` bytes.
#[derive(Drop)]
pub struct MemSink {
    taken: Vec<u8>,
    calls: u64,
    fails: Vec<u64>,
    most: usize,
    faults: u64,
}

impl Model for MemSink {
    ghost use Rattle.std.specs.Prelude.{◌<◌};
    ghost use Rattle.tdf_io.specs.Device.{SinkSeen};

    ghost Value = { SinkSeen };

    ghost view = { λ s. record { taken = s.taken.items; calls = s.calls; fails = s.fails.items; most = s.most; faults = s.faults } };

    ghost invariant = { λ s. 0 < s.most };
}

impl MemSink {
    /// A sink that has taken nothing, before its first call. It takes no memory.
    pub fn new(alloc: Global, fails: Vec<u64>, most: usize) -> MemSink
        requires { 0 < most }
        ensures { result ≡ record { taken = []; calls = 0; fails = fails.items; most = most; faults = 0 } }
    {
        MemSink {
            taken: Vec::new(alloc),
            calls: 0,
            fails,
            most,
            faults: 0,
        }
    }

    /// The bytes that it took.
    pub fn bytes(&self) -> &[u8]
        ensures { result.now ≡ self.now.taken }
    {
        self.taken.as_slice()
    }
}

impl Sink for MemSink {
    ghost taken = { λ s. Some s.taken };

    ghost faults = { λ s. s.faults };

    fn write(&mut self, piece: &[u8]) -> Result<usize, SinkErr>
        requires { 0 < length piece.now }
        ensures some { IfOk result (λ n. 0 < n) }
        ensures bound { WritesAtMost result piece.now }
        ensures bytes { WriteAppends (Some self.old.taken) (Some self.new.taken) result piece.now }
        ensures counted { CountsSinkFaults self.old.faults self.new.faults result }

        ensures fails { IsErrOf result SinkErr.Failed ↔ Contains self.old.fails self.old.calls }
        ensures rises { Contains self.old.fails self.old.calls → FaultsRose self.old.faults self.new.faults }
        ensures stays { ¬ Contains self.old.fails self.old.calls → self.new.faults ≡ self.old.faults }
        ensures moves { IfOk result (λ n. n ≡ min self.old.most (length piece.now)) }
        ensures number { self.new.calls ≡ next_count self.old.calls }
        ensures same { (self.new.fails ≡ self.old.fails) × (self.new.most ≡ self.old.most) }
    {
        let number = self.calls;
        self.calls = self.calls.saturating_add(1);
        if self.fails.contains(&number) {
            self.faults = self.faults.saturating_add(1);
            return Err(SinkErr::Failed);
        }
        let count = self.most.min(piece.len());
        self.taken.extend_from_slice(&piece[..count])?;
        Ok(count)
    }
}
