//! What sinks and traced signals got.

use std::marker::Model;
use tdf_fixed::Raw;

/// A sample that a sink took.
#[derive(Clone, Copy, Debug, PartialEq, Eq)]
pub struct Sent {
    /// The number of the sink among the actors.
    pub actor: u32,
    pub value: Raw,
}

/// A sample of a traced signal.
#[derive(Clone, Copy, Debug, PartialEq, Eq)]
pub struct Traced {
    /// The number of the signal.
    pub signal: u32,
    pub value: Raw,
}

/// The samples that sinks took, and those of traced signals, each in the order in which they came, with room for
/// stated numbers of them. Only [`Outputs::new`] takes memory.
#[derive(Drop)]
pub struct Outputs {
    sent: Vec<Sent>,
    traced: Vec<Traced>,
    sent_room: u32,
    traced_room: u32,
}

impl Model for Outputs {
    ghost use Rattle.std.specs.Prelude.{◌≤◌, length};
    ghost use Rattle.std.specs.Vec.{vec_capacity};
    ghost use Rattle.tdf_convert.specs.Outputs.{OutputsOf};

    ghost Value = { OutputsOf };

    ghost view = { λ a. record {
      sent = a.sent.items;
      traced = a.traced.items;
      sent_room = a.sent_room;
      traced_room = a.traced_room;
    } };

    ghost invariant = { λ a. record {
      sent : a.sent_room ≤ vec_capacity a.sent;
      traced : a.traced_room ≤ vec_capacity a.traced;
    } };
}

ghost use Rattle.std.specs.Prelude.{◌≡◌, ◌<◌, ◌++◌, [], ◌∷◌, length, IfOk};

use std::alloc::Global;
use tdf_base::Memory;

impl Outputs {
    /// Two empty lists, with room for `writes` samples of sinks and `cells` samples of traced signals.
    ///
    /// # Errors
    /// Out of memory.
    pub fn new(alloc: Global, writes: u32, cells: u32) -> Result<Outputs, Memory>
        ensures { IfOk result (λ outputs. outputs ≡ record {
          sent = [];
          traced = [];
          sent_room = writes;
          traced_room = cells;
        }) }
    {
        let sent = Vec::with_capacity(alloc, writes as usize)?;
        let traced = Vec::with_capacity(alloc, cells as usize)?;
        Ok(Outputs {
            sent,
            traced,
            sent_room: writes,
            traced_room: cells,
        })
    }

    /// Appends a sample of a sink.
    pub fn put_sent(&mut self, item: Sent)
        requires { length self.old.sent < self.old.sent_room }
        ensures { self.new ≡ record self.old { sent = self.old.sent ++ item ∷ [] } }
    {
        let _ = self.sent.push(item);
    }

    /// Appends a sample of a traced signal.
    pub fn put_traced(&mut self, item: Traced)
        requires { length self.old.traced < self.old.traced_room }
        ensures { self.new ≡ record self.old { traced = self.old.traced ++ item ∷ [] } }
    {
        let _ = self.traced.push(item);
    }

    /// The samples of traced signals, in the order in which they came.
    pub fn traced(&self) -> &[Traced]
        ensures { result.now ≡ self.now.traced }
    {
        &self.traced
    }

    /// Empties the list of traced samples, which keeps its room.
    pub fn clear_traced(&mut self)
        ensures { self.new ≡ record self.old { traced = [] } }
    {
        self.traced.clear();
    }

    /// The samples of sinks, in the order in which they came.
    pub(crate) fn sent(&self) -> &[Sent]
        ensures { result.now ≡ self.now.sent }
    {
        &self.sent
    }

    /// Empties the list of samples of sinks, which keeps its room.
    pub(crate) fn clear_sent(&mut self)
        ensures { self.new ≡ record self.old { sent = [] } }
    {
        self.sent.clear();
    }
}
