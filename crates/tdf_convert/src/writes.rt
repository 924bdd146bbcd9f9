//! Values for signals of events.

use std::marker::Model;
use tdf_fixed::Raw;

/// A value for a signal of events.
#[derive(Clone, Copy, Debug, PartialEq, Eq)]
pub struct SignalWrite {
    /// The number of the signal among those of events.
    pub signal: u32,
    pub value: Raw,
}

/// Values for signals of events, in the order in which they came, with room for a stated number. Only [`Writes::new`]
/// takes memory.
#[derive(Drop)]
pub struct Writes {
    list: Vec<SignalWrite>,
    room: u32,
}

impl Model for Writes {
    ghost use Rattle.std.specs.Prelude.{◌≤◌};
    ghost use Rattle.std.specs.Vec.{vec_capacity};
    ghost use Rattle.tdf_convert.specs.Outputs.{WritesOf};

    ghost Value = { WritesOf };

    ghost view = { λ a. record { list = a.list.items; room = a.room } };

    ghost invariant = { λ a. a.room ≤ vec_capacity a.list };
}

ghost use Rattle.std.specs.Prelude.{◌≡◌, ◌<◌, ◌++◌, [], ◌∷◌, length, IfOk};

use std::alloc::Global;
use tdf_base::Memory;

impl Writes {
    /// An empty list, with room for this number of values.
    ///
    /// # Errors
    /// Out of memory.
    pub fn new(alloc: Global, room: u32) -> Result<Writes, Memory>
        ensures { IfOk result (λ writes. writes ≡ record { list = []; room = room }) }
    {
        let list = Vec::with_capacity(alloc, room as usize)?;
        Ok(Writes { list, room })
    }

    /// The values, in the order in which they came.
    pub fn list(&self) -> &[SignalWrite]
        ensures { result.now ≡ self.now.list }
    {
        &self.list
    }

    /// Empties the list, which keeps its room.
    pub fn clear(&mut self)
        ensures { self.new ≡ record self.old { list = [] } }
    {
        self.list.clear();
    }

    /// Appends a value.
    pub(crate) fn put(&mut self, item: SignalWrite)
        requires { length self.old.list < self.old.room }
        ensures { self.new ≡ record self.old { list = self.old.list ++ item ∷ [] } }
    {
        let _ = self.list.push(item);
    }
}
