//! The level and the offset of a firing.

use std::marker::Model;

/// The level and the offset of a firing.
#[derive(Clone, Copy, Debug, Default, PartialEq, Eq)]
pub struct Key {
    /// 1 more than the greatest level that it needs, 1 where it needs none.
    pub level: u32,
    /// The time after the start of the period at which it is done, in counts of the model's resolution.
    pub offset: u64,
}

/// The keys of an actor's first firings. One of them, as most actors have in a period, takes no memory of its own.
#[derive(Drop)]
pub(crate) struct Row {
    keys: SmallVec<Key, 1>,
}

impl Model for Row {
    ghost use Rattle.std.specs.Prelude.{List};
    ghost use Rattle.tdf_schedule.specs.declared.key.Key.{Key};

    ghost Value = { List Key };

    ghost view = { λ a. a.keys.items };
}

/// Numbers of edges, or of actors. Two of them, as most actors have at most, take no memory of their own.
#[derive(Drop)]
pub(crate) struct Links {
    list: SmallVec<u32, 2>,
}

impl Model for Links {
    ghost use Rattle.std.specs.Prelude.{List, ℕ};

    ghost Value = { List ℕ };

    ghost view = { λ a. a.list.items };
}

ghost use Rattle.std.specs.Prelude.{◌≡◌, ◌<◌, ◌++◌, ◌∷◌, [], Some, length, slice_get, OnOk};

use smallvec::SmallVec;
use std::alloc::Global;
use tdf_base::Memory;

impl Row {
    pub(crate) fn new(alloc: Global) -> Row
        ensures { result ≡ [] }
    {
        Row {
            keys: SmallVec::new(alloc),
        }
    }

    pub(crate) fn len(&self) -> usize
        ensures { result ≡ length self.now }
    {
        self.keys.len()
    }

    pub(crate) fn key(&self, index: usize) -> Key
        requires { index < length self.now }
        ensures { slice_get self.now index ≡ Some result }
    {
        self.keys.as_slice()[index]
    }

    pub(crate) fn push(&mut self, key: Key) -> Result<(), Memory>
        ensures { OnOk result (self.new ≡ self.old ++ key ∷ []) }
    {
        match self.keys.push(key) {
            Ok(()) => Ok(()),
            Err(_) => Err(Memory),
        }
    }
}

impl Links {
    pub(crate) fn new(alloc: Global) -> Links
        ensures { result ≡ [] }
    {
        Links {
            list: SmallVec::new(alloc),
        }
    }

    pub(crate) fn list(&self) -> &[u32]
        ensures { result.now ≡ self.now }
    {
        self.list.as_slice()
    }

    pub(crate) fn push(&mut self, number: u32) -> Result<(), Memory>
        ensures { OnOk result (self.new ≡ self.old ++ number ∷ []) }
    {
        match self.list.push(number) {
            Ok(()) => Ok(()),
            Err(_) => Err(Memory),
        }
    }
}
