//! Lists of numbers most of which are 0.

use std::marker::Model;

/// A number that is not 0, and its place in the list.
#[derive(Clone, Copy)]
struct Kept {
    place: u32,
    value: u64,
}

/// A list of numbers that keeps those alone which are not 0, each with its place: what a cluster has in a list that is as long as the model
/// takes the memory of its own things.
#[derive(Drop)]
pub struct Sparse {
    length: usize,
    kept: Vec<Kept>,
}

impl Model for Sparse {
    ghost use Rattle.std.specs.Prelude.{map};
    ghost use Rattle.tdf_places.specs.Sparse.{SparseOf};
    ghost use Rattle.tdf_places.specs.views.Kept.{AreKept, whole_list};

    ghost Value = { SparseOf };

    ghost view = { λ a. record { items = whole_list a.length a.kept.items } };

    ghost invariant = { λ a. record { kept : AreKept a.length a.kept.items } };
}

ghost use Rattle.std.specs.Prelude.{◌≡◌, ◌≢◌, ◌<◌, ◌++◌, ◌∷◌, [], IfOk, IfSome, None, OnErr, OnOk, length, map, slice_index};
ghost use Rattle.tdf_places.specs.Places.{AllBelow, Rise};
ghost use Rattle.tdf_places.specs.Sparse.{set_below};
ghost use Rattle.tdf_places.specs.Spread.{spread_by};
ghost use Rattle.tdf_places.specs.views.Kept.{IsKeptAt, moved_by, places_of};

use std::alloc::Global;
use tdf_base::{Memory, row_number};

/// The value at a place among those that are kept, if it is the one at `near`.
fn value_if(kept: &[Kept], near: usize, place: usize) -> Option<u64>
    ensures found { IfSome result (λ value. IsKeptAt kept.now near place value) }
    ensures other { result ≡ None → near < length kept.now
        → slice_index (places_of kept.now) near ≢ place }
{
    if near >= kept.len() {
        return None;
    }
    let found = kept[near];
    if found.place as usize == place {
        return Some(found.value);
    }
    None
}

/// What is kept, at the place that the list has for its own.
fn moved(places: &[u32], own: Kept) -> Kept
    ensures { result ≡ moved_by places.now own }
{
    let place = own.place as usize;
    Kept {
        place: if place < places.len() {
            places[place]
        } else {
            0
        },
        value: own.value,
    }
}

/// All that is kept, at the places that the list has for theirs.
fn move_all(places: &[u32], kept: &mut Vec<Kept>)
    ensures { kept.new.items ≡ map (moved_by places.now) kept.old.items }
{
    for i in 0..kept.len() {
        kept[i] = moved(places, kept[i]);
    }
}

impl Sparse {
    /// No number yet, with room for so many that are not 0.
    ///
    /// # Errors
    /// Out of memory.
    pub fn with_capacity(alloc: Global, count: usize) -> Result<Sparse, Memory>
        ensures { IfOk result (λ list. list.items ≡ []) }
    {
        Ok(Sparse {
            length: 0,
            kept: Vec::with_capacity(alloc, count)?,
        })
    }

    /// The same numbers.
    ///
    /// # Errors
    /// Out of memory.
    pub fn of(alloc: Global, values: &[u64]) -> Result<Sparse, Memory>
        ensures { IfOk result (λ list. list.items ≡ values.now) }
    {
        let mut list = Sparse::with_capacity(alloc, values.len())?;
        for i in 0..values.len() {
            list.push(values[i])?;
        }
        Ok(list)
    }

    /// How many numbers there are.
    pub fn len(&self) -> usize
        ensures { result ≡ length self.now.items }
    {
        self.length
    }

    /// One number more.
    ///
    /// # Errors
    /// Out of memory; the list is then as it was.
    pub fn push(&mut self, value: u64) -> Result<(), Memory>
        ensures ok { OnOk result (self.new.items ≡ self.old.items ++ value ∷ []) }
        ensures err { OnErr result (self.new ≡ self.old) }
    {
        let place = row_number(self.length)?;
        if value != 0 {
            self.kept.push(Kept { place, value })?;
        }
        self.length += 1;
        Ok(())
    }

    /// The number at a place, 0 where there is none.
    pub fn get(&self, place: usize) -> u64
        ensures { result ≡ slice_index self.now.items place }
    {
        let near = self
            .kept
            .partition_point(|kept| (kept.place as usize) < place);
        match value_if(&self.kept, near, place) {
            Some(value) => value,
            None => 0,
        }
    }

    /// The same, where it is likely that so many numbers before it are not 0: then it is found at once.
    pub fn get_near(&self, near: usize, place: usize) -> u64
        ensures { result ≡ slice_index self.now.items place }
    {
        match value_if(&self.kept, near, place) {
            Some(value) => value,
            None => self.get(place),
        }
    }

    /// The places below `count` of the numbers that are not 0, in order.
    ///
    /// # Errors
    /// Out of memory.
    pub fn places_below(&self, alloc: Global, count: usize) -> Result<Vec<u32>, Memory>
        ensures { IfOk result (λ places. places.items ≡ set_below count self.now.items) }
    {
        let below = self
            .kept
            .partition_point(|kept| (kept.place as usize) < count);
        let mut places = Vec::with_capacity(alloc, below)?;
        for i in 0..below {
            places.push(self.kept[i].place)?;
        }
        Ok(places)
    }

    /// The numbers at these places.
    ///
    /// # Errors
    /// Out of memory.
    pub fn gather(&self, alloc: Global, places: &[u32]) -> Result<Vec<u64>, Memory>
        ensures { IfOk result (λ own. own.items ≡ map (slice_index self.now.items) places.now) }
    {
        let mut own = Vec::with_capacity(alloc, places.len())?;
        for i in 0..places.len() {
            own.push(self.get_near(i, places[i] as usize))?;
        }
        Ok(own)
    }

    /// The list of the numbers at these places.
    ///
    /// # Errors
    /// Out of memory.
    pub fn picked(&self, alloc: Global, places: &[u32]) -> Result<Sparse, Memory>
        ensures { IfOk result (λ own. own.items ≡ map (slice_index self.now.items) places.now) }
    {
        let mut own = Sparse::with_capacity(alloc, places.len())?;
        for i in 0..places.len() {
            own.push(self.get_near(i, places[i] as usize))?;
        }
        Ok(own)
    }

    /// A list of `count` numbers: these ones at the places that `places` has for them, and 0 elsewhere. It takes no memory.
    pub fn spread(self, places: &[u32], count: usize) -> Sparse
        requires long { length self.items ≡ length places.now }
        requires within { AllBelow count places.now }
        requires rising { Rise places.now }
        ensures { result.items ≡ spread_by count 0 places.now self.items }
    {
        let mut kept = self.kept;
        move_all(places, &mut kept);
        Sparse {
            length: count,
            kept,
        }
    }

    /// The same list.
    ///
    /// # Errors
    /// Out of memory.
    pub fn copy(&self, alloc: Global) -> Result<Sparse, Memory>
        ensures { IfOk result (λ list. list ≡ self.now) }
    {
        let kept = Vec::from_slice(alloc, &self.kept)?;
        Ok(Sparse {
            length: self.length,
            kept,
        })
    }
}
