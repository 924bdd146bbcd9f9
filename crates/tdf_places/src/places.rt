//! The places of some things of a model.

use std::marker::Model;
use std::rc::Rc;

/// The places of some of the things of a model: their numbers by place, and the place of each number.
#[derive(Drop)]
pub struct Places {
    numbers: Vec<u32>,
    /// By number, the place of each of these things; at other numbers anything. Those that have things of one model may share it.
    by_number: Rc<Vec<u32>>,
}

impl Model for Places {
    ghost use Rattle.std.specs.Prelude.{length};
    ghost use Rattle.tdf_places.specs.Places.{PlacesOf};
    ghost use Rattle.tdf_places.specs.views.Mapped.{AreMapped};

    ghost Value = { PlacesOf };

    ghost view = { λ a. record {
      numbers = a.numbers.items;
      count = length a.by_number.value.items;
    } };

    ghost invariant = { λ a. record {
      mapped : AreMapped a.numbers.items a.by_number.value.items;
    } };
}

ghost use Rattle.std.specs.Prelude.{◌≡◌, IfOk, IfSome, None, Some, length, slice_get, true};
ghost use Rattle.tdf_places.specs.Places.{AreDistinct, IsAmong, IsNowhere, StandApart};
ghost use Rattle.tdf_places.specs.views.Mapped.{AreMapped};

use std::alloc::Global;
use tdf_base::{Memory, row_number};

/// Whether a map has the places of these numbers.
fn has_places(numbers: &[u32], by_number: &[u32]) -> bool
    requires { AreDistinct (length by_number.now) numbers.now }
    ensures { result ≡ true → AreMapped numbers.now by_number.now }
{
    for i in 0..numbers.len() {
        if by_number[numbers[i] as usize] as usize != i {
            return false;
        }
    }
    true
}

/// A map of so many numbers that has the places of these.
///
/// # Errors
/// Out of memory.
fn places_of(alloc: Global, numbers: &[u32], count: usize) -> Result<Vec<u32>, Memory>
    requires { AreDistinct count numbers.now }
    ensures long { IfOk result (λ map. length map.items ≡ count) }
    ensures mapped { IfOk result (λ map. AreMapped numbers.now map.items) }
{
    let mut by_number: Vec<u32> = vec![in alloc; 0; count]?;
    for i in 0..numbers.len() {
        by_number[numbers[i] as usize] = row_number(i)?;
    }
    Ok(by_number)
}

impl Places {
    /// The places of these numbers of things of a model that has `count` of them. `shared` may have a place for each thing: where these
    /// are not those of the numbers, a map of their own is made.
    ///
    /// # Errors
    /// Out of memory.
    pub fn of(
        alloc: Global,
        numbers: &[u32],
        count: usize,
        shared: &Rc<Vec<u32>>,
    ) -> Result<Places, Memory>
        requires { AreDistinct count numbers.now }
        ensures { IfOk result (λ places. places
            ≡ record { numbers = numbers.now; count = count }) }
    {
        let list = Vec::from_slice(alloc, numbers)?;
        if shared.len() == count && has_places(numbers, shared.as_slice()) {
            return Ok(Places {
                numbers: list,
                by_number: shared.clone()?,
            });
        }
        let by_number = places_of(alloc, numbers, count)?;
        Ok(Places {
            numbers: list,
            by_number: Rc::new(alloc, by_number)?,
        })
    }

    /// The numbers, by place.
    pub fn numbers(&self) -> &[u32]
        ensures { result.now ≡ self.now.numbers }
    {
        &self.numbers
    }

    /// How many things the model has.
    pub fn count(&self) -> usize
        ensures { result ≡ self.now.count }
    {
        self.by_number.len()
    }

    /// The place of a number; none where it is of another thing.
    pub fn place(&self, number: u32) -> Option<usize>
        ensures found { IfSome result (λ place. slice_get self.now.numbers place ≡ Some number) }
        ensures none { result ≡ None → IsNowhere self.now number }
    {
        let by_number = self.by_number.as_slice();
        if number as usize >= by_number.len() {
            return None;
        }
        let place = by_number[number as usize] as usize;
        if place < self.numbers.len() && self.numbers[place] == number {
            return Some(place);
        }
        None
    }

    /// The place of a number of one of the things.
    pub fn at(&self, number: u32) -> usize
        requires { IsAmong self.now.numbers number }
        ensures { slice_get self.now.numbers result ≡ Some number }
    {
        let by_number = self.by_number.as_slice();
        by_number[number as usize] as usize
    }

    /// The numbers are those of different things of the model. It does nothing: a caller calls it where a proof needs this.
    pub fn law_apart(&self)
        ensures { StandApart self.now }
    {
        let _ = &self.numbers;
    }
}
