//! Numbers below a bound, with a list of those that are in.

use std::marker::Model;

/// A set of numbers below a bound, with a list of its members. Only [`NumberSet::new`] takes memory.
#[derive(Drop)]
pub struct NumberSet {
    flags: Vec<bool>,
    list: Vec<u32>,
}

impl Model for NumberSet {
    ghost use Rattle.std.specs.Prelude.{length, ◌≤◌, ◌<◌, ◌^◌};
    ghost use Rattle.std.specs.Vec.{vec_capacity};
    ghost use Rattle.tdf_events_queue.specs.Sets.{AreListed, SetOf};

    ghost Value = { SetOf };

    ghost view = { λ a. record { flags = a.flags.items; members = a.list.items } };

    ghost invariant = { λ a. record {
      listed : AreListed a.flags.items a.list.items;
      room : length a.flags.items ≤ vec_capacity a.list;
      few : length a.flags.items < 2 ^ 32;
    } };
}

ghost use Rattle.std.specs.Prelude.{◌≡◌, ◌≤◌, ◌<◌, ◌+◌, ◌++◌, ◌∷◌, [], ℕ, IfOk, Some, false, true, length, nat_eq, replicate, slice_get, slice_set};
ghost use Rattle.std.specs.Vec.{vec_capacity, vec_len};
ghost use Rattle.tdf_events_queue.specs.Sets.{AreListed, AreRisingFlags, is_on, count_on};
ghost use Rattle.tdf_events_queue.specs.machine.Clearing.{AreOff};

use std::alloc::{AllocError, Global};

/// Appends where there is spare room: it takes no memory.
fn append(list: &mut Vec<u32>, n: u32)
    requires { vec_len list.old < vec_capacity list.old }
    ensures items { list.new.items ≡ list.old.items ++ n ∷ [] }
    ensures room { vec_capacity list.old ≤ vec_capacity list.new }
{
    let _ = list.push(n);
}

/// Whether a list is empty or ends with a lower number.
fn ends_below(list: &[u32], n: u32) -> bool
    ensures { result ≡ true → (j last : ℕ) → slice_get list.now j ≡ Some last
        → j + 1 ≡ length list.now → last < n }
{
    let len = list.len();
    len == 0 || list[len - 1] < n
}

/// Takes the listed numbers out.
fn switch_off(flags: &mut Vec<bool>, list: &Vec<u32>)
    requires { AreListed flags.old.items list.now.items }
    ensures { AreOff list.now.items (length list.now.items) flags.old.items flags.new.items }
{
    for i in 0..list.len() {
        flags[list[i] as usize] = false;
    }
}

impl NumberSet {
    /// The empty set of numbers below a bound.
    ///
    /// # Errors
    /// Out of memory.
    pub fn new(alloc: Global, bound: u32) -> Result<NumberSet, AllocError>
        ensures flags { IfOk result (λ set. set.flags ≡ replicate bound false) }
        ensures members { IfOk result (λ set. set.members ≡ []) }
    {
        let list = Vec::with_capacity(alloc, bound as usize)?;
        let flags = Vec::from_elem(alloc, false, bound as usize)?;
        Ok(NumberSet { flags, list })
    }

    /// Whether a number is in.
    pub fn contains(&self, n: u32) -> bool
        requires { n < length self.now.flags }
        ensures { result ≡ is_on self.now.flags n }
    {
        self.flags[n as usize]
    }

    /// How many members there are.
    pub fn len(&self) -> u32
        ensures members { result ≡ length self.now.members }
        ensures flags { result ≡ count_on self.now.flags }
    {
        self.list.len() as u32
    }

    /// The members: each number that is in, once.
    pub fn members(&self) -> &[u32]
        ensures value { result.now ≡ self.now.members }
        ensures listed { AreListed self.now.flags self.now.members }
    {
        &self.list
    }

    /// A number that is not in comes to the end of the list.
    fn put(&mut self, n: u32)
        requires inside { n < length self.old.flags }
        requires off { is_on self.old.flags n ≡ false }
        ensures flags { self.new.flags ≡ slice_set self.old.flags n true }
        ensures members { self.new.members ≡ self.old.members ++ n ∷ [] }
    {
        self.flags[n as usize] = true;
        append(&mut self.list, n);
    }

    /// Puts a number in.
    pub fn insert(&mut self, n: u32)
        requires { n < length self.old.flags }
        ensures { self.new.flags ≡ slice_set self.old.flags n true }
    {
        if !self.contains(n) {
            self.put(n);
        }
    }

    /// Puts a number in, where the members are in rising order, and stay so. One that is greater than all others comes to
    /// the end of the list, else the members are sorted.
    pub fn insert_rising(&mut self, n: u32)
        requires inside { n < length self.old.flags }
        requires rising { AreRisingFlags self.old.flags self.old.members }
        ensures flags { self.new.flags ≡ slice_set self.old.flags n true }
        ensures rising { AreRisingFlags self.new.flags self.new.members }
    {
        if self.contains(n) {
            return;
        }
        let is_last = ends_below(self.members(), n);
        self.put(n);
        if !is_last {
            self.sort();
        }
    }

    /// Brings the members into rising order.
    #[inline]
    pub fn sort(&mut self)
        ensures flags { self.new.flags ≡ self.old.flags }
        ensures rising { AreRisingFlags self.new.flags self.new.members }
    {
        if self.list.len() < 2 {
            return;
        }
        self.list.sort_unstable();
    }

    /// Takes all numbers out.
    pub fn clear(&mut self)
        ensures flags { self.new.flags ≡ replicate (length self.old.flags) false }
        ensures members { self.new.members ≡ [] }
    {
        switch_off(&mut self.flags, &self.list);
        self.list.clear();
    }
}
