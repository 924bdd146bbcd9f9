//! A ring and its calls.

ghost use Rattle.std.specs.Prelude.{◌≡◌, ◌≤◌, ◌<◌, ◌++◌, [], ◌∷◌, length, drop, slice_get, IfOk, Some};
ghost use Rattle.tdf_rings.specs.Rings.{ring_of};
ghost use Rattle.tdf_rings.specs.views.Held.{ring_in};

use circular_buffer::HeapCircularBuffer;
use std::alloc::Global;
use std::marker::Model;
use tdf_base::Memory;
use tdf_fixed::Raw;

/// The samples that an edge holds, in order, and how many it may hold. Only [`Ring::new`] takes memory, and none for capacity 0.
#[derive(Drop)]
pub struct Ring {
    /// None where the capacity is 0.
    buffer: Option<HeapCircularBuffer<Raw>>,
}

impl Model for Ring {
    ghost use Rattle.std.specs.Prelude.{◌<◌, ◌^◌};
    ghost use Rattle.tdf_rings.specs.Rings.{RingOf};
    ghost use Rattle.tdf_rings.specs.views.Held.{ring_in};

    ghost Value = { RingOf };

    ghost view = { λ a. ring_in a.buffer };

    ghost invariant = { λ a. record { few : (ring_in a.buffer).capacity < 2 ^ 32 } };
}

/// An empty buffer of a capacity; none for 0.
fn buffer_of(alloc: Global, capacity: u32) -> Result<Option<HeapCircularBuffer<Raw>>, Memory>
    ensures { IfOk result (λ buffer. ring_in buffer ≡ ring_of [] capacity) }
{
    if capacity == 0 {
        return Ok(None);
    }
    Ok(Some(HeapCircularBuffer::with_capacity(alloc, capacity as usize)?))
}

impl Ring {
    /// An empty ring.
    ///
    /// # Errors
    /// Out of memory.
    pub fn new(alloc: Global, capacity: u32) -> Result<Ring, Memory>
        ensures { IfOk result (λ ring. ring ≡ ring_of [] capacity) }
    {
        let buffer = buffer_of(alloc, capacity)?;
        Ok(Ring { buffer })
    }

    /// How many samples it holds.
    pub fn len(&self) -> u32
        ensures { result ≡ length self.now.samples }
    {
        match &self.buffer {
            Some(buffer) => buffer.len() as u32,
            None => 0,
        }
    }

    /// How many samples it may hold.
    pub fn capacity(&self) -> u32
        ensures { result ≡ self.now.capacity }
    {
        match &self.buffer {
            Some(buffer) => buffer.capacity() as u32,
            None => 0,
        }
    }

    /// Sample `i` from the front.
    pub fn read(&self, i: u32) -> Raw
        requires { i < length self.now.samples }
        ensures { slice_get self.now.samples i ≡ Some result }
    {
        match &self.buffer {
            Some(buffer) => match buffer.get(i as usize) {
                Some(value) => *value,
                None => unreachable!(),
            },
            None => unreachable!(),
        }
    }

    /// Takes the first sample out.
    pub fn pop(&mut self) -> Raw
        requires { 0 < length self.old.samples }
        ensures value { slice_get self.old.samples 0 ≡ Some result }
        ensures rest { self.new ≡ ring_of (drop 1 self.old.samples) self.old.capacity }
    {
        match &mut self.buffer {
            Some(buffer) => match buffer.pop_front() {
                Some(value) => value,
                None => unreachable!(),
            },
            None => unreachable!(),
        }
    }

    /// Drops the first `n` samples.
    pub fn take(&mut self, n: u32)
        requires { n ≤ length self.old.samples }
        ensures { self.new ≡ ring_of (drop n self.old.samples) self.old.capacity }
    {
        if let Some(buffer) = &mut self.buffer {
            let left = buffer.len() - n as usize;
            buffer.truncate_front(left);
        }
    }

    /// Appends a sample.
    pub fn put(&mut self, value: Raw)
        requires { length self.old.samples < self.old.capacity }
        ensures { self.new ≡ ring_of (self.old.samples ++ value ∷ []) self.old.capacity }
    {
        match &mut self.buffer {
            Some(buffer) => match buffer.try_push_back(value) {
                Ok(()) => {}
                Err(_) => unreachable!(),
            },
            None => unreachable!(),
        }
    }
}
