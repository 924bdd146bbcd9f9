//! The edges of a cluster: the rates in force, and the samples that are held.

use std::marker::Model;
use tdf_places::Places;
use tdf_rings::Ring;

/// What a cluster has for each of its own edges, by their places: the rates in force, in samples an activation, and the samples that are held.
/// It is seen by the numbers of the model: an edge of another cluster has the rates 1, and holds nothing.
#[derive(Drop)]
pub struct Edges {
    pub places: Places,
    pub reads: Vec<u32>,
    pub writes: Vec<u32>,
    pub rings: Vec<Ring>,
}

impl Model for Edges {
    ghost use Rattle.std.specs.Prelude.{◌≡◌, [], length};
    ghost use Rattle.tdf_exec_firing.specs.Edges.{EdgesOf};
    ghost use Rattle.tdf_places.specs.Spread.{spread};
    ghost use Rattle.tdf_rings.specs.Rings.{ring_of};

    ghost Value = { EdgesOf };

    ghost view = { λ a. record {
      reads = spread 1 a.places a.reads.items;
      writes = spread 1 a.places a.writes.items;
      rings = spread (ring_of [] 0) a.places a.rings.items;
    } };

    ghost invariant = { λ a. record {
      reads_long : length a.reads.items ≡ length a.places.numbers;
      writes_long : length a.writes.items ≡ length a.places.numbers;
      rings_long : length a.rings.items ≡ length a.places.numbers;
    } };
}

ghost use Rattle.std.specs.Prelude.{◌≡◌, ◌<◌, ℕ, [], IfOk, OnErr, OnOk, length, map, slice_index};
ghost use Rattle.tdf_exec_firing.specs.Edges.{with_rings};
ghost use Rattle.tdf_places.specs.Spread.{spread};
ghost use Rattle.tdf_rings.specs.Carried.{AreCarried, FitIn, ring_at};
ghost use Rattle.tdf_rings.specs.Rings.{ring_of};

use std::alloc::Global;
use tdf_base::{Memory, row_number};
use tdf_places::Sparse;
use tdf_rings::carry;

/// The bounds of the edges with these numbers, in order. One of more than 32 bits is refused: such a ring has no memory.
///
/// # Errors
/// Out of memory.
fn own_bounds(alloc: Global, numbers: &[u32], bounds: &Sparse) -> Result<Vec<u32>, Memory>
    ensures { IfOk result (λ own. own.items ≡ map (slice_index bounds.now.items) numbers.now) }
{
    let mut own = Vec::with_capacity(alloc, numbers.len())?;
    for i in 0..numbers.len() {
        own.push(row_number(bounds.get_near(i, numbers[i] as usize) as usize)?)?;
    }
    Ok(own)
}

impl Edges {
    /// The edges of a cluster, out of what is its own, by place.
    pub fn of(places: Places, reads: Vec<u32>, writes: Vec<u32>, rings: Vec<Ring>) -> Edges
        requires reads { length reads.items ≡ length places.numbers }
        requires writes { length writes.items ≡ length places.numbers }
        requires rings { length rings.items ≡ length places.numbers }
        ensures { result ≡ record {
          reads = spread 1 places reads.items;
          writes = spread 1 places writes.items;
          rings = spread (ring_of [] 0) places rings.items;
        } }
    {
        Edges {
            places,
            reads,
            writes,
            rings,
        }
    }

    /// Gives each edge its bound as the capacity of its ring; all keep their samples. An edge that has no room has the bound 0.
    ///
    /// # Errors
    /// Out of memory; then nothing changes.
    pub fn carry(&mut self, alloc: Global, bounds: &Sparse) -> Result<(), Memory>
        requires fit { FitIn bounds.now.items self.old.rings }
        requires others { (e : ℕ) → e < length self.old.rings
            → (ring_at self.old.rings e).capacity ≡ 0 → slice_index bounds.now.items e ≡ 0 }
        ensures ok { OnOk result (AreCarried bounds.now.items self.old.rings self.new.rings) }
        ensures rest { OnOk result (self.new ≡ with_rings self.new.rings self.old) }
        ensures err { OnErr result (self.new ≡ self.old) }
    {
        self.places.law_apart();
        let own = own_bounds(alloc, self.places.numbers(), bounds)?;
        carry(alloc, &mut self.rings, &own)
    }
}
