//! What a cluster holds by a state: the samples of its edges, and the values of its modules.

ghost use Rattle.std.specs.Prelude.{◌≡◌, ◌<◌, ◌≤◌, [], IfOk, length, map};
ghost use Rattle.tdf_cluster_net.specs.Numbers.{AllBelow};
ghost use Rattle.tdf_exec_parts.specs.Restored.{AreOwnStateRings, FitStateRings, samples_by};
ghost use Rattle.tdf_exec_parts.specs.machine.Restoring.{sample_of};
ghost use Rattle.tdf_expr.specs.Frames.{limits_of_rate};
ghost use Rattle.tdf_expr.specs.Made.{CellsFit, block_count, cell_formats, rate_spans_of};
ghost use Rattle.tdf_expr_semantics.specs.Fits.{RatesFit};
ghost use Rattle.tdf_rings.specs.Rings.{ring_of};

use crate::holding::port_format;
use std::alloc::Global;
use tdf_base::{Memory, row_number};
use tdf_bind_tables::FlatTables;
use tdf_expr::{Checked, Frame};
use tdf_fixed::{Format, Raw};
use tdf_places::Sparse;
use tdf_rings::Ring;

/// Puts numbers into an empty ring, as samples with so many fraction bits.
fn put_nums(ring: &mut Ring, frac: u32, nums: &[i128])
    requires empty { ring.old.samples ≡ [] }
    requires room { length nums.now ≤ ring.old.capacity }
    ensures { ring.new ≡ ring_of (map (sample_of frac) nums.now) ring.old.capacity }
{
    for i in 0..nums.len() {
        ring.put(Raw { num: nums[i], frac });
    }
}

/// A ring that holds numbers as samples of a format.
fn ring_with(
    alloc: Global,
    bound: u32,
    format: Option<Format>,
    nums: &[i128],
) -> Result<Ring, Memory>
    requires fits { length (samples_by format nums.now) ≤ bound }
    ensures { IfOk result (λ ring. ring ≡ ring_of (samples_by format nums.now) bound) }
{
    let mut ring = Ring::new(alloc, bound)?;
    match format {
        None => Ok(ring),
        Some(format) => {
            put_nums(&mut ring, format.wl - format.iwl, nums);
            Ok(ring)
        }
    }
}

/// The rings of the edges with these numbers, in order, with room for their bounds and the samples that a state says; no other edge is looked
/// at. A bound of more than 32 bits is refused: such a ring has no memory.
///
/// # Errors
/// Out of memory.
pub fn state_rings(
    alloc: Global,
    tables: &FlatTables,
    numbers: &[u32],
    bounds: &Sparse,
    edges: &[Vec<i128>],
) -> Result<Vec<Ring>, Memory>
    requires inside { AllBelow (length tables.now.edges) numbers.now }
    requires many { length edges.now ≡ length numbers.now }
    requires fits { FitStateRings tables.now bounds.now.items numbers.now
        (map (λ nums. nums.items) edges.now) }
    ensures { IfOk result (λ rings. AreOwnStateRings tables.now bounds.now.items numbers.now
        (map (λ nums. nums.items) edges.now) (length numbers.now) rings.items) }
{
    let mut rings = Vec::with_capacity(alloc, numbers.len())?;
    for i in 0..numbers.len() {
        let e = numbers[i] as usize;
        let bound = row_number(bounds.get_near(i, e) as usize)?;
        let format = port_format(tables, tables.edges[e].port);
        rings.push(ring_with(alloc, bound, format, &edges[i])?)?;
    }
    Ok(rings)
}

/// Sets all rate variables of an instance.
fn set_rates(frame: &mut Frame, count: u32, rates: &[u32])
    requires count { count ≡ length frame.old.rates }
    requires values { count ≡ length frame.old.state.rates }
    requires fit { RatesFit (map limits_of_rate frame.old.rates) rates.now }
    ensures { frame.new ≡ record frame.old {
      state = record frame.old.state { rates = rates.now };
    } }
{
    for i in 0..count {
        frame.set_rate(i, rates[i as usize]);
    }
}

/// Sets all rate variables and all values of an instance of a block.
pub fn set_values(checked: &Checked, block: u32, frame: &mut Frame, rates: &[u32], cells: &[i128])
    requires block { block < block_count checked.now }
    requires formats { frame.old.formats ≡ cell_formats checked.now block }
    requires spans { frame.old.rates ≡ rate_spans_of checked.now block }
    requires values { length frame.old.state.rates ≡ length frame.old.rates }
    requires rates { RatesFit (map limits_of_rate (rate_spans_of checked.now block)) rates.now }
    requires cells { CellsFit checked.now block cells.now }
    ensures { frame.new ≡ record frame.old {
      state = record { cells = cells.now; rates = rates.now };
    } }
{
    set_rates(frame, checked.rates(block), rates);
    frame.set_cells(cells);
}
