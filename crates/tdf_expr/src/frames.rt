//! The values of one instance of a block.

use crate::spans::RateSpan;
use std::marker::Model;
use tdf_expr_state::Cells;
use tdf_fixed::Format;

/// The values of the variables and elements of an instance of a block, and of its rate variables, each in order of
/// declaration. Each value is of its format, and each rate within its limits.
#[derive(Drop)]
pub struct Frame {
    formats: Vec<Format>,
    rates: Vec<RateSpan>,
    pub(crate) cells: Cells,
}

impl Model for Frame {
    ghost use Rattle.tdf_expr.specs.Frames.{FrameSeen, IsFrameFit};

    ghost Value = { FrameSeen };

    ghost view = { λ a. record {
      formats = a.formats.items;
      rates = a.rates.items;
      state = a.cells;
    } };

    ghost invariant = { λ a. IsFrameFit (record {
      formats = a.formats.items;
      rates = a.rates.items;
      state = a.cells;
    }) };
}

ghost use Rattle.std.specs.Prelude.{◌≡◌, ◌<◌, ◌≤◌, ◌^◌, map, length, slice_get, slice_set, slice_index, Some, IfOk};
ghost use Rattle.tdf_expr.specs.Checked.{IsChecked};
ghost use Rattle.tdf_expr.specs.Frames.{IsAllowedRate};
ghost use Rattle.tdf_expr.specs.Made.{block_count, cell_formats, rate_spans_of, start_cells, start_rates};
ghost use Rattle.tdf_expr.specs.Plans.{shape_written};
ghost use Rattle.tdf_expr_semantics.specs.Fits.{NumbersFit};
ghost use Rattle.tdf_expr.specs.declared.spans.RateSpan.{RateSpan as RateSpanOf};
ghost use Rattle.tdf_fixed.specs.Cast.{fraction_of};
ghost use Rattle.tdf_fixed.specs.Overflow.{IsOfWidth};
ghost use Rattle.tdf_fixed.specs.declared.format.Format.{Format as FormatOf};
ghost use Rattle.tdf_expr_state.specs.State.{cell_at};

use crate::checked::Checked;
use std::alloc::Global;
use tdf_base::Memory;
use tdf_fixed::Raw;

/// The starting values of rate variables.
#[tactic(auto, using(crate::proofs::Pushes::rate_start_laws))]
fn start_rates(alloc: Global, spans: &[RateSpan]) -> Result<Vec<u32>, Memory>
    ensures { IfOk result (λ rates. rates.items ≡ map (λ r. r.start) spans.now) }
{
    let mut rates = Vec::new(alloc);
    for span in spans {
        rates.push(span.start)?;
    }
    Ok(rates)
}

impl Frame {
    /// The declared starting values of the block of a number.
    ///
    /// # Errors
    /// Out of memory.
    pub fn new(alloc: Global, checked: &Checked, number: u32) -> Result<Frame, Memory>
        requires made { IsChecked checked.now }
        requires block { number < block_count checked.now }
        ensures formats { IfOk result (λ f. f.formats ≡ cell_formats checked.now number) }
        ensures rates { IfOk result (λ f. f.rates ≡ rate_spans_of checked.now number) }
        ensures start_cells { IfOk result (λ f. f.state.cells ≡ start_cells checked.now number) }
        ensures start_rates { IfOk result (λ f. f.state.rates ≡ start_rates checked.now number) }
    {
        let block = &checked.blocks[number as usize];
        let formats = Vec::from_slice(alloc, &block.cells.formats)?;
        let rates = Vec::from_slice(alloc, &block.rates)?;
        let starts = Vec::from_slice(alloc, &block.cells.starts)?;
        let start_rates = start_rates(alloc, &block.rates)?;
        Ok(Frame {
            formats,
            rates,
            cells: Cells::new(starts, start_rates),
        })
    }

    /// How many variables and elements there are.
    pub fn cells(&self) -> u32
        ensures { result ≡ length self.now.formats }
    {
        self.formats.len() as u32
    }

    /// All variables and elements, in order of declaration, each in units of the last place of its format.
    pub fn nums(&self) -> &[i128]
        ensures { result.now ≡ self.now.state.cells }
    {
        self.cells.cells()
    }

    /// The value of a variable or element.
    pub fn cell(&self, i: u32) -> Raw
        requires { i < length self.now.formats }
        ensures num { result.num ≡ cell_at self.now.state.cells i }
        ensures frac { (f : FormatOf) → slice_get self.now.formats i ≡ Some f
            → result.frac ≡ fraction_of f }
    {
        let format = self.formats[i as usize];
        Raw {
            num: self.cells.cell(i as usize),
            frac: format.wl - format.iwl,
        }
    }

    /// Sets a variable or element, in units of the last place of its format.
    pub fn set_cell(&mut self, i: u32, num: i128)
        requires cell { i < length self.old.formats }
        requires range { (f : FormatOf) → slice_get self.old.formats i ≡ Some f
            → IsOfWidth f.signed f.wl num }
        ensures { self.new ≡ record self.old {
          state = record self.old.state { cells = slice_set self.old.state.cells i num };
        } }
    {
        self.cells.set_cell(i as usize, num);
    }

    /// Sets all variables and elements.
    pub fn set_cells(&mut self, nums: &[i128])
        requires { NumbersFit (map shape_written self.old.formats) nums.now }
        ensures { self.new ≡ record self.old {
          state = record self.old.state { cells = nums.now };
        } }
    {
        self.cells.set_cells(nums);
    }

    /// The value of a rate variable.
    pub fn rate(&self, i: u32) -> u32
        requires { i < length self.now.rates }
        ensures { result ≡ slice_index self.now.state.rates i }
    {
        self.cells.rate(i as usize)
    }

    /// Sets a rate variable.
    pub fn set_rate(&mut self, i: u32, value: u32)
        requires rate { i < length self.old.rates }
        requires limits { (r : RateSpanOf) → slice_get self.old.rates i ≡ Some r
            → IsAllowedRate r value }
        ensures { self.new ≡ record self.old {
          state = record self.old.state { rates = slice_set self.old.state.rates i value };
        } }
    {
        self.cells.set_rate(i as usize, value);
    }
}
