//! The values of variables, elements and rates.

use std::marker::Model;

/// The values of the variables and of the elements of the arrays of a block, each in units of the last place of its
/// format, and the values of its rate variables; all in order of declaration.
#[derive(Drop)]
pub struct Cells {
    cells: Vec<i128>,
    rates: Vec<u32>,
}

impl Model for Cells {
    ghost use Rattle.tdf_expr_state.specs.State.{FrameState};

    ghost Value = { FrameState };

    ghost view = { λ a. record { cells = a.cells.items; rates = a.rates.items } };
}

ghost use Rattle.std.specs.Prelude.{◌≡◌, ◌<◌, length, slice_set, slice_index};
ghost use Rattle.tdf_expr_state.specs.State.{cell_at};

impl Cells {
    /// The values that a block starts with.
    pub fn new(cells: Vec<i128>, rates: Vec<u32>) -> Cells
        ensures cells { result.cells ≡ cells.items }
        ensures rates { result.rates ≡ rates.items }
    {
        Cells { cells, rates }
    }

    /// All values, in order of declaration.
    #[inline]
    pub fn cells(&self) -> &[i128]
        ensures { result.now ≡ self.now.cells }
    {
        &self.cells
    }

    /// The values of all rate variables, in order of declaration.
    #[inline]
    pub fn rates(&self) -> &[u32]
        ensures { result.now ≡ self.now.rates }
    {
        &self.rates
    }

    /// A value, in units of the last place of its format.
    #[inline]
    pub fn cell(&self, place: usize) -> i128
        requires { place < length self.now.cells }
        ensures { result ≡ cell_at self.now.cells place }
    {
        self.cells[place]
    }

    /// The value of a rate variable.
    #[inline]
    pub fn rate(&self, number: usize) -> u32
        requires { number < length self.now.rates }
        ensures { result ≡ slice_index self.now.rates number }
    {
        self.rates[number]
    }

    /// Sets a value, in units of the last place of its format.
    #[inline]
    pub fn set_cell(&mut self, place: usize, num: i128)
        requires { place < length self.old.cells }
        ensures { self.new ≡ record self.old { cells = slice_set self.old.cells place num } }
    {
        self.cells[place] = num;
    }

    /// Sets all values, in order of declaration.
    pub fn set_cells(&mut self, nums: &[i128])
        requires { length nums.now ≡ length self.old.cells }
        ensures { self.new ≡ record self.old { cells = nums.now } }
    {
        self.cells.copy_from_slice(nums);
    }

    /// Sets a rate variable.
    #[inline]
    pub fn set_rate(&mut self, number: usize, value: u32)
        requires { number < length self.old.rates }
        ensures { self.new ≡ record self.old { rates = slice_set self.old.rates number value } }
    {
        self.rates[number] = value;
    }
}
