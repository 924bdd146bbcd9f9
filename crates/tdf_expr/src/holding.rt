//! Whether numbers can be the cells of a block.

ghost use Rattle.std.specs.Prelude.{◌≡◌, ◌<◌, ◌↔◌, length, map, true};
ghost use Rattle.tdf_expr.specs.Made.{CellsFit, block_count};
ghost use Rattle.tdf_expr.specs.Plans.{shape_written};
ghost use Rattle.tdf_expr_semantics.specs.Fits.{NumbersFit};

use crate::checked::Checked;
use tdf_fixed::Format;

/// Whether there are as many numbers as formats, each in the range of its format.
fn are_held(formats: &[Format], nums: &[i128]) -> bool
    ensures { (result ≡ true) ↔ NumbersFit (map shape_written formats.now) nums.now }
{
    if nums.len() != formats.len() {
        return false;
    }
    for i in 0..nums.len() {
        if !formats[i].holds(nums[i]) {
            return false;
        }
    }
    true
}

impl Checked {
    /// Whether there are as many numbers as a block has variables and elements, each in the range of its format.
    pub fn holds(&self, number: u32, nums: &[i128]) -> bool
        requires { number < block_count self.now }
        ensures { (result ≡ true) ↔ CellsFit self.now number nums.now }
    {
        let block = &self.blocks[number as usize];
        are_held(&block.cells.formats, nums)
    }
}
