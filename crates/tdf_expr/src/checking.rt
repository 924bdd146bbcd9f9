//! The check of a model's bodies, and what is known of its blocks then.

ghost use Rattle.std.specs.Prelude.{◌≡◌, ◌≢◌, ◌<◌, Err, List, [], length, slice_get, Some, IfOk, OnOk};
ghost use Rattle.tdf_expr_blocks.specs.Types.{type_faults};
ghost use Rattle.tdf_expr.specs.Checked.{IsCheckedOf};
ghost use Rattle.tdf_expr.specs.Made.{block_count, cell_formats, rate_spans_of, event_count};
ghost use Rattle.tdf_expr.specs.declared.spans.RateSpan.{RateSpan as RateSpanOf};
ghost use Rattle.tdf_base.specs.First.{first_of, verdict_of};
ghost use Rattle.tdf_base.specs.declared.refusal.TypeErr.{TypeErr as TypeErrOf};
ghost use Rattle.tdf_base.specs.declared.refusal.TypeErr.TheVariants as why;
ghost use Rattle.tdf_lang_tree.specs.Kept.{IsKept};
ghost use Rattle.tdf_lang_tree.specs.Views.{pure_tree};

use crate::checked::Checked;
use crate::modules::block_list;
use std::alloc::Global;
use tdf_base::{Memory, TypeErr};
use tdf_expr_blocks::check_types;
use tdf_expr_symbols::globals_of;
use tdf_fixed::Format;
use tdf_lang_tree::Tree;

/// The blocks of a model without a fault of types, widths and bodies.
#[tactic(auto, using(crate::proofs::Finely::all_fine))]
fn compiled(alloc: Global, tree: &Tree) -> Result<Checked, Memory>
    requires kept { IsKept (pure_tree tree.now) }
    requires none { type_faults (pure_tree tree.now) ≡ [] }
    ensures { IfOk result (λ checked. IsCheckedOf (pure_tree tree.now) checked) }
{
    let globals = globals_of(alloc, &tree.globals)?;
    let blocks = block_list(alloc, &globals, &tree.globals)?;
    Ok(Checked { blocks })
}

/// Checks the types, widths and bodies of a model, and compiles its bodies.
///
/// # Errors
/// The fault that comes first in the text, or out of memory.
pub fn check_bodies(alloc: Global, tree: &Tree) -> Result<Checked, TypeErr>
    requires kept { IsKept (pure_tree tree.now) }
    ensures none { OnOk result (type_faults (pure_tree tree.now) ≡ []) }
    ensures refused { (e : TypeErrOf) → result ≡ Err e → e ≢ why.Memory
        → Err e ≡ verdict_of (first_of (type_faults (pure_tree tree.now))) }
    ensures checked { IfOk result (λ checked. IsCheckedOf (pure_tree tree.now) checked) }
{
    check_types(alloc, tree)?;
    let checked = compiled(alloc, tree)?;
    Ok(checked)
}

impl Checked {
    /// How many `tdf` and `de` blocks the model has.
    pub fn blocks(&self) -> usize
        ensures { result ≡ block_count self.now }
    {
        self.blocks.len()
    }

    /// How many variables and elements a block has; blocks are numbered from 0 in the order of the text.
    pub fn cells(&self, number: u32) -> u32
        requires { number < block_count self.now }
        ensures { result ≡ length (cell_formats self.now number) }
    {
        let block = &self.blocks[number as usize];
        block.cells.formats.len() as u32
    }

    /// The format of a variable or element of a block, in order of declaration.
    pub fn cell_format(&self, number: u32, i: u32) -> Format
        requires block { number < block_count self.now }
        requires cell { i < length (cell_formats self.now number) }
        ensures { slice_get (cell_formats self.now number) i ≡ Some result }
    {
        let block = &self.blocks[number as usize];
        block.cells.formats[i as usize]
    }

    /// How many events a block has.
    pub fn events(&self, number: u32) -> u32
        requires { number < block_count self.now }
        ensures { result ≡ event_count self.now number }
    {
        let block = &self.blocks[number as usize];
        block.events
    }

    /// How many rate variables a block has.
    pub fn rates(&self, number: u32) -> u32
        requires { number < block_count self.now }
        ensures { result ≡ length (rate_spans_of self.now number) }
    {
        let block = &self.blocks[number as usize];
        block.rates.len() as u32
    }

    /// The least and the greatest value of a rate variable of a block, in order of declaration.
    pub fn limits(&self, number: u32, i: u32) -> (u32, u32)
        requires block { number < block_count self.now }
        requires rate { i < length (rate_spans_of self.now number) }
        ensures least { (r : RateSpanOf) → slice_get (rate_spans_of self.now number) i ≡ Some r
            → result.0 ≡ r.least }
        ensures greatest { (r : RateSpanOf) → slice_get (rate_spans_of self.now number) i ≡ Some r
            → result.1 ≡ r.greatest }
    {
        let block = &self.blocks[number as usize];
        let span = block.rates[i as usize];
        (span.least, span.greatest)
    }
}
