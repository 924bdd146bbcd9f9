//! The whole tree.

ghost use Rattle.std.specs.Prelude.{◌≡◌, ◌<◌, OnOk};
ghost use Rattle.tdf_lang_tree.specs.Views.{pure_tree};
ghost use Rattle.tdf_stim_lines.specs.Numbered.{line_after_head, numbered};
ghost use Rattle.tdf_stim_lines.specs.machine.Walk.{last_number};

use crate::blocks::{number_composite, number_globals};
use crate::lines::number_traces;
use tdf_base::{Memory, Version};
use tdf_lang_tree::Tree;

/// The first line after `language`, and after `resolution`, which version 3 has.
fn line_after_head(version: Version) -> u32
    ensures { result ≡ line_after_head version }
{
    if version.has_resolution() { 3 } else { 2 }
}

/// Numbers all parts, and says the line after the last.
fn number_parts(tree: &mut Tree) -> u32
    ensures { result < last_number → pure_tree tree.new ≡ numbered (pure_tree tree.old) }
{
    let top = number_globals(&mut tree.globals, line_after_head(tree.version));
    let traces = number_composite(&mut tree.top, top);
    number_traces(&mut tree.traces, traces)
}

/// Gives each part of a tree the number of the line on which it stands in the tree's canonical text. It takes no memory. A tree
/// with more lines than 32 bits count does not fit in memory.
///
/// # Errors
/// Out of memory, where numbers run out; some parts then have the last number.
pub fn number_lines(tree: &mut Tree) -> Result<(), Memory>
    ensures { OnOk result (pure_tree tree.new ≡ numbered (pure_tree tree.old)) }
{
    if number_parts(tree) < u32::MAX {
        return Ok(());
    }
    Err(Memory)
}
