//! What was checked: the blocks of a model with their compiled bodies.

use crate::blocks::Block;

/// The `tdf` and `de` blocks of a model, in the order of the text, with their compiled bodies.
#[derive(Drop)]
pub struct Checked {
    pub(crate) blocks: Vec<Block>,
}
