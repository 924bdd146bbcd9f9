//! A block of a model, with its compiled bodies.

ghost use Rattle.std.specs.Prelude.{◌≤◌, ◌^◌, length};

use crate::cells::CellPlan;
use crate::ports::PortPlan;
use crate::spans::RateSpan;
use tdf_expr_machine::Act;

/// The compiled bodies of a block: the four of a `tdf` block, or one for each process of a `de` block.
#[derive(Drop)]
pub(crate) enum Acts {
    Module(Act, Act, Act, Act),
    Processes(Vec<Act>),
}

/// A block: what its values look like, and its compiled bodies.
#[derive(Drop)]
pub(crate) struct Block {
    pub(crate) cells: CellPlan,
    pub(crate) rates: Vec<RateSpan>,
    pub(crate) ports: PortPlan,
    pub(crate) events: u32,
    pub(crate) acts: Acts,
    pub(crate) ghost few_rates: { length rates.items ≤ 2 ^ 31 },
}
