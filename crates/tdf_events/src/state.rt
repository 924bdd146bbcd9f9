//! The state of a kernel between two instants, as a snapshot has it.

ghost use Rattle.std.specs.Prelude.{◌≡◌, IfOk, length, map};
ghost use Rattle.tdf_events.specs.State.{notifications};

use crate::notices::Notices;
use std::alloc::Global;
use tdf_base::{Memory, row_number};
use tdf_expr::Frame;
use tdf_fixed::Raw;
use tdf_saved::Pending;

/// The numbers of values.
pub(crate) fn nums_of(alloc: Global, values: &[Raw]) -> Result<Vec<i128>, Memory>
    ensures { IfOk result (λ nums. nums.items ≡ map (λ value. value.num) values.now) }
{
    let mut nums = Vec::new(alloc);
    for i in 0..values.len() {
        nums.push(values[i].num)?;
    }
    Ok(nums)
}

/// The cells of each instance.
pub(crate) fn cells_of(alloc: Global, frames: &[Frame]) -> Result<Vec<Vec<i128>>, Memory>
    ensures { IfOk result (λ blocks. map (λ nums. nums.items) blocks.items
        ≡ map (λ frame. frame.state.cells) frames.now) }
{
    let mut blocks = Vec::new(alloc);
    for i in 0..frames.len() {
        let nums = Vec::from_slice(alloc, frames[i].nums())?;
        blocks.push(nums)?;
    }
    Ok(blocks)
}

/// The timed notifications, by event.
pub(crate) fn pending_of(alloc: Global, notices: &Notices) -> Result<Vec<Pending>, Memory>
    ensures { IfOk result (λ list. list.items ≡ notifications notices.now.times) }
{
    let mut list = Vec::new(alloc);
    for place in 0..notices.calendar.len() {
        let event = row_number(place)?;
        if let Some(time) = notices.time(event) {
            list.push(Pending { event, time })?;
        }
    }
    Ok(list)
}
