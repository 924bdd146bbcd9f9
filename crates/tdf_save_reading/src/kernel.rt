//! The event kernel of a saved text, read exactly.

ghost use Rattle.std.specs.Prelude.{IfErr, IfOk};
ghost use Rattle.tdf_save.specs.Members.{AreNamesApart, IsKernelFor};
ghost use Rattle.tdf_save.specs.Text.{saved_kernel};
ghost use Rattle.tdf_save.specs.machine.Pieces.{IsNext};
ghost use Rattle.tdf_save_reading.specs.machine.Pieces.{IsPiece, IsStateRefusal, NoPiece};

use crate::events::read_notices;
use crate::values::{read_blocks, read_values};
use std::alloc::Global;
use tdf_save::Members;
use tdf_saved::{KernelState, StateErr};

/// The state of the event kernel.
pub(crate) fn read_kernel<'t>(
    alloc: Global,
    members: &Members,
    text: &'t [u8],
) -> Result<(KernelState, &'t [u8]), StateErr>
    requires apart { AreNamesApart members.now.events }
    ensures is { IfOk result (λ p.
        IsPiece (saved_kernel members.now) (IsKernelFor members.now) IsNext text.entry.now p.0 p.1.now) }
    ensures refused { IfErr result (IsStateRefusal
        (NoPiece (saved_kernel members.now) (IsKernelFor members.now) IsNext text.entry.now)) }
{
    match read_values(alloc, &members.values, text) {
        Ok((values, after)) => match read_blocks(alloc, &members.blocks, after) {
            Ok((cells, after)) => match read_notices(alloc, &members.events, after) {
                Ok((pending, rest)) => Ok((
                    KernelState {
                        values,
                        blocks: cells,
                        pending,
                    },
                    rest,
                )),
                Err(why) => Err(why),
            },
            Err(why) => Err(why),
        },
        Err(why) => Err(why),
    }
}
