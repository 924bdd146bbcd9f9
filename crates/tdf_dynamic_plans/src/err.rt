//! Why a cluster has no plan.

use tdf_base::{Fault, Memory};

/// Why a cluster has no plan.
#[derive(Drop)]
pub enum ChangeErr {
    /// The first fault.
    Refused(Fault),
    /// Out of memory.
    Memory,
}

impl From<Memory> for ChangeErr {
    ghost use Rattle.std.specs.Prelude.{◌≡◌};
    ghost use Rattle.tdf_dynamic_plans.specs.declared.err.ChangeErr.TheVariants as why;

    ghost from_gives = { λ _ e. e ≡ why.Memory };

    fn from(_refused: Memory) -> ChangeErr {
        ChangeErr::Memory
    }
}
