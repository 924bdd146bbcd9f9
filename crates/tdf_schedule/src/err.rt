//! Why a cluster has no plan.

use std::alloc::{AllocError, AllocFailed};
use tdf_base::Memory;
use thiserror::Error;

/// Why a cluster has no plan.
#[derive(Clone, Copy, Debug, Drop, Error, PartialEq, Eq)]
pub enum PlanErr {
    /// The buffers of the cluster hold more than 1,048,576 samples.
    #[error("too many samples in the buffers")]
    TooLarge,
    /// A firing of an actor needs itself.
    #[error("actor {actor} waits for itself")]
    Deadlock {
        /// The number of the first such actor.
        actor: u32,
    },
    /// A sink can't be written when it is due.
    #[error("firing {index} of sink {sink} comes after it is due")]
    Noncausal {
        /// The number of the first such sink.
        sink: u32,
        /// The number of its first such firing.
        index: u64,
    },
    /// Out of memory.
    #[error("out of memory")]
    Memory,
}

impl From<Memory> for PlanErr {
    ghost use Rattle.std.specs.Prelude.{◌≡◌};
    ghost use Rattle.tdf_schedule.specs.declared.err.PlanErr.TheVariants as why;

    ghost from_gives = { λ _ e. e ≡ why.Memory };

    fn from(_refused: Memory) -> PlanErr {
        PlanErr::Memory
    }
}

impl From<AllocError> for PlanErr {
    ghost use Rattle.std.specs.Prelude.{◌≡◌};
    ghost use Rattle.tdf_schedule.specs.declared.err.PlanErr.TheVariants as why;

    ghost from_gives = { λ _ e. e ≡ why.Memory };

    fn from(_refused: AllocError) -> PlanErr {
        PlanErr::Memory
    }
}

impl<T: Drop> From<AllocFailed<T>> for PlanErr {
    ghost use Rattle.std.specs.Prelude.{◌≡◌};
    ghost use Rattle.tdf_schedule.specs.declared.err.PlanErr.TheVariants as why;

    ghost from_gives = { λ _ e. e ≡ why.Memory };

    fn from(_refused: AllocFailed<T>) -> PlanErr {
        PlanErr::Memory
    }
}
