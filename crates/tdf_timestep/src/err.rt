//! Why a cluster has no period.

use std::alloc::{AllocError, AllocFailed};
use tdf_base::Memory;
use thiserror::Error;

/// Why a cluster has no period. Assignments are told by their places in the list that was given.
#[derive(Clone, Copy, Debug, Drop, Error, PartialEq, Eq)]
pub enum StepErr {
    /// No timestep is assigned.
    #[error("no timestep is assigned")]
    NoTimestep,
    /// Two assignments give different periods.
    #[error("the timesteps {a} and {b} disagree")]
    Disagree {
        /// The place of the first assignment.
        a: u32,
        /// The place of the first one that differs from it.
        b: u32,
    },
    /// The period is 10^18 or more.
    #[error("the period is too long")]
    TooLong,
    /// The step of an actor or a port isn't whole.
    #[error("the step of actor {actor} is not whole")]
    Inexact {
        /// The number of the actor.
        actor: u32,
        /// The number of its port, where it is the port's step.
        port: Option<u32>,
    },
    /// Out of memory.
    #[error("out of memory")]
    Memory,
}

impl From<Memory> for StepErr {
    ghost use Rattle.std.specs.Prelude.{◌≡◌};
    ghost use Rattle.tdf_timestep.specs.declared.err.StepErr.TheVariants as why;

    ghost from_gives = { λ _ e. e ≡ why.Memory };

    fn from(_refused: Memory) -> StepErr {
        StepErr::Memory
    }
}

impl From<AllocError> for StepErr {
    ghost use Rattle.std.specs.Prelude.{◌≡◌};
    ghost use Rattle.tdf_timestep.specs.declared.err.StepErr.TheVariants as why;

    ghost from_gives = { λ _ e. e ≡ why.Memory };

    fn from(_refused: AllocError) -> StepErr {
        StepErr::Memory
    }
}

impl<T: Drop> From<AllocFailed<T>> for StepErr {
    ghost use Rattle.std.specs.Prelude.{◌≡◌};
    ghost use Rattle.tdf_timestep.specs.declared.err.StepErr.TheVariants as why;

    ghost from_gives = { λ _ e. e ≡ why.Memory };

    fn from(_refused: AllocFailed<T>) -> StepErr {
        StepErr::Memory
    }
}
