//! What the words ask for, and why they are not taken.

use std::alloc::AllocError;
use tdf_sampling::Choice;
use tdf_trace_rows::TraceKind;
use thiserror::Error;

/// What is asked of a run.
#[derive(Clone, Copy, Debug, PartialEq, Eq)]
pub struct RunOptions {
    /// Where the run ends, in ps, below 10^18.
    pub stop: u64,
    /// How the traces are written.
    pub kind: TraceKind,
    /// How many turns the run may take, 1 to 10^12.
    pub turns: u64,
}

/// What `save` writes of a run at its stop.
#[derive(Clone, Copy, Debug, PartialEq, Eq)]
pub enum SavePart {
    /// The trace so far.
    Trace,
    /// The state, from which `resume` goes on.
    State,
}

/// What the words ask for.
#[derive(Clone, Copy, Debug, PartialEq, Eq)]
pub enum Settings {
    /// Run the model and write its traces.
    Run(RunOptions),
    /// Run the model with event signals that a table drives, and write its traces.
    Drive(RunOptions),
    /// Run the model up to a stop, and write what there is of it then.
    Save(SavePart, RunOptions),
    /// Go on from the state of a run, and write the rest of its traces.
    Resume {
        /// Where the run ends, in ps, below 10^18.
        stop: u64,
    },
    /// Write the canonical text of the model.
    Check,
    /// Write the plans of the model.
    Plan,
    /// Make a model, run it, and write what it took.
    Load {
        /// Where the sequence begins from which the model is made, 0 to 65,536.
        seed: u64,
        /// The changes of rates that the model has, 1 to 500.
        size: u64,
    },
    /// Write some rows of a table.
    Sample(Choice),
    /// Write statistics of the columns of a table.
    Stats {
        /// How long each window is, in ps, 1 at least and below 10^18; none where all rows are one group.
        window: Option<u64>,
    },
}

/// Why there are no settings.
#[derive(Clone, Copy, Debug, Drop, Error, PartialEq, Eq)]
pub enum WordsErr {
    /// The words are not taken.
    #[error("usage")]
    Usage,
    /// Out of memory.
    #[error("out of memory")]
    Memory,
}

impl From<AllocError> for WordsErr {
    ghost use Rattle.std.specs.Prelude.{◌≡◌};
    ghost use Rattle.tdf_cli_words.specs.declared.asked.WordsErr.TheVariants as why;

    ghost from_gives = { λ _ e. e ≡ why.Memory };

    fn from(_refused: AllocError) -> WordsErr {
        WordsErr::Memory
    }
}
