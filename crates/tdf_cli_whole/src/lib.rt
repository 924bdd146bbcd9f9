//! What `save` writes of a run, and what `resume` writes of its state, are together what one `run` writes.
//!
//! There is no code here but laws, and the definitions are in `specs`.
//!
//! - `laws`: a valid snapshot has the members of its model; the snapshot of a run of an accepted model is valid; such a run is the part up
//!   to a stop and the rest from the snapshot there; and so it is with the outcomes of the command.
#![tactic(auto)]

mod laws;

pub use laws::{law_save_and_resume, law_saved_runs, law_split, law_state_members};
