//! From a text to a model that can run, or its first fault, and the run of a model.
//!
//! - `err`: why a text is not accepted.
//! - `elaboration`: all checks of a text, in their order.
//! - `sim`: a model that was accepted.
//! - `run`: a run of it.
//! - `part`: a run of it up to a stop at which it waits.
//! - `laws`: what holds of the definitions.
//! - `state_texts`: the text of the state of a run that waits.
//! - `reading`: the run that waits in the state whose text some bytes are.
//! - `state_laws`: bytes are the text of one state at most; saving and going on do not depend on which model of a tree is used.
#![tactic(auto)]

mod elaboration;
mod err;
mod laws;
mod part;
mod reading;
mod run;
mod sim;
mod state_laws;
mod state_texts;

pub use elaboration::{check_tree, elaborate, elaborate_tree};
pub use err::SimErr;
pub use laws::{
    law_early_fault, law_first_fault, law_one_model, law_one_run, law_plans_fault, law_tree_fault,
};
pub use reading::read_state;
pub use run::RunErr;
pub use sim::Sim;
pub use state_laws::{law_one_state, law_parts_alike, law_rests_alike};
pub use state_texts::state_text;
pub use tdf_sim_notes::{End, write_closing};
pub use tdf_sim_runs::{Part, Paused, Ran};
