//! What holds of the meaning of bodies, beside the laws of `tdf_expr_semantics`. Only crates of laws stand on this one.
//!
//! There is no code here but laws, and the definitions are in `specs`.
//!
//! - `laws`: rate variables, timesteps, notices and marks are maps; an index lies below the size in force; what is read off checked bodies; what
//!   a process leaves; values of variables and samples of ports are of their formats.
#![tactic(auto)]

mod laws;

pub use laws::{
    law_cells, law_checked, law_indices_in_force, law_other_maps, law_processes, law_samples,
};
