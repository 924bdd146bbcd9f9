//! What expressions and bodies mean: definitions, and what holds of them.
//!
//! - `laws`: an expression lies within its width, an index lies inside, and a body keeps values in their ranges.
#![tactic(auto)]

mod laws;

pub use laws::{law_indices, law_maps, law_states, law_widths};
