//! The history of a model as a definition: its instants, its cells and its texts.
//!
//! There is no code here but a law, and the definitions are in `specs`.
//!
//! - `laws`: what holds of all histories of models.
#![tactic(auto)]

mod laws;

pub use laws::{
    law_agree, law_cells_stay, law_history, law_idle, law_longer, law_one_history, law_one_text,
    law_samples_there, law_settled, law_tables, law_told, law_turns, law_unchanged,
};
