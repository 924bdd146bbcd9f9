//! A run that is saved and one that goes on from the snapshot are together one unbroken run.
//!
//! There is no code here but laws, and the definitions are in `specs`.
//!
//! - `laws`: what holds of the history from a snapshot on, and of the columns that a snapshot has.
#![tactic(auto)]

mod laws;

pub use laws::{
    law_columns, law_goes_on, law_in_formats, law_parts, law_saved_goes_on, law_saved_is_valid,
    law_sound, law_unbroken,
};
