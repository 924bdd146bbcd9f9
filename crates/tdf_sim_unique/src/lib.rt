//! What a run of a model writes does not depend on which flat model of it the run uses, nor on which answers of its boundaries it is told.
//!
//! There is no code here but laws, and the definitions are in `specs`.
//!
//! - `laws`: a run of a model has one trace, one text of notes and one end.
//! - `part_laws`: what holds of two flat models of one model, and of two histories that are told answers.
#![tactic(auto)]

mod laws;
mod part_laws;

pub use laws::{law_alike, law_answers};
pub use part_laws::{law_alike_parts, law_answered_parts, law_one_part, law_one_rest};
pub use tdf_save_members::{law_members, members_of};
