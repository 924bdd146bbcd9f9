//! The line forms of the language: what one line of a text can be, and which tokens are which form.
//!
//! - `lines`: the form that the tokens of a line are.
//! - `heads`, `stores`, `attributes`: the forms after one reserved word or another.
//! - `limits`: the end of a `for`, or the rate of a port.
//! - `cuts`: a line's tokens, cut in two.
//! - `form`: the type of a line form.
//! - `laws`: what holds of the definitions.
#![tactic(auto)]

mod attributes;
mod cuts;
mod form;
mod heads;
mod laws;
mod limits;
mod lines;
mod stores;

pub use form::LineForm;
pub use laws::{law_kinds, law_one_form};
pub use lines::read_form;
