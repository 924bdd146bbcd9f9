//! The names of a block with what they stand for; widths, weights and faults of expressions and statements.
//!
//! - `kinds`: the kinds of names, the places where names are used, and which kinds each place allows.
//! - `things`: what names stand for, and name spaces.
//! - `scope`: the names in force in a body, and how they are made from a tree.
//!
//! The definitions of widths, weights and faults (`specs/Width.antt`, `Weight.antt`, `Index.antt`, `Faults.antt`) stand here,
//! since both the check of bodies and their compiler are by them.
#![tactic(auto)]

mod kinds;
mod scope;
mod things;

pub use kinds::{Kind, Part, Place, is_allowed};
pub use scope::{
    OpenLoop, Scope, composite_scope, de_scope, format_of, globals_of, loop_place, tdf_scope,
};
pub use things::{Table, Thing};
