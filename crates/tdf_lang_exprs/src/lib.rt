//! The parts of a line of the language: numbers, literals, indices, expressions, formats and paths, each read from
//! the tokens that are it and no others, in each version of the language.
//!
//! - `numbers`: numbers without needless zeros.
//! - `literals`: literals, and lists of them.
//! - `index`: indices.
//! - `formats`: shapes and formats.
//! - `paths`: names joined by points.
//! - `after`: what a token after an operand does.
//! - `pending`: what waits for its right operand.
//! - `steps`: one token of an expression after another.
//! - `expr`: expressions.
//! - `laws`: laws over the definitions alone.
#![tactic(auto)]

mod after;
mod expr;
mod formats;
mod index;
mod laws;
mod literals;
mod numbers;
mod paths;
mod pending;
mod steps;

pub use expr::read_expr;
pub use formats::{format_len, read_format, read_shape};
pub use index::read_index;
pub use laws::{law_forms, law_unique};
pub use literals::{read_lit, read_lits};
pub use numbers::read_number;
pub use paths::read_path;
