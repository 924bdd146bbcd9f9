//! The token lines of a model text: which bytes a text may hold, its lines, and the tokens of a line by
//! the longest match.
#![tactic(auto)]

mod dialect;
mod key;
mod laws;
mod pieces;
mod rows;
mod text;
mod token;
mod words;

pub use dialect::{Dialect, push_tokens};
pub use key::{Key, Symbol};
pub use laws::{law_faults, law_lines, law_longest, law_words};
pub use rows::RowReader;
pub use text::{TextFault, line_count, text_fault};
pub use token::Token;
