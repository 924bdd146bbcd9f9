//! Tables as text: a head with labels, and rows with rising times. They are read in one pass, and written.
//!
//! - `table`: a table and its rows, whose words stay in the text, and their words one by one.
//! - `reading`: the reader. `heads`, `rows`, `lines`, `labels`, `times` and `cells` read the parts.
//! - `writing`: a table as text, in memory or to a sink.
//! - `err`: why a text is no table.
//! - `laws`: what holds of tables and their texts.
#![tactic(auto)]

mod cells;
mod err;
mod heads;
mod labels;
mod laws;
mod lines;
mod reading;
mod rows;
mod table;
mod times;
mod writing;

pub use err::TableErr;
pub use laws::law_tables;
pub use reading::{LONGEST_TABLE, read_table};
pub use table::{Row, Table, cut_word, word_at};
pub use writing::{push_table, write_table};
