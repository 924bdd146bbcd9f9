//! Stimulus from a table: the tree of a model whose event signals the columns of a table drive.
//!
//! - `planning`: [`drive`], the driven tree and the labels of the columns that are ignored.
//! - `checks`: when a table can't drive a model.
//! - `signals`: the columns that drive.
//! - `types`: the shapes of types, by their names.
//! - `names`: the name of the driver.
//! - `driver`: the block of the driver, its instance and its `bind` lines.
//! - `columns`: the ports and arrays of the driver.
//! - `literals`: the cells of a column as literals.
//! - `statements`: the body of the driver.
//! - `err`: why there is no driven tree.
//! - `laws`: what holds of the definitions.
#![tactic(auto)]

mod checks;
mod columns;
mod driver;
mod err;
mod laws;
mod literals;
mod names;
mod planning;
mod signals;
mod statements;
mod types;

pub use err::StimErr;
pub use laws::law_driver_name;
pub use planning::{Driven, drive};
