//! Tests of the command.
//!
//! - `runs`: runs and refusals of the command.
//! - `stimulus`: a model that a table drives.

mod runs;
mod stimulus;
