//! Tests of the command over devices that fail.
//!
//! - `failing`: each read, each write of output and each note of a run in turn.
//! - `saving`: the same under `save` and `resume`.

mod failing;
mod saving;
