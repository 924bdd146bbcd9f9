//! Samplers and sinks: what passes between the signals of events and the clusters.
//!
//! - `links`: which signal each sampler and sink has.
//! - `inputs`: one value for each sampler of a cluster.
//! - `outputs`: what sinks and traced signals got.
//! - `writes`: values for signals of events.
//! - `near`: where the entries of an offset stand in a plan.
//! - `sampling`: the samplers that are due get the values of their signals.
//! - `emitting`: what sinks got goes to their signals.
//! - `laws`: the entries of a plan go by offset.
#![tactic(auto)]

mod emitting;
mod inputs;
mod laws;
mod links;
mod near;
mod outputs;
mod sampling;
mod writes;

pub use emitting::emit_due;
pub use inputs::Inputs;
pub use laws::law_by_offset;
pub use links::{Link, Links};
pub use near::{first_after, first_from};
pub use outputs::{Outputs, Sent, Traced};
pub use sampling::{sample_due, sample_nothing};
pub use writes::{SignalWrite, Writes};
