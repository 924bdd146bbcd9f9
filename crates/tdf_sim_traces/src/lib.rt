//! The trace of a run while it goes on: what instants give goes to the columns of a trace.
//!
//! - `variables`: the variables of a trace.
//! - `signals`: the traced signals of samples, and the ports that drive them.
//! - `events`: the columns of event signals.
//! - `periods`: the periods of traced signals that begin.
//! - `initials`: the samples that traced signals start with.
//! - `shown`: the trace with all that leads to it, and its calls.
//! - `laws`: what holds of the definitions.
#![tactic(auto)]

mod events;
mod initials;
mod laws;
mod periods;
mod shown;
mod signals;
mod variables;

pub use events::EventColumn;
pub use laws::{law_can, law_kept};
pub use periods::{Clock, positions};
pub use shown::Shown;
pub use signals::{TracedSignal, traced_at};
