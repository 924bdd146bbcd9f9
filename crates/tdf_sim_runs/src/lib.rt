//! The loop of instants of a run.
//!
//! - `running`: a run while it goes on.
//! - `starting`: how a run begins.
//! - `going`: from instant to instant.
//! - `ending`: how the trace of a run ends.
//! - `pausing`: a run that comes to a stop and waits there.
//! - `rest`: a run that goes on to its end.
//! - `run`: a whole run.
//! - `news`: the plans that boundaries bring, as text.
//! - `laws`, `standing`: what holds of the definitions.
//! - `paused`: a run that waits, and how it goes on.
//! - `part`: a run of a model up to a stop at which it waits.
//! - `saving`: the snapshot of a run that waits.
//! - `starts`: when the periods of clusters began.
//! - `ready`: the clusters of a snapshot, and whether a run can go on from its columns.
//! - `restoring`: the run.
#![tactic(auto)]

mod ending;
mod going;
mod laws;
mod news;
mod part;
mod paused;
mod pausing;
mod ready;
mod rest;
mod restoring;
mod run;
mod running;
mod saving;
mod standing;
mod starting;
mod starts;

pub use laws::{law_advancing, law_going, law_next, law_staying, law_waiting};
pub use part::{Part, run_part};
pub use paused::Paused;
pub use pausing::{Arrival, pause};
pub use rest::{Until, go_on};
pub use restoring::restored_run;
pub use run::{Ran, Request, begin_run, run_model};
pub use running::Running;
pub use standing::law_standing;
