//! What each block of a model is, with the attributes of its ports that stand.
//!
//! - `rates`: rates, and the numbers of rate variables.
//! - `steps`: timesteps and other attributes.
//! - `initials`: initial samples.
//! - `ports`: the ports of a module.
//! - `processes`: blocks of processes.
//! - `roles`: all blocks of a model.
#![tactic(auto)]

mod initials;
mod ports;
mod processes;
mod rates;
mod roles;
mod steps;

pub use roles::roles_of;
