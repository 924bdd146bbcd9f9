//! Tests from outside of runs of an accepted model: what they leave, and how one waits at a stop and goes on.
//!
//! Nothing but tests is here, and nothing stands on this crate.
#![tactic(auto)]

#[cfg(test)]
mod tests;
