//! Tests from outside of how a model is linked: the first fault of `bind` and `instance` lines, the resolved blocks, and models
//! that hold too much.
//!
//! Nothing but tests is here, and nothing stands on this crate.
#![tactic(auto)]

#[cfg(test)]
mod tests;
