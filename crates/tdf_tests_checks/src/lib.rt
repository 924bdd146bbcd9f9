//! Tests of the checks of a model from outside, and of what bodies are compiled to: faults of names, types and bodies by
//! their lines, what names stand for, the state of a block, and compiled statements.
//!
//! Nothing but tests is here, and nothing stands on this crate.
#![tactic(auto)]

#[cfg(test)]
mod tests;
