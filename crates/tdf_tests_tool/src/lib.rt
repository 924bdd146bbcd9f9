//! Tests of the command from outside: worked runs, and refusals by name.
//!
//! Nothing but tests is here, and nothing stands on this crate.
#![tactic(auto)]

#[cfg(test)]
mod tests;
