//! Tests of the language from outside: tokens, expressions, line forms, trees and canonical texts of written texts, against
//! the rules of the manual by hand, and against texts whose canonical form others worked out.
//!
//! Nothing but tests is here, and nothing stands on this crate.
#![tactic(auto)]

#[cfg(test)]
mod tests;
