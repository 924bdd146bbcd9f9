//! What a kernel of discrete events keeps: sets of numbers, pending times, and lists of who is sensitive to what. Nothing here
//! takes memory but `new` and `Lists::add`, and each call costs what it changes.
//!
//! - `sets`: numbers below a bound, with a list of those that are in.
//! - `calendar`: the pending time of each event, and the least of all.
//! - `lists`: a list for each number.
//! - `triggering`: what the lists of some numbers name goes into a set.
//! - `laws`: going through a sorted set is looking at every number in order.
#![tactic(auto)]

mod calendar;
mod laws;
mod lists;
mod sets;
mod triggering;

pub use calendar::{Calendar, Pending};
pub use laws::law_evaluation;
pub use lists::Lists;
pub use sets::NumberSet;
pub use triggering::{trigger, trigger_all};
