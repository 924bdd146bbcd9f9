//! Numbers of 64 bits that stay within them: moved up, cut, and cast where a cast is no more than that.
#![tactic(auto)]

mod cuts;
mod sums;

pub use cuts::{
    Cut, cut_by, cut_of, held_by, keeps_all, multiple, multiple_in, raised, roomy_cut, short_cast,
    short_of,
};
pub use sums::{difference, negative, product, sum};
