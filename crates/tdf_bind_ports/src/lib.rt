//! The faults of the `bind` and `instance` lines of a model.
//!
//! - `first`: what may be wrong with such a line, and the first fault so far.
//! - `index`: names in order, each found by a map.
//! - `ports`, `known`: the ports of blocks, the blocks that stand before a line, and the instances of a composite.
//! - `agree`: whether a port and what it is bound to agree.
//! - `pairs`: which ports of which instances are bound.
//! - `composites`, `links`: the faults of a composite, and the first fault of a whole model.
//! - `laws`: what holds of the definitions.
#![tactic(auto)]

mod agree;
mod composites;
mod first;
mod index;
mod known;
mod laws;
mod links;
mod pairs;
mod ports;

pub use index::Index;
pub use known::{Instances, Known};
pub use laws::law_link_faults;
pub use links::link_fault;
pub use ports::{Ports, ports_of_composite, ports_of_de, ports_of_tdf};
