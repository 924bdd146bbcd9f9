//! The flat model of a hierarchy as tables: its modules and their ports, with the signals that these reach.
//!
//! - `roles`: what each block is, with the data of its ports.
//! - `modules`: the tables of modules and of their ports.
//! - `blocks`: the tables of blocks of processes, of their processes and events.
//! - `writers`: the ports that write signals.
//! - `drivers`: the drivers of signals, and the signals that have none or several.
//! - `edges`: the edges between modules, samplers and sinks.
//! - `traces`: the signal that the path of each trace leads to.
#![tactic(auto)]

mod blocks;
mod drivers;
mod edges;
mod modules;
mod roles;
mod traces;
mod writers;

pub use blocks::{BlockRow, EventRow, ProcessBlocks, ProcessRow, process_blocks_of};
pub use drivers::{Driver, DriverErr, DriverFault, SignalRow, Signals, connect};
pub use edges::{EdgeRow, edges_of};
pub use modules::{ModuleRow, Modules, PortRow, modules_of};
pub use roles::{Initials, ModuleData, PortData, ProcessData, ProcessLine, Rate, Role};
pub use traces::{TraceErr, TraceLine, TraceRow, traces_of};
pub use writers::Writer;
