//! The lines and parts of `tdf`, `de` and `composite` blocks.

use crate::names::Lit;
use crate::shapes::FormatRef;
use crate::stmt::{Limit, Stmts};
use tdf_fixed::Name;

/// The word of a port line: `in`, `out`, `de_in` or `de_out`.
#[derive(Clone, Copy, Debug, PartialEq, Eq)]
pub enum PortKind {
    In,
    Out,
    DeIn,
    DeOut,
}

/// A port of a block.
#[derive(Debug, Drop, PartialEq, Eq)]
pub struct PortLine {
    pub line: u32,
    pub kind: PortKind,
    pub name: Name,
    pub format: FormatRef,
}

/// A constant, a state variable with its starting value, or an array with the values that were given.
#[derive(Debug, Drop, PartialEq, Eq)]
pub enum Store {
    Const {
        line: u32,
        name: Name,
        format: FormatRef,
        value: Lit,
    },
    Var {
        line: u32,
        name: Name,
        format: FormatRef,
        value: Lit,
    },
    Array {
        line: u32,
        name: Name,
        format: FormatRef,
        length: u64,
        values: Vec<Lit>,
    },
}

/// A line of a `tdf` block before its parts.
#[derive(Debug, Drop, PartialEq, Eq)]
pub enum TdfLine {
    Port(PortLine),
    Store(Store),
    /// A rate variable: its least, greatest and starting value, in samples.
    Rate {
        line: u32,
        name: Name,
        least: u64,
        greatest: u64,
        start: u64,
    },
}

/// A line of `set_attributes`.
#[derive(Debug, Drop, PartialEq, Eq)]
pub enum Attr {
    /// The timestep of a port, or of the module; a count of the tree's resolution.
    Step {
        line: u32,
        port: Option<Name>,
        step: u64,
    },
    /// The rate of a port, in samples.
    Rate {
        line: u32,
        port: Name,
        rate: Limit,
    },
    /// The delay of a port, in samples.
    Delay {
        line: u32,
        port: Name,
        count: u64,
    },
    /// `does_attribute_changes`
    Does {
        line: u32,
    },
    /// `accept_attribute_changes`
    Accept {
        line: u32,
    },
    /// `reject_attribute_changes`
    Reject {
        line: u32,
    },
}

/// `initial PORT PLACE VALUE`: one initial sample of a port.
#[derive(Debug, Drop, PartialEq, Eq)]
pub struct Initial {
    pub line: u32,
    pub port: Name,
    pub place: u64,
    pub value: Lit,
}

/// A `tdf` block. An absent part equals an empty one.
#[derive(Drop)]
pub struct TdfDecl {
    pub line: u32,
    pub name: Name,
    pub decls: Vec<TdfLine>,
    pub attrs: Vec<Attr>,
    pub initials: Vec<Initial>,
    pub initialize: Stmts,
    pub processing: Stmts,
    pub change: Stmts,
    pub reinitialize: Stmts,
}

/// A line of a `de` block before its processes.
#[derive(Debug, Drop, PartialEq, Eq)]
pub enum DeLine {
    Port(PortLine),
    Store(Store),
    Event { line: u32, name: Name },
}

/// A `sensitive` line.
#[derive(Debug, Drop, PartialEq, Eq)]
pub struct Sense {
    pub line: u32,
    pub name: Name,
}

/// A process of a `de` block; `starts` is false where `dont_initialize` stands.
#[derive(Drop)]
pub struct Process {
    pub line: u32,
    pub sensitive: Vec<Sense>,
    pub starts: bool,
    pub body: Stmts,
}

/// A `de` block.
#[derive(Drop)]
pub struct DeDecl {
    pub line: u32,
    pub name: Name,
    pub decls: Vec<DeLine>,
    pub processes: Vec<Process>,
}

/// A line of a `composite` block or of `top`.
#[derive(Debug, Drop, PartialEq, Eq)]
pub enum Member {
    Port(PortLine),
    Signal {
        line: u32,
        name: Name,
        format: FormatRef,
    },
    DeSignal {
        line: u32,
        name: Name,
        format: FormatRef,
        start: Lit,
    },
    Instance {
        line: u32,
        name: Name,
        block: Name,
    },
    Bind {
        line: u32,
        instance: Name,
        port: Name,
        target: Name,
    },
}

/// A `composite` block, or `top`, whose name is `top`.
#[derive(Drop)]
pub struct Composite {
    pub line: u32,
    pub name: Name,
    pub members: Vec<Member>,
}
