//! Statements and bodies.

use crate::expr::{Expr, Index};
use tdf_fixed::Name;

/// The end of a `for`, or an assigned rate: a whole number, the value of a rate variable, or from version 2 on a multiple of
/// it. `Times(c, r)` is `c * r`.
#[derive(Debug, Drop, PartialEq, Eq)]
pub enum Limit {
    Int(u64),
    Var(Name),
    Times(u64, Name),
}

/// A statement, with the line of its head.
#[derive(Drop)]
pub enum Stmt {
    Assign {
        line: u32,
        name: Name,
        index: Option<Index>,
        value: Expr,
    },
    If {
        line: u32,
        test: Expr,
        yes: Vec<Stmt>,
        no: Vec<Stmt>,
    },
    /// The variable runs from `from` up to and not including the limit.
    For {
        line: u32,
        var: Name,
        from: u64,
        limit: Limit,
        body: Vec<Stmt>,
    },
    /// `after` is a count of the tree's resolution; 0 is a delta notification.
    Notify {
        line: u32,
        event: Name,
        after: u64,
    },
    SetRate {
        line: u32,
        name: Name,
        value: Expr,
    },
    /// The timestep of a port, or of the module; a count of the tree's resolution.
    SetStep {
        line: u32,
        port: Option<Name>,
        step: u64,
    },
    Accept {
        line: u32,
    },
    Reject {
        line: u32,
    },
}

/// A body: its statements, and the line of its `end`, which is 0 where it has no statement.
#[derive(Drop)]
pub struct Stmts {
    pub list: Vec<Stmt>,
    pub end: u32,
}
