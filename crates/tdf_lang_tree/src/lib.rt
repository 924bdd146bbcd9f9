//! The tree of a model text: plain data, whose types are all public.
//!
//! - `names`: literals; names and numbers as they are written are those of `tdf_base`.
//! - `shapes`: number formats, and the `type` lines that name them.
//! - `expr`: expressions and indices.
//! - `stmt`: statements and bodies.
//! - `blocks`: the lines and parts of `tdf`, `de` and `composite` blocks.
//! - `tree`: the whole model.
//!
//! A tree in memory holds pointers and spare room. Laws speak of the plain tree of `specs/Plain.antt`,
//! which has neither; `specs/Views.antt` says which plain tree a value of each type here stands for.
#![tactic(auto)]

mod blocks;
mod expr;
mod names;
mod shapes;
mod stmt;
mod tree;

pub use blocks::{
    Attr, Composite, DeDecl, DeLine, Initial, Member, PortKind, PortLine, Process, Sense, Store,
    TdfDecl, TdfLine,
};
pub use expr::{Expr, Index, Op};
pub use names::Lit;
pub use shapes::{FormatRef, Shape, TypeDecl};
pub use stmt::{Limit, Stmt, Stmts};
pub use tdf_fixed::{Digits, Format, Name, Raw};
pub use tree::{Global1, Trace1, Tree};
