//! The model language: from the text of a model to its tree and back. This crate is the front page
//! of the layers below it, with the laws that hold of them together.
//!
//! - [`parse`]: the tree that a text spells, or its first fault (`tdf_lang_parser`).
//! - [`push_tree`]: the canonical text of a tree (`tdf_lang_printer`).
//! - [`law_spelled`]: what holds of texts and trees, whatever they are.
//! - [`law_exprs`]: what holds of expressions.
//!
//! The tree and its parts are those of `tdf_lang_tree`.
#![tactic(auto)]

mod laws;

pub use laws::{law_exprs, law_spelled};
pub use tdf_base::{Memory, Resolution, Version};
pub use tdf_lang_parser::{LangErr, parse};
pub use tdf_lang_printer::push_tree;
pub use tdf_lang_tree::{
    Attr, Composite, DeDecl, DeLine, Digits, Expr, FormatRef, Global1, Index, Initial, Limit, Lit,
    Member, Name, Op, PortKind, PortLine, Process, Sense, Shape, Stmt, Stmts, Store, TdfDecl,
    TdfLine, Trace1, Tree, TypeDecl,
};
