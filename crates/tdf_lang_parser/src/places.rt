//! The place of a line, with what the open blocks hold so far.

use tdf_lang_lexer::Dialect;
use tdf_lang_tree::{Composite, DeDecl, Expr, Global1, Limit, Name, Process, Stmt, TdfDecl, Tree};

/// What comes before an open block: the dialect of the text, and what was declared.
#[derive(Drop)]
pub(crate) struct Outer {
    pub dialect: Dialect,
    pub globals: Vec<Global1>,
}

/// An open `if` or `for`: the line of its head, what its head says, and last the statements before it.
#[derive(Drop)]
pub(crate) enum Frame {
    If(u32, Expr, Vec<Stmt>),
    /// After `else`: the statements before it come first.
    Else(u32, Expr, Vec<Stmt>, Vec<Stmt>),
    For(u32, Name, u64, Limit, Vec<Stmt>),
}

/// The part of a `tdf` block whose body is open.
#[derive(Clone, Copy, PartialEq, Eq)]
pub(crate) enum BodyPart {
    Initialize,
    Processing,
    Change,
    Reinitialize,
}

/// Where a line is in a `tdf` block.
#[derive(Drop)]
pub(crate) enum InTdf {
    /// Outside its parts, and the number of the next part that may come.
    Lines(u32),
    Attributes,
    /// In `initialize`, before its statements.
    Initialize,
    /// In a body: the open `if` and `for`, and the statements of the innermost block.
    Body(BodyPart, Vec<Frame>, Vec<Stmt>),
}

/// Where a line is in a `de` block.
#[derive(Drop)]
pub(crate) enum InDe {
    /// Outside its processes, and whether declarations may come.
    Lines(bool),
    /// In a process, before its statements.
    Process(Process),
    /// In a process: the open `if` and `for`, and the statements of the innermost block.
    Body(Process, Vec<Frame>, Vec<Stmt>),
}

#[derive(Drop)]
pub(crate) enum Place {
    Globals(Outer),
    Tdf(Outer, TdfDecl, InTdf),
    De(Outer, DeDecl, InDe),
    Net(Outer, Composite),
    Top(Outer, Composite),
    Traces(Tree),
    /// After a line that its place doesn't allow.
    Lost,
}

/// What comes of a line in a block or a body.
#[derive(Clone, Copy, PartialEq, Eq)]
pub(crate) enum Turn {
    /// The next line is in it too.
    Stays,
    /// The line is its `end`.
    Ends,
    /// The place doesn't allow the line.
    Lost,
}
