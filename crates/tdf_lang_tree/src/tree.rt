//! The whole model.

use crate::blocks::{Composite, DeDecl, TdfDecl};
use crate::shapes::TypeDecl;
use tdf_fixed::{Name, Resolution, Version};

/// A declaration before `top`.
#[derive(Drop)]
pub enum Global1 {
    Shape(TypeDecl),
    Tdf(TdfDecl),
    De(DeDecl),
    Net(Composite),
}

/// `trace PATH NAME`: the signal at a path is written under a label.
#[derive(Debug, Drop, PartialEq, Eq)]
pub struct Trace1 {
    pub line: u32,
    pub path: Vec<Name>,
    pub label: Name,
}

/// The tree of a model text. Times in it are counts of its resolution.
#[derive(Drop)]
pub struct Tree {
    /// The version of the language.
    pub version: Version,
    /// The unit of its times: 1 ps, or 1 fs, which version 3 alone can have.
    pub resolution: Resolution,
    pub globals: Vec<Global1>,
    pub top: Composite,
    pub traces: Vec<Trace1>,
}
