//! The source language: from the bytes of a file to its tree.
#![tactic(auto)]

mod class;
mod laws;
mod read;
mod rule;
mod table;
mod tree;

pub use laws::{file_or_fault, known_cases, one_file, one_source};
pub use read::{ReadFault, read_file};
pub use usuba_trees::{
    Base, BitOp, Decl, Def, Equation, Expr, File, Grid, Index, IndexLink, IndexOp, Item, Link,
    Loop, Node, Pick, Shape, ShiftKind, ShiftLink, Spot, Word,
};
