//! The XML profile: trees with expanded names, which of them can be spelled, and the writer of their canonical text.
#![tactic(auto)]

pub mod laws;
pub mod name;
pub mod names;
mod spaces;
pub mod spellable_trees;
pub mod tree;
mod used_spaces;
pub mod writer;
