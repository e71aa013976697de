//! The grammar of the XML profile, as a relation between texts and trees, and the reader that is exactly it.
#![tactic(auto)]

mod declaration;
pub mod laws;
mod lexer;
mod lines;
mod machine;
mod markup;
mod meaning;
pub mod reader;
mod scope;
