//! The bytes of a journal's records, both ways.
#![tactic(auto)]

pub mod cursor;
pub mod fields;
pub mod read;
pub mod write;
