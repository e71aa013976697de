//! The command that prints a journal, and changes nothing.
#![tactic(auto)]

pub mod base;
pub mod files;
pub mod journal;
pub mod memory_files;
pub mod pair;
pub mod read_file;
