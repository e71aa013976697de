//! The files that a program reads.
#![tactic(auto)]

pub mod real_files;
