//! The call between `main` and the top call: the process's words, and its status.
#![tactic(auto)]

pub mod help;
pub mod program;
mod words;
