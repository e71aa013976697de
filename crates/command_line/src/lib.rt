//! The command line of atx: which words are a command, and the top call `run`.
#![tactic(auto)]

mod commands;
mod job;
mod make;
mod node;
mod replay;
pub mod run;
mod tick;
