//! Serving: a node comes up on its machine, does the lines of the program that runs it, and serves connections; and what it
//! prints of that.
#![tactic(auto)]

pub mod answer;
pub mod laws;
mod lines;
pub mod request;
pub mod serve;
pub mod service;
pub mod service_end;
mod session;
