//! The system that a program runs on.
#![tactic(auto)]

pub mod real_system;
