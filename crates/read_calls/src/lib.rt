//! Reads what the calls of one event come to off the log of the machine that made them.
#![tactic(auto)]

pub mod reading;
