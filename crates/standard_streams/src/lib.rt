//! Standard input, output and error as a source and sinks.
#![tactic(auto)]

pub mod reading;
pub mod writing;
