//! The outside: what a source, a sink and a node's machine may do, and counts of their faults.
#![tactic(auto)]

pub mod attachments;
pub mod memory;
pub mod sink;
pub mod site;
pub mod source;
pub mod sure_site;
