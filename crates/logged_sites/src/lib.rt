//! A node's machine that says, line by line, what it is asked and what becomes of it.
#![tactic(auto)]

pub mod departing;
mod heads;
pub mod log;
pub mod logged_site;
mod notes;
