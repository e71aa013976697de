//! A node's book from what it kept of its journal.
#![tactic(auto)]

pub mod recover;
