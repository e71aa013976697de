//! From the message that a request's bytes mean to what a node's book steps on.
#![tactic(auto)]

pub mod book_arrival;
pub mod laws;
