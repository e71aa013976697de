//! The endpoints of a node: their addresses, what an address names, the inverse, and which messages that takes; and the names
//! that requests of them have.
#![tactic(auto)]

pub mod addresses;
pub mod form;
pub mod target;
pub mod uris;
