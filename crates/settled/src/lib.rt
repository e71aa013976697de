//! Settling: every world comes to rest.
#![tactic(auto)]

pub mod laws;
