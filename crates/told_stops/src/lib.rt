//! What a turn or a request does in a world in which its node goes down: the steps that counted, and what going down lost.
#![tactic(auto)]

pub mod laws;
