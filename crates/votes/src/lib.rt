//! What participants' votes and the outcomes rest on, in every run.
#![tactic(auto)]

pub mod laws;
