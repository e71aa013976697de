//! SOAP 1.1: envelopes opened and built, faults built, and the values that elements hold.
#![tactic(auto)]

pub mod build;
pub mod elements;
pub mod envelope;
pub mod fault;
pub mod trees;
pub mod value;
