//! Tests of audits. They stand apart, since a crate with tests is proved twice.
#![tactic(auto)]

#[cfg(test)]
mod reports;
