//! Tests of serving. They stand apart, since a crate with tests is proved twice.
#![tactic(auto)]

#[cfg(test)]
mod nodes;
#[cfg(test)]
mod waits;
