//! Tests of what the calls of one event are read as. They stand apart, since a crate with tests is proved twice.
#![tactic(auto)]

#[cfg(test)]
mod rows;
