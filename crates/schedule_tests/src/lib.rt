//! Tests of schedules. They stand apart, since a crate with tests is proved twice.
#![tactic(auto)]

#[cfg(test)]
mod initiator;
#[cfg(test)]
mod lines;
