//! Tests of transactions: what a message does at their parts, and what an event does to all of a node. They stand apart,
//! since a crate with tests is proved twice.
#![tactic(auto)]

#[cfg(test)]
mod moves;
#[cfg(test)]
mod shared;
#[cfg(test)]
mod transactions;
