//! Tests of records, of the state tables, of what a node posts, and of leaves and activities. They stand apart, since a
//! crate with tests is proved twice.
#![tactic(auto)]

#[cfg(test)]
mod activities;
#[cfg(test)]
mod leaves;
#[cfg(test)]
mod posts;
#[cfg(test)]
mod records;
#[cfg(test)]
mod shared;
#[cfg(test)]
mod tables;
