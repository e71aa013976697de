//! Tests of the outside in memory, and of the files and the network of a real machine. They stand apart, since a crate with
//! tests is proved twice.
#![tactic(auto)]

#[cfg(test)]
mod crashes;
#[cfg(test)]
mod files;
#[cfg(test)]
mod numbers;
#[cfg(test)]
mod once;
#[cfg(test)]
mod peers;
