//! Tests of journals over a machine in memory, and of their records. They stand apart, since a crate with tests is proved
//! twice.
#![tactic(auto)]

#[cfg(test)]
mod appends;
#[cfg(test)]
mod bodies;
#[cfg(test)]
mod compacts;
#[cfg(test)]
mod files;
#[cfg(test)]
mod journals;
#[cfg(test)]
mod letter_journals;
#[cfg(test)]
mod loads;
