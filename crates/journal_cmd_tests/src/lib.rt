//! Tests of what is printed of journals. They stand apart, since a crate with tests is proved twice.
#![tactic(auto)]

#[cfg(test)]
mod disk;
#[cfg(test)]
mod faults;
#[cfg(test)]
mod pages;
#[cfg(test)]
mod written_journals;
