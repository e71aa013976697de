//! Tests of whole books, which post to one another. They stand apart, since a crate with tests is proved twice.
#![tactic(auto)]

#[cfg(test)]
mod books;
#[cfg(test)]
mod lines;
#[cfg(test)]
mod net;
#[cfg(test)]
mod words;
