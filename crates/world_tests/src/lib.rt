//! Tests of worlds. They stand apart, since a crate with tests is proved twice.
#![tactic(auto)]

#[cfg(test)]
mod ends;
#[cfg(test)]
mod faults;
#[cfg(test)]
mod rounds;
#[cfg(test)]
mod script;
#[cfg(test)]
mod words;
#[cfg(test)]
mod worlds;
