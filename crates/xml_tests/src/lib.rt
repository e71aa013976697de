//! Tests of the canonical text and of the reader. They stand apart, since a crate with tests is proved twice.
#![tactic(auto)]

#[cfg(test)]
mod canonical_texts;
#[cfg(test)]
mod spellings;
