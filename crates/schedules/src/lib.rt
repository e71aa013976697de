//! Schedules and the lines of an initiator: their lines, the exact readers, and schedules that are made from a seed.
#![tactic(auto)]

pub mod generator;
pub mod initiator_laws;
pub mod initiator_line;
pub mod initiator_reader;
mod initiator_words;
pub mod laws;
pub mod line;
mod meaning;
pub mod reader;
pub mod values;
pub mod words;
