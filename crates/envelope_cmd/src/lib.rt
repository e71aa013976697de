//! What the commands `check` and `cell` print for one envelope.
#![tactic(auto)]

pub mod cell;
pub mod check;
pub mod laws;
mod lines;
mod names;
pub mod output;
mod refusals;
mod table;
