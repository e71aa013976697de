//! Laws of the model: over single steps, over recovery, and over every run of a world.
#![tactic(auto)]

pub mod rules;
pub mod runs;
pub mod steps;
