//! The events that bring a world to rest: each node that is down comes up, and then eight times each node ticks and all that it
//! and the others post in answer is delivered.
#![tactic(auto)]

pub mod holdings;
pub mod run_error;
pub mod settle;
mod settling_world;
