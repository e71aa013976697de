//! A schedule played over nodes, each on a machine in memory: its lines are done to them, and what is printed is of the events that their calls were.
#![tactic(auto)]

mod deliver;
mod happenings;
pub mod laws;
mod lines;
mod message_bytes;
mod mirroring;
mod play;
pub mod play_error;
pub mod replay;
mod rest;
