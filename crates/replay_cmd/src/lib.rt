//! What a schedule's report is made of: the words of its lines, and of what happens in a world; and how the schedule of a seed comes out.
#![tactic(auto)]

pub mod arms;
pub mod asked_events;
mod course;
pub mod deliveries;
pub mod endings;
pub mod event_lines;
pub mod laws;
pub mod lines;
pub mod options;
pub mod requests;
pub mod steps;
pub mod summary;
