//! Several nodes, the messages between them, and what happens to them: runs of the protocol's model.
#![tactic(auto)]

mod arrivals;
pub mod event;
mod holdings;
pub mod laws;
mod left_records;
pub mod luck;
mod node;
mod places;
pub mod posts;
mod scene;
pub mod step_outs;
mod step_posts;
mod walk;
pub mod world;
