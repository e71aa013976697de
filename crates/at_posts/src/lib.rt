//! What a node sends: its messages, and its answers on the connection.
#![tactic(auto)]

pub mod answers;
pub mod kept;
pub mod list;
pub mod posts;
