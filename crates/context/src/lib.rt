//! The bodies of WS-Coordination 1.2: contexts, and the messages that create them and that register participants.
#![tactic(auto)]

mod children;
pub mod laws;
pub mod parameter;
pub mod reader;
pub mod writer;
