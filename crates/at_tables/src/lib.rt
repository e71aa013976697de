//! The state tables of WS-AtomicTransaction 1.2 (section 10), in this project's profile: what each message does in each
//! state, at a coordinator's seat, at a participant, at the completion seat and at the initiator.
#![tactic(auto)]

pub mod cells;
pub mod laws;
pub mod names;
