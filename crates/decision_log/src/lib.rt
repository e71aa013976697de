//! What a node's journal keeps: tokens of what is recorded, the live records, and what may be sent.
#![tactic(auto)]

pub mod fold;
pub mod further_record;
pub mod keep;
pub mod kept;
pub mod kept_plan;
pub mod ready;
pub mod shrink;
pub mod token;
