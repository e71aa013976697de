//! The whole book of a node: its transactions, leaves and activities, and the links between a subordinate and its
//! superior.
#![tactic(auto)]

pub mod book;
pub mod plan;
mod strangers;
