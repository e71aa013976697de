//! A node: at each moment its journal, answers and posts are those of a prefix of its steps.
#![tactic(auto)]

pub mod connection_request;
pub mod due;
pub mod fault;
pub mod laws;
pub mod local;
pub mod node;
pub mod opened_journal;
pub mod refusals;
pub mod role;
pub mod send;
pub mod shrink;
pub mod size;
pub mod start;
pub mod step;
pub mod text;
pub mod turn;
