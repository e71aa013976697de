//! A node's transactions: what a transaction is, and how one moves.
#![tactic(auto)]

pub mod abort;
pub mod answer;
pub mod at_completion;
pub mod at_link;
pub mod at_seat;
mod counts;
pub mod draft;
pub mod due;
mod holders;
pub mod links;
pub mod moves;
mod numbers;
pub mod phases;
pub mod room;
pub mod seats;
pub mod transaction;
