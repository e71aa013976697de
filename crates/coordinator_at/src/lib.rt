//! A node's transactions: how they are made, which participants they accept, what they do by themselves, and what each
//! event does to them.
#![tactic(auto)]

pub mod counted;
pub mod create;
pub mod due;
mod holdings;
mod recover;
pub mod register;
pub mod transactions;
