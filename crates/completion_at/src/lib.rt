//! A node's activities: the initiators of transactions, and what each event and each request does to them.
#![tactic(auto)]

pub mod activities;
pub mod activity;
mod due;
mod posts;
pub mod requests;
mod rules;
