//! A node's leaves: the participants that do work of their own, and what each event does to them.
#![tactic(auto)]

pub mod due;
pub mod leaf;
pub mod leaves;
pub mod posts;
mod recover;
pub mod rules;
pub mod work;
