//! The audit of several nodes' journals: whether the outcomes that they record agree, whatever the transactions, through any depth
//! of interposition.
#![tactic(auto)]

pub mod audit;
pub mod item;
pub mod log;
pub mod named;
pub mod outcome;
pub mod outcomes;
pub mod records;
pub mod subordinate;
pub mod superiors;
pub mod verdict;
pub mod verdicts;
