//! A system in memory for tests: its calls answer as a script says, and it tells them.
#![tactic(auto)]

pub mod handle;
pub mod ledger;
pub mod lent;
pub mod made;
pub mod memory;
pub mod peer;
pub mod script;
pub mod world;
