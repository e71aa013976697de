//! What is asked of nodes in memory is done by them first, and read off their machines as events of a world.
#![tactic(auto)]

pub mod armed_call;
pub mod fault;
pub mod host;
pub mod laws;
pub mod left;
pub mod made;
pub mod net;
pub mod starts;
