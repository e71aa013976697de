//! What a machine shows of a node, to who asks for it, beside the node's turns.
#![tactic(auto)]

mod memory;
pub mod page;
pub mod pages;
pub mod showing;
