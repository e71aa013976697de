//! Seals of addresses: what a node puts behind the path of an address that it gives out. Who doesn't know the node's secret
//! can make none, and who holds an address can use that one and no other.
#![tactic(auto)]

mod hmac;
pub mod laws;
pub mod seal;
