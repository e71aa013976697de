//! Messages on the wire, written: what is posted, and what a refusal is answered with (WS-Coordination 1.2,
//! WS-AtomicTransaction 1.2, SOAP 1.1, WS-Addressing 1.0).
#![tactic(auto)]

mod body;
pub mod encode;
pub mod fault;
mod headers;
pub mod laws;
