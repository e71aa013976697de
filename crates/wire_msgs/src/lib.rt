//! Messages on the wire: what arrived, from the bytes of a request (WS-Coordination 1.2, WS-AtomicTransaction 1.2, SOAP
//! 1.1, WS-Addressing 1.0).
#![tactic(auto)]

mod body;
pub mod decode;
pub mod form;
pub mod part;
pub mod refusal;
mod target;
