//! WS-Addressing 1.0: endpoints, and where what is sent to them goes.
#![tactic(auto)]

pub mod destination;
pub mod endpoint;
pub mod headers;
mod long_space;
pub mod post_to;
pub mod request;
pub mod stored_endpoint;
pub mod writer;
