//! HTTP/1.1 posts (RFC 9110; RFC 9112): the head of a request, read piece by piece; what it asks, or the first refusal
//! that it draws; its body, of a known length or in chunks; and the bytes of answers and posts.
#![tactic(auto)]

mod body;
mod chunks;
mod connection;
mod content;
mod fields;
mod framing;
mod head;
mod head_request;
pub mod laws;
mod lengths;
mod places;
mod raw_bytes;
pub mod refusal;
pub mod request;
mod tail;
mod trailers;
pub mod writer;
