//! Tests of envelopes, headers, bodies, requests, arrivals, posts and reports, and of the spellings of each message. They
//! stand apart, since a crate with tests is proved twice.
#![tactic(auto)]

#[cfg(test)]
mod arrived_messages;
#[cfg(test)]
mod bodies;
#[cfg(test)]
mod envelopes;
#[cfg(test)]
mod headers;
#[cfg(test)]
mod posts;
#[cfg(test)]
mod reports;
#[cfg(test)]
mod requests;
#[cfg(test)]
mod shared;
