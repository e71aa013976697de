//! Tests of a node. They stand apart, since a crate with tests is proved twice.
#![tactic(auto)]

#[cfg(test)]
mod commits;
#[cfg(test)]
mod faults;
#[cfg(test)]
mod four;
#[cfg(test)]
mod host;
#[cfg(test)]
mod hostile_requests;
#[cfg(test)]
mod links;
#[cfg(test)]
mod locals;
#[cfg(test)]
mod memory;
#[cfg(test)]
mod net;
#[cfg(test)]
mod nodes;
#[cfg(test)]
mod peer;
#[cfg(test)]
mod replies;
#[cfg(test)]
mod shrinks;
#[cfg(test)]
mod starts;
#[cfg(test)]
mod turns;
