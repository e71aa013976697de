//! A node's machine over the system: its files, its listener and connections, its posts and its clock.
#![tactic(auto)]

mod arriving;
pub mod connection;
mod deadlines;
pub mod departures;
pub mod disk;
mod faults;
pub mod file_site;
mod framing;
mod looked;
mod looking;
mod names;
pub mod node_site;
pub mod open_file;
pub mod outgoing;
mod pages;
mod resends;
pub mod resolved_names;
mod showing;
mod spares;
mod ticks;
pub mod troubles;
pub mod waiting;
