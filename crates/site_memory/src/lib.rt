//! A node's machine in memory: two files with the crashes of a disk, connections, posts and a clock, all of which can be set.
#![tactic(auto)]

pub mod arm;
mod buffer;
pub mod bytes;
mod calls;
pub mod device;
pub mod entry;
mod file;
pub mod held_file;
pub mod laws;
pub mod line;
pub mod links;
pub mod machine;
pub mod range;
pub mod site;
pub mod tally;
