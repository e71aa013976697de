//! A journal in two files: bodies behind gates, of which any crash leaves all that were appended.
#![tactic(auto)]

pub mod append;
pub mod body;
pub mod compact;
pub mod file_bodies;
pub mod frame;
pub mod journal;
pub mod load;
pub mod read;
pub mod records;
pub mod scan;
pub mod spare;
pub mod version;
