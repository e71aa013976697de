//! What a journal's two files stand for, in words and as a line for an audit.
#![tactic(auto)]

pub mod entries;
pub mod hex_line;
pub mod laws;
pub mod open_lines;
pub mod page;
pub mod record_lines;
pub mod report;
pub mod standing;
pub mod words;
