//! What a node shows of itself to who asks: its status as JSON, the same as a page for a person, and that it serves.
#![tactic(auto)]

mod json;
mod overview;
pub mod view;
mod words;
