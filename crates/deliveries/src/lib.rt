//! Laws alone: among nodes that serve, what one posts is taken by the other as it was posted.
#![tactic(auto)]

pub mod laws;
