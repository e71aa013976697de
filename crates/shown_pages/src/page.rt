//! Pages, and what a machine tells for them.

/// A page that is asked for.
#[derive(Clone, Copy, Debug, PartialEq, Eq)]
pub enum Page {
    /// What the node holds, for a person.
    Overview,
    /// The same, for a program.
    Status,
    /// That it serves.
    Health,
}

/// What a machine counted since its listener was opened, and its clock.
#[derive(Clone, Copy, Debug, PartialEq, Eq)]
pub struct Counts {
    /// Its clock, in milliseconds.
    pub clock: u64,
    /// For how many milliseconds it has listened.
    pub up: u64,
    /// How many connections had a turn.
    pub taken: u64,
    /// How many of these couldn't be read.
    pub unread: u64,
    /// How many requests were refused as a web page's.
    pub foreign: u64,
    /// How many answers and posts were lost.
    pub lost: u64,
}
