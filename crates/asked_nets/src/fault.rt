//! Why what was asked for wasn't done.

/// Why it wasn't done.
#[derive(Clone, Copy, Debug, PartialEq, Eq)]
pub enum Fault {
    /// There was no memory.
    NoMemory,
    /// A file of its node's journal has no room for another record.
    Full,
    /// It can't be asked of its node.
    Apart,
}

/// The same of a node whose journal has room.
#[derive(Clone, Copy, Debug, PartialEq, Eq)]
pub(crate) enum Undone {
    /// There was no memory.
    NoMemory,
    /// It can't be asked of its node.
    Apart,
}
