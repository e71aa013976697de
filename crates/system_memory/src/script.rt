//! What calls do in place of their work, and what is kept of them.

use std::time::Duration;

/// The calls, by name.
#[derive(Clone, Copy, Debug, PartialEq, Eq)]
pub enum Name {
    Open,
    OpenFolder,
    Duplicate,
    Examine,
    Lock,
    ReadAt,
    WriteAt,
    Sync,
    Forget,
    Listen,
    Accept,
    Resolve,
    Connect,
    Poll,
    Read,
    Write,
    ShutDown,
    Monotonic,
}

/// How many names there are.
pub const NAMES: usize = 18;

/// What a call does in place of its work.
#[derive(Clone, Copy, Debug, PartialEq, Eq)]
pub enum Act {
    /// It fails with this number of an error.
    Fail(i32),
    /// It moves so many bytes at most.
    AtMost(usize),
    /// It takes so many milliseconds.
    Lasts(u64),
}

/// When a call acts: the n-th of this name, or of all where none is given, from 1 on, and each `every` calls behind it; none
/// behind it where that is 0.
#[derive(Clone, Copy, Debug, PartialEq, Eq)]
pub struct Rule {
    pub name: Option<Name>,
    pub n: usize,
    pub every: usize,
    pub act: Act,
}

impl Rule {
    /// Whether it is about the n-th call of this name, which is the m-th of all.
    pub(crate) fn is_for(&self, name: Name, n: usize, m: usize) -> bool {
        match self.name {
            Some(wanted) => wanted == name && self.falls(n),
            None => self.falls(m),
        }
    }

    fn falls(&self, n: usize) -> bool {
        if n < self.n {
            return false;
        }
        let behind = n - self.n;
        if self.every == 0 {
            behind == 0
        } else {
            behind % self.every == 0
        }
    }
}

/// A call that was made.
#[derive(Clone, Copy, Debug, PartialEq, Eq)]
pub struct Note {
    pub name: Name,
    /// The number of the file, the listener or the connection, where it is of one.
    pub number: Option<i32>,
    /// The place in the file, the port, or for how many milliseconds poll waits: 2^64 - 1 where that is without a limit.
    pub at: u64,
    /// How many bytes there was to move, or how many numbers poll was asked of.
    pub bytes: usize,
    /// Whether it succeeded.
    pub done: bool,
    /// When it began.
    pub time: Duration,
}
