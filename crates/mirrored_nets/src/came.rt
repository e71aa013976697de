//! What an event came to at a node.

use site_memory::arm::Choice;

/// What became of a node in an event.
#[derive(Clone, Copy, Debug, PartialEq, Eq)]
pub enum Came {
    /// It is up.
    Stays,
    /// It stopped: so many of the calls that it made are kept, and a crash behind them leaves what was chosen.
    Falls { kept: usize, choice: Choice },
    /// It halted, since a record may stand or not, and goes down on the files as they read.
    Halts,
}
