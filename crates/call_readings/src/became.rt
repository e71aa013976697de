//! What became of a node in an event.

use site_memory::arm::Choice;

/// What became of a node in an event, by the calls that it made.
#[derive(Clone, Copy, Debug, PartialEq, Eq)]
pub enum Became {
    /// It is up.
    Stays,
    /// It stopped at a call of its steps or at one before them: so many of the calls that it made are kept, and a crash behind them leaves
    /// what was chosen.
    Falls { kept: usize, choice: Choice },
    /// It halted as a record was appended, which may stand or not, and goes down on the files as they read.
    Halts,
    /// Its steps were done, and it stopped at a call by which its journal is written anew.
    FallsAnew { kept: usize, choice: Choice },
    /// Its steps were done, and it halted as its journal was written anew: either text may stand.
    HaltsAnew,
}
