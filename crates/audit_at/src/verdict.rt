//! What is said of journals.

use at_base::id::Id;
use at_base::text::Text;

/// What the journals of several nodes say of their transactions together.
#[derive(Debug, PartialEq, Eq, Drop)]
pub enum Verdict {
    /// No two outcomes under one top differ; how many of each kind there are.
    Agreed { committed: u64, aborted: u64 },
    /// The superiors of this transaction come back to it, and of no lesser one.
    Cycle { base: Text, id: Id },
    /// Under this top one outcome is committed and another aborted, and under no lesser one.
    Split { base: Text, id: Id },
}
