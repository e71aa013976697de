//! A device call that fails, or at which a node stops: a write, a sync, an answer or a post.

use schedules::line::Leaves;

/// What becomes of a call.
#[derive(Clone, Copy, Debug, PartialEq, Eq)]
pub enum Fault {
    /// It fails.
    Fail,
    /// Its node stops at it, and leaves this.
    Stop { leaves: Leaves },
}

/// A call of a node, numbered from 1 from now on, and what becomes of it.
#[derive(Clone, Copy, Debug, PartialEq, Eq)]
pub struct Armed {
    pub call: u32,
    pub fault: Fault,
}
