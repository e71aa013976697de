//! The call of a node that is armed.

use site_memory::arm::Choice;

/// A call of a node's machine, counted from the beginning of an event, from 1: none, one that fails, or one at which the machine stops and
/// leaves what was chosen.
#[derive(Clone, Copy, Debug, PartialEq, Eq)]
pub enum Armed {
    No,
    Fail(u32),
    Stop(u32, Choice),
}
