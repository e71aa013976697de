//! The calls that a system in memory tells, for contracts alone.

ghost use Rattle.std.specs.Prelude.{◌≡◌, [], List};
ghost use Rattle.std.specs.Borrow.{ftrue};
ghost use Rattle.libc.specs.declared.types.pollfd.{pollfd};
ghost use Rattle.system_calls.specs.Calls.{Call};

use crate::made::Made;
use std::marker::Model;

/// The calls that were told, the latest first, and what poll was asked last. Contracts alone see them: it takes no memory, and
/// its calls do nothing.
#[derive(Drop)]
pub struct Ledger {
    pub ghost calls: { List Call },
    pub ghost asked: { List pollfd },
}

// It owns nothing.
impl Model for Ledger {
    ghost also_owns = { λ _. ftrue };
}

impl Ledger {
    ghost use Rattle.system_memory.specs.Told.{calls_with, asked_with};

    /// None so far.
    pub fn new() -> Ledger
        ensures { (result.calls ≡ []) × (result.asked ≡ []) }
    {
        Ledger {}
    }

    /// With one more.
    pub fn and(&self, _made: &Made<'_>) -> Ledger
        ensures { (result.calls ≡ calls_with _made.now self.now.asked self.now.calls) × (result.asked ≡ asked_with _made.now self.now.asked) }
    {
        Ledger {}
    }
}
