//! What a core decided, before it is done.

ghost use Rattle.std.specs.Prelude.{◌≡◌, option_copied};
ghost use Rattle.by_id.specs.Plans.{branch_of, draws, entry_of, making, notes_time, still, unchanged};

use crate::list::Alteration;
use at_base::outs::{Effects, OutList, Outs};
use at_base::record::Record;
use std::alloc::Global;

/// One way on: what becomes of the list, and what is sent and happened.
#[derive(Debug, PartialEq, Eq, Drop)]
pub struct Branch<T, M> {
    pub change: Alteration<T, M>,
    pub outs: Outs,
}

/// What an event does to a list: at once, or behind one record. To do it takes no memory.
#[derive(Debug, PartialEq, Eq)]
pub enum Plan<T, M> {
    Plain(Branch<T, M>),
    Recorded {
        entry: Record,
        /// Where the record stands in the journal.
        landed: Branch<T, M>,
        /// Where it is certainly absent.
        absent: Branch<T, M>,
        /// Whether the step is undone there, and so notes no time.
        undone: bool,
    },
}

impl<T: Drop, M: Drop> Drop for Plan<T, M> {
    fn drop(self) {
        match self {
            Plan::Plain(_branch) => {}
            Plan::Recorded {
                entry: _entry,
                landed: _landed,
                absent: _absent,
                undone: _undone,
            } => {}
        }
    }
}

/// The list stays as it is, and only this answer is sent.
pub fn unchanged<T: Drop, M: Drop>(alloc: Global, answer: OutList) -> Branch<T, M>
    ensures { result ≡ unchanged answer }
{
    Branch {
        change: Alteration::Keep,
        outs: Outs {
            outs: answer,
            effects: Effects::from_vec(Vec::new(alloc)),
        },
    }
}

impl<T: Drop, M: Drop> Plan<T, M> {
    /// Nothing is done, and only this answer is sent.
    pub fn still(alloc: Global, answer: OutList) -> Plan<T, M>
        ensures { result ≡ still answer }
    {
        Plan::Plain(unchanged(alloc, answer))
    }

    /// One item more, and this is sent.
    pub fn making(alloc: Global, item: T, answer: OutList) -> Plan<T, M>
        ensures { result ≡ making item answer }
    {
        Plan::Plain(Branch {
            change: Alteration::Add(item),
            outs: Outs {
                outs: answer,
                effects: Effects::from_vec(Vec::new(alloc)),
            },
        })
    }

    /// The record that is appended before the plan is done.
    pub fn entry(&self) -> Option<&Record>
        ensures { option_copied result ≡ entry_of self.now }
    {
        match self {
            Plan::Plain(_) => None,
            Plan::Recorded { entry, .. } => Some(entry),
        }
    }

    /// What is sent and happened, where the record landed, and where it didn't.
    pub fn outs(&self, landed: bool) -> &Outs
        ensures { result.now ≡ (branch_of self.now landed).outs }
    {
        match self {
            Plan::Plain(branch) => &branch.outs,
            Plan::Recorded {
                landed: stands,
                absent,
                ..
            } => { if landed { &stands.outs } else { &absent.outs } }
        }
    }

    /// The branch that is done.
    pub fn into_branch(self, landed: bool) -> Branch<T, M>
        ensures { result ≡ branch_of self landed }
    {
        match self {
            Plan::Plain(branch) => branch,
            Plan::Recorded {
                entry: _entry,
                landed: stands,
                absent,
                undone: _undone,
            } => { if landed { stands } else { absent } }
        }
    }

    /// Whether doing it notes the time: a step that is undone doesn't.
    pub fn notes_time(&self, landed: bool) -> bool
        ensures { result ≡ notes_time self.now landed }
    {
        match self {
            Plan::Plain(_) => true,
            Plan::Recorded { undone, .. } => landed || !*undone,
        }
    }

    /// Whether doing it makes an item, which draws an id.
    pub fn draws(&self, landed: bool) -> bool
        ensures { result ≡ draws self.now landed }
    {
        match self {
            Plan::Plain(branch) => branch.change.is_addition(),
            Plan::Recorded {
                landed: stands,
                absent,
                ..
            } => {
                if landed {
                    stands.change.is_addition()
                } else {
                    absent.change.is_addition()
                }
            }
        }
    }
}
