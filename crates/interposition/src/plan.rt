//! What an event does to a book, before it is done.

ghost use Rattle.std.specs.Prelude.{◌≡◌, option_copied};
ghost use Rattle.interposition.specs.PlanResults.{part_entry, part_outs, recorded, sent};

use at_base::outs::Outs;
use at_base::record::Record;
use by_id::plan;
use completion_at::activity::Activity;
use participant_at::leaf::Leaf;
use transaction_at::moves::Move;
use transaction_at::transaction::Transaction;

/// The list of a book that an event moves.
#[derive(Drop)]
pub enum Part {
    /// None: this is sent, and the time is noted or not.
    Still { noted: bool, outs: Outs },
    Transactions(plan::Plan<Transaction, Move>),
    Leaves(plan::Plan<Leaf, ()>),
    Activities(plan::Plan<Activity, ()>),
}

/// What an event does to a book: at once, or behind one record.
pub struct Plan {
    /// The clock's time, in milliseconds.
    pub now: u64,
    pub part: Part,
}

impl Drop for Plan {
    fn drop(self) {
        let Plan {
            now: _now,
            part: _part,
        } = self;
    }
}

impl Part {
    fn entry(&self) -> Option<&Record>
        ensures { option_copied result ≡ part_entry self.entry.now }
    {
        match self {
            Part::Still { .. } => None,
            Part::Transactions(plan) => plan.entry(),
            Part::Leaves(plan) => plan.entry(),
            Part::Activities(plan) => plan.entry(),
        }
    }

    fn outs(&self, landed: bool) -> &Outs
        ensures { result.now ≡ part_outs self.entry.now landed }
    {
        match self {
            Part::Still { outs, .. } => outs,
            Part::Transactions(plan) => plan.outs(landed),
            Part::Leaves(plan) => plan.outs(landed),
            Part::Activities(plan) => plan.outs(landed),
        }
    }
}

impl Plan {
    /// The time, and what is moved.
    pub(crate) fn into_parts(self) -> (u64, Part)
        ensures { result ≡ (self.now, self.part) }
    {
        let Plan { now, part } = self;
        (now, part)
    }

    /// The record that is appended before the plan is done.
    pub fn entry(&self) -> Option<&Record>
        ensures { option_copied result ≡ recorded self.entry.now }
    {
        self.part.entry()
    }

    /// What is sent and happened, where the record landed, and where it didn't.
    pub fn outs(&self, landed: bool) -> &Outs
        ensures { result.now ≡ sent self.entry.now landed }
    {
        self.part.outs(landed)
    }
}
