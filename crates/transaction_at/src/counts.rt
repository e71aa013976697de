//! How many seats of a transaction are in each of the groups that a message at one seat asks for.

ghost use Rattle.std.specs.Prelude.{◌≡◌, ◌<◌, ◌+◌, ◌-◌, ◌^◌, [], nat_eq};
ghost use Rattle.transaction_at.specs.Counts.{IsSmall, counted, less, marks, more, one, unanswered_of};
ghost use Rattle.transaction_at.specs.Groups.{stands};

use crate::seats::{Group, stands};
use crate::transaction::Enlistment;
use at_base::notice::Kind;
use at_tables::cells::State;

/// How many seats of a list are in each of these groups.
#[derive(Clone, Copy, Debug)]
pub struct Counts {
    /// Volatile, and Active or Preparing.
    pub volatile: usize,
    /// Durable, and Active or Preparing.
    pub durable: usize,
    /// Durable, and not left.
    pub staying: usize,
    /// Aborting.
    pub aborting: usize,
    /// Asked, and not yet answered.
    pub asked: usize,
}

/// Whether a seat of this kind, in this state, is in the group, as a number.
fn one_if(kind: Kind, state: State, group: Group) -> usize
    ensures { result ≡ one (stands group kind state) }
{
    if stands(kind, state, group) { 1 } else { 0 }
}

impl Counts {
    /// No seats.
    pub fn none() -> Counts
        ensures { result ≡ counted [] }
    {
        Counts {
            volatile: 0,
            durable: 0,
            staying: 0,
            aborting: 0,
            asked: 0,
        }
    }

    /// One seat of this kind, in this state.
    fn one(kind: Kind, state: State) -> Counts
        ensures { result ≡ marks kind state }
    {
        Counts {
            volatile: one_if(kind, state, Group::Unanswered(Kind::Volatile)),
            durable: one_if(kind, state, Group::Unanswered(Kind::Durable)),
            staying: one_if(kind, state, Group::DurableStaying),
            aborting: one_if(kind, state, Group::In(State::Aborting)),
            asked: one_if(kind, state, Group::Asked),
        }
    }

    /// Both together.
    #[tactic(auto, unfolding(crate::specs::Counts::IsSmall))]
    fn plus(self, other: Counts) -> Counts
        requires these { IsSmall self }
        requires others { IsSmall other }
        ensures { result ≡ more self other }
    {
        Counts {
            volatile: self.volatile + other.volatile,
            durable: self.durable + other.durable,
            staying: self.staying + other.staying,
            aborting: self.aborting + other.aborting,
            asked: self.asked + other.asked,
        }
    }

    /// Without these.
    fn minus(self, other: Counts) -> Counts
        ensures { result ≡ less self other }
    {
        Counts {
            volatile: self.volatile.saturating_sub(other.volatile),
            durable: self.durable.saturating_sub(other.durable),
            staying: self.staying.saturating_sub(other.staying),
            aborting: self.aborting.saturating_sub(other.aborting),
            asked: self.asked.saturating_sub(other.asked),
        }
    }

    /// With one seat more.
    #[tactic(auto, using(crate::proofs::SeatCounts::small_marks))]
    pub fn with(self, kind: Kind, state: State) -> Counts
        requires { IsSmall self }
        ensures { result ≡ more self (marks kind state) }
    {
        self.plus(Counts::one(kind, state))
    }

    /// Where a seat of this kind goes from one state into another.
    pub fn moved(self, kind: Kind, from: State, to: State) -> Counts
        requires { IsSmall self }
        ensures { result ≡ less (more self (marks kind to)) (marks kind from) }
    {
        self.with(kind, to).minus(Counts::one(kind, from))
    }

    /// How many of the kind are Active or Preparing.
    pub fn unanswered(self, kind: Kind) -> usize
        ensures { result ≡ unanswered_of kind self }
    {
        match kind {
            Kind::Volatile => self.volatile,
            Kind::Durable => self.durable,
        }
    }
}

/// How these seats are counted.
#[tactic(auto, using(crate::proofs::SeatCounts::counted_more, crate::proofs::SeatCounts::small_taken))]
pub fn counted(seats: &[Enlistment]) -> Counts
    ensures { result ≡ counted seats.now }
{
    let mut counts = Counts::none();
    for seat in seats {
        counts = counts.with(seat.kind, seat.state);
    }
    counts
}
