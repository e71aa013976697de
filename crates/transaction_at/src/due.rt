//! When a transaction is due: it expires, its aborting ends, or it sends again (WS-Coordination 1.2, section 2.1; this
//! project's profile).

ghost use Rattle.std.specs.Prelude.{ℕ, List, ◌≡◌, ◌&&◌};
ghost use Rattle.at_base.specs.Numbers.{Numbers};
ghost use Rattle.at_base.specs.declared.notice.Kind.{Kind};
ghost use Rattle.at_model.specs.Due.{has_come, is_quiet, is_over, may_expire, is_aborting, unanswered_seat, is_some_post, link_again, links_again, transaction_again, transaction_due};
ghost use Rattle.transaction_at.specs.Causes.{reached_of};
ghost use Rattle.transaction_at.specs.PhaseNames.{phase_of};

use crate::moves::Move;
use crate::transaction::{Link, Phase, Request, Superior, Transaction};
use at_base::event::Moment;
use at_base::id::Id;
use at_base::limits::ABORTING_FOR;
use at_base::notice::Notice;
use at_tables::cells::State;
use by_id::list::Identified;
use by_id::times::{has_come, is_quiet};

/// Why a transaction is due.
#[derive(Clone, Copy, Debug, PartialEq, Eq)]
pub enum Cause {
    /// Its time is over before it was decided.
    Expired,
    /// It was Aborting for long enough.
    Over,
    /// What it sent wasn't answered.
    Unanswered,
    /// It isn't due.
    Nothing,
}

/// Whether it aborted long enough ago.
fn is_over(now: u64, aborted: Option<u64>) -> bool
    ensures { result ≡ is_over now aborted }
{
    match aborted {
        Some(aborted) => ABORTING_FOR <= now && aborted <= now - ABORTING_FOR,
        None => false,
    }
}

/// Whether a transaction may still expire in this phase.
pub fn may_expire(phase: Phase) -> bool
    ensures { result ≡ may_expire (phase_of phase) }
{
    match phase {
        Phase::Registering | Phase::Active | Phase::Volatile | Phase::Durable => true,
        Phase::Voted | Phase::Committing | Phase::Aborting => false,
    }
}

/// Whether the phase is Aborting.
fn is_aborting(phase: Phase) -> bool
    ensures { result ≡ is_aborting (phase_of phase) }
{
    match phase {
        Phase::Aborting => true,
        Phase::Registering
        | Phase::Active
        | Phase::Volatile
        | Phase::Durable
        | Phase::Voted
        | Phase::Committing => false,
    }
}

/// What a seat in this state was asked and hasn't answered.
pub fn unanswered_seat(state: State) -> Option<Notice>
    ensures { result ≡ unanswered_seat state }
{
    match state {
        State::Preparing => Some(Notice::Prepare),
        State::Committing => Some(Notice::Commit),
        State::Aborting => Some(Notice::Rollback),
        State::None
        | State::Registering
        | State::Active
        | State::Prepared
        | State::PreparedSuccess
        | State::Completing
        | State::Done => None,
    }
}

/// Whether a link waits for an answer to what it can send again.
fn does_link_wait(request: &Option<Request>, link: &Link) -> bool
    ensures { (base : List ℕ) (id : Numbers) (kind : Kind) → result ≡ is_some_post (link_again base id kind request.now link.now) }
{
    match link.state {
        State::Registering => request.is_some(),
        State::PreparedSuccess => link.coordinator.is_some(),
        State::None
        | State::Active
        | State::Preparing
        | State::Prepared
        | State::Committing
        | State::Aborting
        | State::Completing
        | State::Done => false,
    }
}

/// Whether one of a subordinate's links waits.
#[tactic(auto, using(crate::proofs::Resends::some_of_both))]
fn do_links_wait(superior: &Option<Superior>) -> bool
    ensures { (base : List ℕ) (id : Numbers) → result ≡ is_some_post (links_again base id superior.now) }
{
    match superior {
        Some(superior) => does_link_wait(&superior.request, &superior.volatile)
            || does_link_wait(&superior.request, &superior.durable),
        None => false,
    }
}

/// Whether a transaction waits for an answer to what it can send again.
#[tactic(auto, using(crate::proofs::Resends::some_of_both))]
fn waits(transaction: &Transaction) -> bool
    ensures { (base : List ℕ) → result ≡ is_some_post (transaction_again base transaction.now) }
{
    do_links_wait(&transaction.superior) || transaction.seats.is_awaited()
}

/// Whether a transaction has expired.
fn is_expired(moment: &Moment, transaction: &Transaction) -> bool
    ensures { result
        ≡ (may_expire transaction.now.phase && has_come moment.entry.now.now transaction.now.deadline) }
{
    may_expire(transaction.phase) && has_come(moment.now, transaction.deadline)
}

/// Whether a transaction was Aborting for long enough.
fn is_rolled_back(moment: &Moment, transaction: &Transaction) -> bool
    ensures { result
        ≡ (is_aborting transaction.now.phase && is_over moment.entry.now.now transaction.now.aborted) }
{
    is_aborting(transaction.phase) && is_over(moment.now, transaction.aborted)
}

/// Whether a transaction has waited long enough to send again.
fn is_unanswered(moment: &Moment, transaction: &Transaction) -> bool
    ensures { result
        ≡ (is_quiet moment.entry.now.now transaction.now.sent
        && is_some_post (transaction_again moment.entry.now.base transaction.now)) }
{
    is_quiet(moment.now, transaction.sent) && waits(transaction)
}

/// Why a transaction is due: the first cause that holds.
pub fn cause_of(moment: &Moment, transaction: &Transaction) -> Cause
    ensures { reached_of result ≡ transaction_due moment.entry.now transaction.now }
{
    if is_expired(moment, transaction) {
        Cause::Expired
    } else if is_rolled_back(moment, transaction) {
        Cause::Over
    } else if is_unanswered(moment, transaction) {
        Cause::Unanswered
    } else {
        Cause::Nothing
    }
}

impl Identified for Transaction {
    ghost use Rattle.at_model.specs.Book.{transaction_id};
    ghost use Rattle.at_model.specs.Due.{transaction_due};
    ghost use Rattle.at_model.specs.Step.{is_reached};
    ghost use Rattle.transaction_at.specs.Moves.{moved};

    type Move = Move;

    ghost id_of = { transaction_id };

    ghost is_due_at = { λ m t. is_reached (transaction_due m t) };

    ghost moved = { moved };

    fn id(&self) -> Id {
        self.id
    }

    fn is_due(&self, moment: &Moment) -> bool {
        match cause_of(moment, self) {
            Cause::Expired | Cause::Over | Cause::Unanswered => true,
            Cause::Nothing => false,
        }
    }

    fn make(&mut self, by: Move) {
        by.make(self);
    }
}
