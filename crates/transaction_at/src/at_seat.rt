//! What a message does at a seat of a transaction (WS-AtomicTransaction 1.2, section 10).

ghost use Rattle.std.specs.Prelude.{◌≡◌, ◌∷◌, IfOk, [], Some, true, if◌then◌else◌};
ghost use Rattle.at_base.specs.declared.fault.Fault.TheVariants.{InvalidState};
ghost use Rattle.at_base.specs.declared.notice.Notice.TheVariants as notices;
ghost use Rattle.at_tables.specs.Tables.{coordinator_of};
ghost use Rattle.at_tables.specs.declared.cells.State.TheVariants as states;
ghost use Rattle.at_model.specs.Book.{Transaction as Known};
ghost use Rattle.at_model.specs.Abort.{abort, Alone};
ghost use Rattle.at_model.specs.Arrivals.{answer_seat, answer_left_seat, on_seat, seat_act, seat_notice};
ghost use Rattle.at_model.specs.Moves.{Goes, begin, post, stays};
ghost use Rattle.at_model.specs.Phases.{advance};
ghost use Rattle.at_model.specs.Posts.{fault_post};
ghost use Rattle.at_model.specs.Seats.{in_state, seat_in};
ghost use Rattle.transaction_at.specs.Moves.{meant};
ghost use Rattle.transaction_at.specs.Waits.{has_come};

use crate::draft::Draft;
use crate::moves::Move;
use crate::phases::{aborts, advance, ends, forgets};
use crate::seats::{is_state, only_posts, seat_notice, seat_target};
use crate::transaction::{Enlistment, Phase, Transaction};
use at_base::event::{Arrived, Moment};
use at_base::fault::Fault;
use at_base::message::Message;
use at_base::notice::{Kind, Notice};
use at_posts::list::PostList;
use at_posts::posts::{fault_post, stranger_post};
use at_tables::cells::{Act, State, coordinator_cell};
use by_id::fates::{Choice, Fate, Turn};
use std::alloc::{AllocError, Global};

/// The seat's own answer, which counts as a sending.
fn answers(
    alloc: Global,
    moment: &Moment,
    notice: Notice,
    transaction: &Transaction,
    seat: &Enlistment,
) -> Result<Choice<Transaction, Move>, AllocError>
    ensures { IfOk result
        (λ choice. meant (Some transaction.now) choice
        ≡ answer_seat moment.entry.now notice transaction.now seat.now) }
{
    let message = seat_notice(alloc, moment, transaction.id, seat, notice)?;
    let posts = PostList::alone(alloc, message)?;
    Ok(Choice::Goes(Turn::silent(alloc, Fate::Move(Move::Sent(moment.now)), posts)))
}

/// The answer of a seat that its participant has left.
fn answers_left(
    alloc: Global,
    moment: &Moment,
    notice: Notice,
    transaction: &Transaction,
    seat: &Enlistment,
) -> Result<Choice<Transaction, Move>, AllocError>
    ensures { IfOk result
        (λ choice. meant (Some transaction.now) choice
        ≡ answer_left_seat moment.entry.now notice transaction.now seat.now) }
{
    let own = seat_target(transaction.id, seat);
    let message = stranger_post(alloc, &moment.base, &own, &seat.participant, notice)?;
    Ok(only_posts(alloc, PostList::alone(alloc, message)?))
}

/// A seat answers Rollback; abort is presumed where it was left.
fn answers_rollback(
    alloc: Global,
    moment: &Moment,
    transaction: &Transaction,
    seat: &Enlistment,
) -> Result<Choice<Transaction, Move>, AllocError>
    ensures { IfOk result
        (λ choice. meant (Some transaction.now) choice
        ≡ (if in_state states.None seat.now
        then answer_left_seat moment.entry.now notices.Rollback transaction.now seat.now
        else answer_seat moment.entry.now notices.Rollback transaction.now seat.now)) }
{
    if is_state(seat.state, State::None) {
        answers_left(alloc, moment, Notice::Rollback, transaction, seat)
    } else {
        answers(alloc, moment, Notice::Rollback, transaction, seat)
    }
}

/// A fault to the participant that drew it.
fn fault_alone(
    alloc: Global,
    arrived: &Arrived,
    seat: &Enlistment,
    fault: Fault,
) -> Result<PostList, AllocError>
    ensures { IfOk result
        (λ list. list ≡ fault_post (Some seat.now.participant) arrived.now.id fault ∷ []) }
{
    let to = seat.participant.clone()?;
    PostList::alone(alloc, fault_post(alloc, Some(to), &arrived.id, fault)?)
}

/// A fault to the participant, which leaves the transaction as it stands.
fn faults(
    alloc: Global,
    arrived: &Arrived,
    seat: &Enlistment,
    fault: Fault,
) -> Result<Choice<Transaction, Move>, AllocError>
    ensures { (transaction : Known) → IfOk result
        (λ choice. meant (Some transaction) choice
        ≡ Goes (stays (post (fault_post (Some seat.now.participant) arrived.now.id fault) (begin transaction)))) }
{
    Ok(only_posts(alloc, fault_alone(alloc, arrived, seat, fault)?))
}

/// The fault InvalidState to the participant, which aborts the transaction.
fn faults_and_aborts(
    alloc: Global,
    moment: &Moment,
    arrived: &Arrived,
    transaction: &Transaction,
    seat: &Enlistment,
) -> Result<Choice<Transaction, Move>, AllocError>
    ensures { IfOk result
        (λ choice. meant (Some transaction.now) choice
        ≡ Goes (abort moment.entry.now Alone (post (fault_post (Some seat.now.participant) arrived.now.id InvalidState) (begin transaction.now)))) }
{
    let posts = fault_alone(alloc, arrived, seat, Fault::InvalidState)?;
    aborts(alloc, moment, Draft::posting(alloc, transaction, posts)?)
}

/// The seat is in this state, and nothing else is done.
fn goes_into(alloc: Global, number: u16, state: State) -> Choice<Transaction, Move>
    ensures { (transaction : Known) → meant (Some transaction) result
        ≡ Goes (stays (begin (seat_in number state transaction))) }
{
    let by = Move::Seat { number, state };
    Choice::Goes(Turn::silent(alloc, Fate::Move(by), PostList::new(alloc)))
}

/// Whether what the transaction's phase waits for has come, once the seat of this number is in this state.
fn has_come(transaction: &Transaction, number: u16, state: State) -> bool
    ensures { result ≡ has_come transaction.now.phase (seat_in number state transaction.now).seats }
{
    match transaction.phase {
        Phase::Registering | Phase::Active | Phase::Voted => false,
        Phase::Volatile => transaction
            .seats
            .answered_after(number, state, Kind::Volatile),
        Phase::Durable => transaction
            .seats
            .answered_after(number, state, Kind::Durable),
        Phase::Committing => transaction.seats.all_left_after(number, state),
        Phase::Aborting => !transaction.seats.is_aborting_after(number, state),
    }
}

/// The seat is in this state, and with it what the transaction's phase waits for has come.
#[tactic(auto, using(crate::proofs::Waits::all_left_ends, crate::proofs::Waits::rolled_back_ends))]
fn goes_on(
    alloc: Global,
    moment: &Moment,
    transaction: &Transaction,
    number: u16,
    state: State,
) -> Result<Choice<Transaction, Move>, AllocError>
    requires { has_come transaction.now.phase (seat_in number state transaction.now).seats ≡ true }
    ensures { IfOk result
        (λ choice. meant (Some transaction.now) choice
        ≡ advance moment.entry.now (begin (seat_in number state transaction.now))) }
{
    match transaction.phase {
        Phase::Committing => ends(alloc, moment, transaction),
        Phase::Aborting => Ok(forgets(alloc)),
        Phase::Registering | Phase::Active | Phase::Volatile | Phase::Durable | Phase::Voted => {
            let draft = Draft::seat_in(alloc, transaction, number, state)?;
            let choice = advance(alloc, moment, draft)?;
            Ok(choice)
        }
    }
}

/// The seat is in this state, and the transaction goes on, where what its phase waits for has come.
#[tactic(auto, using(crate::proofs::Waits::waits_on))]
fn moves(
    alloc: Global,
    moment: &Moment,
    transaction: &Transaction,
    seat: &Enlistment,
    state: State,
) -> Result<Choice<Transaction, Move>, AllocError>
    ensures { IfOk result
        (λ choice. meant (Some transaction.now) choice
        ≡ advance moment.entry.now (begin (seat_in seat.now.number state transaction.now))) }
{
    if has_come(transaction, seat.number, state) {
        goes_on(alloc, moment, transaction, seat.number, state)
    } else {
        Ok(goes_into(alloc, seat.number, state))
    }
}

/// The participant leaves its seat, and the transaction aborts.
fn leaves_and_aborts(
    alloc: Global,
    moment: &Moment,
    transaction: &Transaction,
    seat: &Enlistment,
) -> Result<Choice<Transaction, Move>, AllocError>
    ensures { IfOk result
        (λ choice. meant (Some transaction.now) choice
        ≡ Goes (abort moment.entry.now Alone (begin (seat_in seat.now.number states.None transaction.now)))) }
{
    let draft = Draft::seat_in(alloc, transaction, seat.number, State::None)?;
    let choice = aborts(alloc, moment, draft)?;
    Ok(choice)
}

/// An act of the coordinator's table at a seat.
#[tactic(auto, unfolding(at_model::specs::Arrivals::seat_act))]
fn acts(
    alloc: Global,
    moment: &Moment,
    arrived: &Arrived,
    transaction: &Transaction,
    seat: &Enlistment,
    act: Act,
) -> Result<Choice<Transaction, Move>, AllocError>
    ensures { IfOk result
        (λ choice. meant (Some transaction.now) choice
        ≡ seat_act moment.entry.now arrived.now.id transaction.now seat.now act) }
{
    match act {
        Act::SendCommit => answers(alloc, moment, Notice::Commit, transaction, seat),
        Act::SendRollback => answers_rollback(alloc, moment, transaction, seat),
        Act::FaultUnknownTransaction => faults(alloc, arrived, seat, Fault::UnknownTransaction),
        Act::FaultInvalidState => faults(alloc, arrived, seat, Fault::InvalidState),
        Act::FaultInvalidStateAndAbort => faults_and_aborts(
            alloc,
            moment,
            arrived,
            transaction,
            seat,
        ),
        Act::Leave => moves(alloc, moment, transaction, seat, State::None),
        Act::LeaveAndAbort => leaves_and_aborts(alloc, moment, transaction, seat),
        Act::Vote => moves(alloc, moment, transaction, seat, State::Prepared),
        Act::Ignore
        | Act::SendPrepared
        | Act::SendCommitted
        | Act::SendAborted
        | Act::Gather
        | Act::Commit
        | Act::AbortAndSendAborted
        | Act::RecordAndSendAborted
        | Act::Complete
        | Act::TellCommitted
        | Act::TellAborted => Ok(Choice::ignored(alloc)),
    }
}

/// A participant's notification at its seat.
#[tactic(auto, unfolding(at_model::specs::Arrivals::seat_notice))]
fn notified(
    alloc: Global,
    moment: &Moment,
    arrived: &Arrived,
    transaction: &Transaction,
    seat: &Enlistment,
    notice: Notice,
) -> Result<Choice<Transaction, Move>, AllocError>
    ensures { IfOk result
        (λ choice. meant (Some transaction.now) choice
        ≡ seat_notice moment.entry.now arrived.now.id transaction.now seat.now
        (coordinator_of seat.now.kind seat.now.state notice)) }
{
    match coordinator_cell(seat.kind, seat.state, notice) {
        Some(cell) => acts(alloc, moment, arrived, transaction, seat, cell.act),
        None => Ok(Choice::ignored(alloc)),
    }
}

/// A message at a seat: a notification; all else is ignored.
#[tactic(auto, unfolding(at_model::specs::Arrivals::on_seat))]
pub fn on_seat(
    alloc: Global,
    moment: &Moment,
    arrived: &Arrived,
    transaction: &Transaction,
    seat: &Enlistment,
) -> Result<Choice<Transaction, Move>, AllocError>
    ensures { IfOk result
        (λ choice. meant (Some transaction.now) choice
        ≡ on_seat moment.entry.now arrived.now transaction.now seat.now arrived.now.message) }
{
    match &arrived.message {
        Message::Notice(notice) => notified(alloc, moment, arrived, transaction, seat, *notice),
        _ => Ok(Choice::ignored(alloc)),
    }
}
