//! What a message does at the completion seat of a transaction (WS-AtomicTransaction 1.2, section 3.2).

ghost use Rattle.std.specs.Prelude.{◌≡◌, IfOk, Some};
ghost use Rattle.at_base.specs.declared.notice.Notice.TheVariants as notices;
ghost use Rattle.at_base.specs.declared.target.Target.TheVariants as targets;
ghost use Rattle.at_tables.specs.Tables.{completion_of};
ghost use Rattle.at_tables.specs.declared.cells.State.TheVariants as states;
ghost use Rattle.at_model.specs.Book.{Transaction as Known};
ghost use Rattle.at_model.specs.Arrivals.{completion_act, completion_notice, on_completion};
ghost use Rattle.at_model.specs.Moves.{Goes, begin, post, posts, stays};
ghost use Rattle.at_model.specs.Phases.{go_volatile};
ghost use Rattle.at_model.specs.Posts.{fault_post, notice_post, to_each};
ghost use Rattle.transaction_at.specs.Moves.{drafted, meant};

use crate::draft::Draft;
use crate::moves::Move;
use crate::phases::{aborts, go_volatile};
use crate::seats::only_posts;
use crate::transaction::{Completion, Transaction};
use at_base::event::{Arrived, Moment};
use at_base::fault::Fault;
use at_base::id::Id;
use at_base::message::Message;
use at_base::notice::Notice;
use at_base::target::Target;
use at_posts::list::PostList;
use at_posts::posts::{fault_post, notice_post};
use at_tables::cells::{Act, State, completion_cell};
use by_id::fates::Choice;
use std::alloc::{AllocError, Global};

/// A fault to the initiator, which leaves the transaction as it stands.
fn faults(
    alloc: Global,
    arrived: &Arrived,
    completion: &Completion,
    fault: Fault,
) -> Result<Choice<Transaction, Move>, AllocError>
    ensures { (transaction : Known) → IfOk result
        (λ choice. meant (Some transaction) choice
        ≡ Goes (stays (post (fault_post (Some completion.now.initiator) arrived.now.id fault) (begin transaction)))) }
{
    let to = completion.initiator.clone()?;
    let message = fault_post(alloc, Some(to), &arrived.id, fault)?;
    Ok(only_posts(alloc, PostList::alone(alloc, message)?))
}

/// A completion seat that was told to commit.
fn completing(completion: &Completion) -> Result<Completion, AllocError>
    ensures { IfOk result (λ next. next ≡ record completion.now { state = states.Completing }) }
{
    let initiator = completion.initiator.clone()?;
    Ok(Completion {
        initiator,
        state: State::Completing,
    })
}

/// The transaction at the begin of a step, with this completion seat.
fn with_completion<'a>(
    alloc: Global,
    transaction: &'a Transaction,
    completion: Completion,
) -> Result<Draft<'a>, AllocError>
    ensures { IfOk result
        (λ draft. draft
        ≡ drafted transaction.entry.now
        (begin (record transaction.entry.now { completion = Some completion }))) }
{
    let mut draft = Draft::begin(alloc, transaction)?;
    draft.set_completion(completion);
    Ok(draft)
}

/// The initiator asks for commit: the volatile seats are asked first.
fn completes(
    alloc: Global,
    moment: &Moment,
    completion: &Completion,
    transaction: &Transaction,
) -> Result<Choice<Transaction, Move>, AllocError>
    ensures { IfOk result
        (λ choice. meant (Some transaction.now) choice
        ≡ go_volatile moment.entry.now
        (begin (record transaction.now { completion = Some (record completion.now { state = states.Completing }) }))) }
{
    let draft = with_completion(alloc, transaction, completing(completion)?)?;
    let choice = go_volatile(alloc, moment, draft)?;
    Ok(choice)
}

/// Committed to the message's From, where it has one.
fn committed_posts(
    alloc: Global,
    moment: &Moment,
    arrived: &Arrived,
    id: Id,
) -> Result<PostList, AllocError>
    ensures { IfOk result
        (λ list. list
        ≡ to_each arrived.now.from
        (λ to. notice_post moment.entry.now.base (targets.Completion id) to notices.Committed)) }
{
    let Some(to) = &arrived.from else {
        return Ok(PostList::new(alloc));
    };
    let own = Target::Completion(id);
    PostList::alone(
        alloc,
        notice_post(alloc, &moment.base, &own, to, Notice::Committed)?,
    )
}

/// The initiator asks for commit once more, of a transaction that committed: it is told so.
fn answers_committed(
    alloc: Global,
    moment: &Moment,
    arrived: &Arrived,
    transaction: &Transaction,
) -> Result<Choice<Transaction, Move>, AllocError>
    ensures { IfOk result
        (λ choice. meant (Some transaction.now) choice
        ≡ Goes (stays (posts (to_each arrived.now.from
        (λ to. notice_post moment.entry.now.base (targets.Completion transaction.now.id) to notices.Committed)) (begin transaction.now)))) }
{
    Ok(only_posts(
        alloc,
        committed_posts(alloc, moment, arrived, transaction.id)?,
    ))
}

/// An act of the completion table.
#[tactic(auto, unfolding(at_model::specs::Arrivals::completion_act))]
fn acts(
    alloc: Global,
    moment: &Moment,
    arrived: &Arrived,
    completion: &Completion,
    transaction: &Transaction,
    act: Act,
) -> Result<Choice<Transaction, Move>, AllocError>
    ensures { IfOk result
        (λ choice. meant (Some transaction.now) choice
        ≡ completion_act moment.entry.now arrived.now.from arrived.now.id completion.now transaction.now act) }
{
    match act {
        Act::SendCommitted => answers_committed(alloc, moment, arrived, transaction),
        Act::FaultUnknownTransaction => faults(
            alloc,
            arrived,
            completion,
            Fault::UnknownTransaction,
        ),
        Act::FaultInvalidState => faults(alloc, arrived, completion, Fault::InvalidState),
        Act::Complete => completes(alloc, moment, completion, transaction),
        Act::AbortAndSendAborted => aborts(alloc, moment, Draft::begin(alloc, transaction)?),
        Act::Ignore
        | Act::SendPrepared
        | Act::SendCommit
        | Act::SendRollback
        | Act::SendAborted
        | Act::FaultInvalidStateAndAbort
        | Act::Leave
        | Act::LeaveAndAbort
        | Act::Vote
        | Act::Gather
        | Act::Commit
        | Act::RecordAndSendAborted
        | Act::TellCommitted
        | Act::TellAborted => Ok(Choice::ignored(alloc)),
    }
}

/// The initiator's notification at the completion seat.
#[tactic(auto, unfolding(at_model::specs::Arrivals::completion_notice))]
fn notified(
    alloc: Global,
    moment: &Moment,
    arrived: &Arrived,
    completion: &Completion,
    transaction: &Transaction,
    notice: Notice,
) -> Result<Choice<Transaction, Move>, AllocError>
    ensures { IfOk result
        (λ choice. meant (Some transaction.now) choice
        ≡ completion_notice moment.entry.now arrived.now.from arrived.now.id completion.now transaction.now
        (completion_of completion.now.state notice)) }
{
    match completion_cell(completion.state, notice) {
        Some(cell) => acts(alloc, moment, arrived, completion, transaction, cell.act),
        None => Ok(Choice::ignored(alloc)),
    }
}

/// A message at the completion seat: a notification; all else is ignored.
#[tactic(auto, unfolding(at_model::specs::Arrivals::on_completion))]
pub fn on_completion(
    alloc: Global,
    moment: &Moment,
    arrived: &Arrived,
    transaction: &Transaction,
    completion: &Completion,
) -> Result<Choice<Transaction, Move>, AllocError>
    ensures { IfOk result
        (λ choice. meant (Some transaction.now) choice
        ≡ on_completion moment.entry.now arrived.now transaction.now completion.now arrived.now.message) }
{
    match &arrived.message {
        Message::Notice(notice) => notified(
            alloc,
            moment,
            arrived,
            completion,
            transaction,
            *notice,
        ),
        _ => Ok(Choice::ignored(alloc)),
    }
}
