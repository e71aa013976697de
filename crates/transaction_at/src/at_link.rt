//! What a message does at a subordinate's link to its superior (WS-AtomicTransaction 1.2, sections 3.3.3 and 10).

ghost use Rattle.std.specs.Prelude.{◌≡◌, IfOk, Some, None, ◌&&◌};
ghost use Rattle.at_base.specs.declared.fault.Fault.TheVariants.{InvalidState};
ghost use Rattle.at_base.specs.declared.notice.Kind.TheVariants as kinds;
ghost use Rattle.at_base.specs.declared.notice.Notice.TheVariants as notices;
ghost use Rattle.at_base.specs.declared.record.Record.TheVariants as records;
ghost use Rattle.at_base.specs.declared.target.Target.TheVariants as targets;
ghost use Rattle.at_tables.specs.Tables.{participant_of};
ghost use Rattle.at_tables.specs.declared.cells.State.TheVariants as states;
ghost use Rattle.at_model.specs.Book.{Phase as Stage, Transaction as Known};
ghost use Rattle.at_model.specs.Abort.{abort, Asked, Faulted};
ghost use Rattle.at_model.specs.Arrivals.{asked, commit_voted, is_registering, link_act, link_fault, link_notice, link_registered, on_link, registered, relates_to};
ghost use Rattle.endpoints.specs.Addresses.{register_id};
ghost use Rattle.at_model.specs.Moves.{Goes, Records, become, begin, posts, stays};
ghost use Rattle.at_model.specs.Phases.{go_volatile, upwards};
ghost use Rattle.at_model.specs.Posts.{fault_post, stored_or, stranger_post, to_each};
ghost use Rattle.at_model.specs.Seats.{link_in, link_of, sent_now, set_link, under};
ghost use Rattle.at_tables.specs.Names.{is_state};
ghost use Rattle.transaction_at.specs.Moves.{drafted, meant};
ghost use Rattle.transaction_at.specs.PhaseNames.{phase_of};

use crate::abort::{Reason, abort};
use crate::draft::Draft;
use crate::links::{ending, push_upwards};
use crate::moves::Move;
use crate::phases::{aborts, commit_seats, go_volatile, or_undone};
use crate::seats::{is_state, only_posts};
use crate::transaction::{Phase, Superior, Transaction};
use at_base::epr::Epr;
use at_base::event::{Arrived, Moment};
use at_base::fault::Fault;
use at_base::message::{Message, cloned_option};
use at_base::notice::{Kind, Notice};
use at_base::outs::Ending;
use at_base::record::Record;
use at_base::target::Target;
use at_base::text::Text;
use at_posts::answers::relates_to;
use at_posts::kept::kept;
use at_posts::list::PostList;
use at_posts::posts::{fault_post, stored_or, stranger_post};
use at_tables::cells::{Act, State, participant_cell};
use by_id::fates::{Choice, Fate, Turn};
use endpoints::addresses::register_id;
use std::alloc::{AllocError, Global};

/// The link answers Prepared once more, which counts as a sending.
fn prepares_again(
    alloc: Global,
    moment: &Moment,
    kind: Kind,
    superior: &Superior,
    transaction: &Transaction,
) -> Result<Choice<Transaction, Move>, AllocError>
    ensures { IfOk result
        (λ choice. meant (Some transaction.now) choice
        ≡ Goes (stays (posts (upwards moment.entry.now.base transaction.now.id kind notices.Prepared (link_of kind superior.now)) (become (sent_now moment.entry.now transaction.now) (begin transaction.now))))) }
{
    let mut posts = PostList::new(alloc);
    push_upwards(
        alloc,
        &mut posts,
        moment,
        transaction.id,
        kind,
        Notice::Prepared,
        superior.link(kind),
    )?;
    Ok(Choice::Goes(Turn::silent(alloc, Fate::Move(Move::Sent(moment.now)), posts)))
}

/// The link answers, to the superior or to the message's From, as one that isn't waited for.
fn answers(
    alloc: Global,
    moment: &Moment,
    arrived: &Arrived,
    kind: Kind,
    superior: &Superior,
    transaction: &Transaction,
    notice: Notice,
) -> Result<Choice<Transaction, Move>, AllocError>
    ensures { IfOk result
        (λ choice. meant (Some transaction.now) choice
        ≡ Goes (stays (posts (to_each (stored_or (link_of kind superior.now).coordinator arrived.now.from)
        (λ to. stranger_post moment.entry.now.base (targets.Participant transaction.now.id kind) to notice)) (begin transaction.now)))) }
{
    let own = Target::Participant {
        id: transaction.id,
        kind,
    };
    let Some(to) = stored_or(&superior.link(kind).coordinator, &arrived.from) else {
        return Ok(Choice::ignored(alloc));
    };
    let message = stranger_post(alloc, &moment.base, &own, to, notice)?;
    Ok(only_posts(alloc, PostList::alone(alloc, message)?))
}

/// The fault InvalidState to the superior or to the message's From, where there is one.
fn fault_posts(
    alloc: Global,
    arrived: &Arrived,
    kind: Kind,
    superior: &Superior,
) -> Result<PostList, AllocError>
    ensures { IfOk result
        (λ list. list
        ≡ to_each (stored_or (link_of kind superior.now).coordinator arrived.now.from)
        (λ to. fault_post (Some to) arrived.now.id InvalidState)) }
{
    let Some(to) = stored_or(&superior.link(kind).coordinator, &arrived.from) else {
        return Ok(PostList::new(alloc));
    };
    let to = to.clone()?;
    PostList::alone(
        alloc,
        fault_post(alloc, Some(to), &arrived.id, Fault::InvalidState)?,
    )
}

/// The fault InvalidState, which leaves the transaction as it stands.
fn faults(
    alloc: Global,
    arrived: &Arrived,
    kind: Kind,
    superior: &Superior,
) -> Result<Choice<Transaction, Move>, AllocError>
    ensures { (transaction : Known) → IfOk result
        (λ choice. meant (Some transaction) choice
        ≡ Goes (stays (posts (to_each (stored_or (link_of kind superior.now).coordinator arrived.now.from)
        (λ to. fault_post (Some to) arrived.now.id InvalidState)) (begin transaction)))) }
{
    Ok(only_posts(alloc, fault_posts(alloc, arrived, kind, superior)?))
}

/// The fault InvalidState, which aborts the transaction.
fn faults_and_aborts(
    alloc: Global,
    moment: &Moment,
    arrived: &Arrived,
    kind: Kind,
    superior: &Superior,
    transaction: &Transaction,
) -> Result<Choice<Transaction, Move>, AllocError>
    ensures { IfOk result
        (λ choice. meant (Some transaction.now) choice
        ≡ Goes (abort moment.entry.now (Faulted kind) (posts (to_each (stored_or (link_of kind superior.now).coordinator arrived.now.from)
        (λ to. fault_post (Some to) arrived.now.id InvalidState)) (begin transaction.now)))) }
{
    let posts = fault_posts(alloc, arrived, kind, superior)?;
    let draft = Draft::posting(alloc, transaction, posts)?;
    Ok(Choice::Goes(abort(alloc, moment, &Reason::Faulted(kind), draft)?))
}

/// A copy of the superior whose link of the kind was asked. A durable Prepare also ends a volatile link that wasn't
/// answered for.
fn asked(kind: Kind, superior: &Superior) -> Result<Superior, AllocError>
    ensures { IfOk result (λ next. next ≡ asked kind superior.now) }
{
    let mut next = superior.clone()?;
    match kind {
        Kind::Volatile => next.move_link(Kind::Volatile, State::Preparing),
        Kind::Durable => {
            next.move_link(Kind::Durable, State::Preparing);
            next.move_link(Kind::Volatile, State::None);
        }
    }
    Ok(next)
}

/// Prepare asks the seats.
fn gathers(
    alloc: Global,
    moment: &Moment,
    kind: Kind,
    superior: &Superior,
    transaction: &Transaction,
) -> Result<Choice<Transaction, Move>, AllocError>
    ensures { IfOk result
        (λ choice. meant (Some transaction.now) choice
        ≡ go_volatile moment.entry.now (begin (under (asked kind superior.now) transaction.now))) }
{
    let draft = Draft::under(alloc, transaction, asked(kind, superior)?)?;
    go_volatile(alloc, moment, draft)
}

/// A copy of the superior whose durable link was told to commit.
fn told_to_commit(superior: &Superior) -> Result<Superior, AllocError>
    ensures { IfOk result (λ next. next ≡ link_in kinds.Durable states.Committing superior.now) }
{
    let mut next = superior.clone()?;
    next.move_link(Kind::Durable, State::Committing);
    Ok(next)
}

/// The transaction that is told to commit, under this superior, at the begin of the step.
fn committing_under<'a>(
    alloc: Global,
    superior: &Superior,
    transaction: &'a Transaction,
) -> Result<Draft<'a>, AllocError>
    ensures { IfOk result
        (λ draft. draft
        ≡ drafted transaction.entry.now (begin (record transaction.entry.now {
          superior = Some (link_in kinds.Durable states.Committing superior.now);
          phase = Stage.Committing;
        }))) }
{
    let superior = told_to_commit(superior)?;
    let mut draft = Draft::under(alloc, transaction, superior)?;
    draft.set_phase(Phase::Committing);
    Ok(draft)
}

/// A subordinate that was told to commit: the record first, then Commit to every Prepared seat. Where the record is
/// absent the step is undone, and the superior asks again.
#[tactic(auto, unfolding(at_model::specs::Arrivals::commit_voted))]
fn commits(
    alloc: Global,
    moment: &Moment,
    superior: &Superior,
    transaction: &Transaction,
) -> Result<Choice<Transaction, Move>, AllocError>
    ensures { IfOk result
        (λ choice. meant (Some transaction.now) choice
        ≡ commit_voted moment.entry.now superior.now transaction.now) }
{
    let mut draft = committing_under(alloc, superior, transaction)?;
    draft.effect(ending(transaction, Ending::Committed))?;
    commit_seats(alloc, moment, &mut draft)?;
    let id = transaction.id;
    Ok(or_undone(Record::SubCommitted { id }, draft.stays()))
}

/// A Rollback before the vote aborts.
fn rolls_back(
    alloc: Global,
    moment: &Moment,
    arrived: &Arrived,
    kind: Kind,
    transaction: &Transaction,
) -> Result<Choice<Transaction, Move>, AllocError>
    ensures { IfOk result
        (λ choice. meant (Some transaction.now) choice
        ≡ Goes (abort moment.entry.now (Asked kind arrived.now.from) (begin transaction.now))) }
{
    let from = cloned_option(&arrived.from)?;
    let reason = Reason::Asked { kind, from };
    let draft = Draft::begin(alloc, transaction)?;
    Ok(Choice::Goes(abort(alloc, moment, &reason, draft)?))
}

/// A Rollback behind the vote aborts behind a record. Where that is absent the step is undone, and the superior asks
/// again.
fn rolls_back_voted(
    alloc: Global,
    moment: &Moment,
    arrived: &Arrived,
    kind: Kind,
    transaction: &Transaction,
) -> Result<Choice<Transaction, Move>, AllocError>
    ensures { IfOk result
        (λ choice. meant (Some transaction.now) choice
        ≡ Records (records.Ended transaction.now.id)
        (abort moment.entry.now (Asked kind arrived.now.from) (begin transaction.now)) None) }
{
    let from = cloned_option(&arrived.from)?;
    let reason = Reason::Asked { kind, from };
    let draft = Draft::begin(alloc, transaction)?;
    let stands = abort(alloc, moment, &reason, draft)?;
    Ok(or_undone(Record::Ended { id: transaction.id }, stands))
}

/// An act of the participant's table at a link.
#[tactic(auto, unfolding(at_model::specs::Arrivals::link_act))]
fn acts(
    alloc: Global,
    moment: &Moment,
    arrived: &Arrived,
    kind: Kind,
    superior: &Superior,
    transaction: &Transaction,
    act: Act,
) -> Result<Choice<Transaction, Move>, AllocError>
    ensures { IfOk result
        (λ choice. meant (Some transaction.now) choice
        ≡ link_act moment.entry.now arrived.now.from arrived.now.id kind superior.now transaction.now act) }
{
    match act {
        Act::SendPrepared => prepares_again(alloc, moment, kind, superior, transaction),
        Act::SendCommitted => answers(
            alloc,
            moment,
            arrived,
            kind,
            superior,
            transaction,
            Notice::Committed,
        ),
        Act::SendAborted => answers(
            alloc,
            moment,
            arrived,
            kind,
            superior,
            transaction,
            Notice::Aborted,
        ),
        Act::FaultInvalidState => Ok(faults(alloc, arrived, kind, superior)?),
        Act::FaultInvalidStateAndAbort => faults_and_aborts(
            alloc,
            moment,
            arrived,
            kind,
            superior,
            transaction,
        ),
        Act::Gather => gathers(alloc, moment, kind, superior, transaction),
        Act::Commit => commits(alloc, moment, superior, transaction),
        Act::AbortAndSendAborted => rolls_back(alloc, moment, arrived, kind, transaction),
        Act::RecordAndSendAborted => rolls_back_voted(alloc, moment, arrived, kind, transaction),
        Act::Ignore
        | Act::SendCommit
        | Act::SendRollback
        | Act::FaultUnknownTransaction
        | Act::Leave
        | Act::LeaveAndAbort
        | Act::Vote
        | Act::Complete
        | Act::TellCommitted
        | Act::TellAborted => Ok(Choice::ignored(alloc)),
    }
}

/// The superior's notification on a link.
#[tactic(auto, unfolding(at_model::specs::Arrivals::link_notice))]
fn notified(
    alloc: Global,
    moment: &Moment,
    arrived: &Arrived,
    kind: Kind,
    superior: &Superior,
    transaction: &Transaction,
    notice: Notice,
) -> Result<Choice<Transaction, Move>, AllocError>
    ensures { IfOk result
        (λ choice. meant (Some transaction.now) choice
        ≡ link_notice moment.entry.now arrived.now.from arrived.now.id kind superior.now transaction.now
        (participant_of kind (link_of kind superior.now).state notice)) }
{
    match participant_cell(kind, superior.link(kind).state, notice) {
        Some(cell) => acts(
            alloc,
            moment,
            arrived,
            kind,
            superior,
            transaction,
            cell.act,
        ),
        None => Ok(Choice::ignored(alloc)),
    }
}

/// Whether a message answers the link's Register, which waits for it.
fn is_answer(
    alloc: Global,
    moment: &Moment,
    relates: &Option<Text>,
    kind: Kind,
    superior: &Superior,
    transaction: &Transaction,
) -> Result<bool, AllocError>
    ensures { IfOk result
        (λ yes. yes
        ≡ (is_state (link_of kind superior.now).state states.Registering
        && relates_to relates.now (register_id moment.entry.now.base (targets.Participant transaction.now.id kind)))) }
{
    if !is_state(superior.link(kind).state, State::Registering) {
        return Ok(false);
    }
    let own = Target::Participant {
        id: transaction.id,
        kind,
    };
    let id = register_id(alloc, &moment.base, &own)?;
    Ok(relates_to(relates, &id))
}

/// Whether a link waits for the answer of its Register.
pub fn is_registering(superior: &Superior) -> bool
    ensures { result ≡ is_registering superior.now }
{
    is_state(superior.volatile.state, State::Registering)
        || is_state(superior.durable.state, State::Registering)
}

/// Registering ends once neither link is.
fn registered(superior: &Superior, phase: Phase) -> Phase
    ensures { phase_of result ≡ registered superior.now (phase_of phase) }
{
    match phase {
        Phase::Registering => {
            if is_registering(superior) {
                Phase::Registering
            } else {
                Phase::Active
            }
        }
        other => other,
    }
}

/// A copy of the superior whose link of the kind is Active, with its seat at this endpoint.
fn with_coordinator(
    alloc: Global,
    kind: Kind,
    superior: &Superior,
    coordinator: &Epr,
) -> Result<Superior, AllocError>
    ensures { IfOk result
        (λ next. next
        ≡ set_link kind (record { state = states.Active; coordinator = Some coordinator.now }) superior.now) }
{
    let coordinator = kept(alloc, coordinator)?;
    let mut next = superior.clone()?;
    next.register_link(kind, coordinator);
    Ok(next)
}

/// The transaction under this superior, in the phase that follows, at the begin of a step.
fn registered_under<'a>(
    alloc: Global,
    superior: Superior,
    transaction: &'a Transaction,
) -> Result<Draft<'a>, AllocError>
    ensures { IfOk result
        (λ draft. draft
        ≡ drafted transaction.entry.now (begin (record transaction.entry.now {
          superior = Some superior;
          phase = registered superior transaction.entry.now.phase;
        }))) }
{
    let phase = registered(&superior, transaction.phase);
    let mut draft = Draft::under(alloc, transaction, superior)?;
    draft.set_phase(phase);
    Ok(draft)
}

/// A RegisterResponse that answers a link's Register makes the link Active (WS-Coordination 1.2, section 3.2).
#[tactic(auto, unfolding(at_model::specs::Arrivals::link_registered))]
fn link_registered(
    alloc: Global,
    moment: &Moment,
    relates: &Option<Text>,
    coordinator: &Epr,
    kind: Kind,
    superior: &Superior,
    transaction: &Transaction,
) -> Result<Choice<Transaction, Move>, AllocError>
    ensures { IfOk result
        (λ choice. meant (Some transaction.now) choice
        ≡ link_registered moment.entry.now relates.now coordinator.now kind superior.now transaction.now) }
{
    if !is_answer(alloc, moment, relates, kind, superior, transaction)? {
        return Ok(Choice::ignored(alloc));
    }
    let superior = with_coordinator(alloc, kind, superior, coordinator)?;
    let draft = registered_under(alloc, superior, transaction)?;
    Ok(Choice::Goes(draft.stays()))
}

/// A fault that answers a link's Register aborts the subordinate; every other fault is ignored.
#[tactic(auto, unfolding(at_model::specs::Arrivals::link_fault))]
fn link_faulted(
    alloc: Global,
    moment: &Moment,
    relates: &Option<Text>,
    kind: Kind,
    superior: &Superior,
    transaction: &Transaction,
) -> Result<Choice<Transaction, Move>, AllocError>
    ensures { IfOk result
        (λ choice. meant (Some transaction.now) choice
        ≡ link_fault moment.entry.now relates.now kind superior.now transaction.now) }
{
    if is_answer(alloc, moment, relates, kind, superior, transaction)? {
        aborts(alloc, moment, Draft::begin(alloc, transaction)?)
    } else {
        Ok(Choice::ignored(alloc))
    }
}

/// A message at a link: a notification, the answer of its Register, or a fault; all else is ignored.
#[tactic(auto, unfolding(at_model::specs::Arrivals::on_link))]
pub fn on_link(
    alloc: Global,
    moment: &Moment,
    arrived: &Arrived,
    kind: Kind,
    transaction: &Transaction,
    superior: &Superior,
) -> Result<Choice<Transaction, Move>, AllocError>
    ensures { IfOk result
        (λ choice. meant (Some transaction.now) choice
        ≡ on_link moment.entry.now arrived.now kind transaction.now superior.now arrived.now.message) }
{
    match &arrived.message {
        Message::Notice(notice) => notified(
            alloc,
            moment,
            arrived,
            kind,
            superior,
            transaction,
            *notice,
        ),
        Message::RegisterResponse(coordinator) => link_registered(
            alloc,
            moment,
            &arrived.relates,
            coordinator,
            kind,
            superior,
            transaction,
        ),
        Message::Fault { .. } => link_faulted(
            alloc,
            moment,
            &arrived.relates,
            kind,
            superior,
            transaction,
        ),
        _ => Ok(Choice::ignored(alloc)),
    }
}
