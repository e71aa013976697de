//! What a message does to one leaf (WS-AtomicTransaction 1.2, sections 3.3.3, 7.2 and 10).

ghost use Rattle.std.specs.Prelude.{◌≡◌, ◌∷◌, IfOk, [], Some, None};
ghost use Rattle.at_base.specs.declared.message.Message.TheVariants as messages;
ghost use Rattle.at_base.specs.declared.notice.Notice.TheVariants as notices;
ghost use Rattle.at_base.specs.declared.outs.Ending.TheVariants as endings;
ghost use Rattle.at_base.specs.declared.record.Record.TheVariants as records;
ghost use Rattle.at_model.specs.Leaves.{leaf_aborts, leaf_commits, leaf_prepares, leaf_records_vote, leaf_votes, leaf_commit, leaf_roll_back};
ghost use Rattle.at_model.specs.Leaves.{leaf_says, leaf_ended, leaf_faults, leaf_act, leaf_notice, answers_leaf, leaf_registered, leaf_refused, drops_leaf, leaf_fault, on_leaf, work_answer};
ghost use Rattle.at_model.specs.Moves.{Goes, begin, effect, forgotten, posts, stays};
ghost use Rattle.at_tables.specs.Names.{is_state};
ghost use Rattle.at_tables.specs.Tables.{participant_of};
ghost use Rattle.at_tables.specs.declared.cells.State.TheVariants as states;
ghost use Rattle.by_id.specs.Unmoved.{meant, turn_of};
ghost use Rattle.by_id.specs.declared.fates.Fate.TheVariants as fates;

use crate::leaf::Leaf;
use crate::posts::{Answer, answers_work, register_id, says, says_fault};
use at_base::epr::Epr;
use at_base::event::{Arrived, Moment};
use at_base::message::Message;
use at_base::notice::{Kind, Notice, Vote};
use at_base::outs::{Effect, Ending};
use at_base::record::Record;
use at_base::text::Text;
use at_posts::answers::relates_to;
use at_posts::kept::kept;
use at_posts::list::PostList;
use at_tables::cells::{Act, State, participant_cell};
use by_id::fates::{Choice, Fate, Turn};
use std::alloc::{AllocError, Global};

/// How a leaf ended.
pub fn ending(leaf: &Leaf, what: Ending) -> Effect
    ensures { result ≡ leaf_ended leaf.now what }
{
    Effect::Leaf {
        id: leaf.id,
        kind: leaf.kind,
        what,
    }
}

/// The leaf ended, and this is posted.
fn ended(
    alloc: Global,
    leaf: &Leaf,
    what: Ending,
    posts: PostList,
) -> Result<Turn<Leaf, ()>, AllocError>
    ensures { IfOk result
        (λ turn. turn
        ≡ record { fate = fates.Forget; posts = posts; effects = leaf_ended leaf.now what ∷ [] }) }
{
    Turn::with_effect(alloc, Fate::Forget, posts, ending(leaf, what))
}

/// A copy of the leaf that has sent now.
pub fn sent_now(moment: &Moment, leaf: &Leaf) -> Result<Leaf, AllocError>
    ensures { IfOk result (λ next. next ≡ record leaf.now { sent = Some moment.entry.now.now }) }
{
    let mut next = leaf.clone()?;
    next.sent = Some(moment.now);
    Ok(next)
}

/// The leaf ends as aborted, and says so.
pub fn aborts(
    alloc: Global,
    moment: &Moment,
    from: &Option<Epr>,
    leaf: &Leaf,
) -> Result<Turn<Leaf, ()>, AllocError>
    ensures { IfOk result
        (λ turn. turn_of (Some leaf.now) turn ≡ leaf_aborts moment.entry.now from.now leaf.now) }
{
    let posts = says(alloc, moment, from, leaf, Notice::Aborted)?;
    ended(alloc, leaf, Ending::Aborted, posts)
}

/// The leaf ends as committed, and says so.
fn commits(
    alloc: Global,
    moment: &Moment,
    from: &Option<Epr>,
    leaf: &Leaf,
) -> Result<Turn<Leaf, ()>, AllocError>
    ensures { IfOk result
        (λ turn. turn_of (Some leaf.now) turn ≡ leaf_commits moment.entry.now from.now leaf.now) }
{
    let posts = says(alloc, moment, from, leaf, Notice::Committed)?;
    ended(alloc, leaf, Ending::Committed, posts)
}

/// A copy of the leaf that votes Prepared now.
fn prepared_now(moment: &Moment, leaf: &Leaf) -> Result<Leaf, AllocError>
    ensures { IfOk result
        (λ next. next ≡ record leaf.now { state = states.PreparedSuccess; sent = Some moment.entry.now.now }) }
{
    let mut next = sent_now(moment, leaf)?;
    next.state = State::PreparedSuccess;
    Ok(next)
}

/// The leaf has voted Prepared, and waits for the outcome.
fn prepares(alloc: Global, moment: &Moment, leaf: &Leaf) -> Result<Turn<Leaf, ()>, AllocError>
    ensures { IfOk result (λ turn. turn_of (Some leaf.now) turn ≡ leaf_prepares moment.entry.now leaf.now) }
{
    let posts = says(alloc, moment, &None, leaf, Notice::Prepared)?;
    let next = prepared_now(moment, leaf)?;
    Ok(Turn::silent(alloc, Fate::Put(next), posts))
}

/// The record of a durable leaf's vote Prepared.
fn vote_record(leaf: &Leaf, coordinator: &Epr) -> Result<Record, AllocError>
    ensures { IfOk result
        (λ entry. entry ≡ records.LeafPrepared leaf.now.id coordinator.now leaf.now.key leaf.now.value) }
{
    let coordinator = coordinator.clone()?;
    let key = leaf.key.clone()?;
    let value = leaf.value.clone()?;
    Ok(Record::LeafPrepared {
        id: leaf.id,
        coordinator,
        key,
        value,
    })
}

/// A durable leaf's vote Prepared, behind its record; where the record is absent it votes Aborted.
fn records_vote(alloc: Global, moment: &Moment, leaf: &Leaf) -> Result<Choice<Leaf, ()>, AllocError>
    ensures { IfOk result
        (λ choice. meant (Some leaf.now) choice ≡ leaf_records_vote moment.entry.now leaf.now.coordinator leaf.now) }
{
    let aborted = aborts(alloc, moment, &None, leaf)?;
    let Some(coordinator) = &leaf.coordinator else {
        return Ok(Choice::Goes(aborted));
    };
    let entry = vote_record(leaf, coordinator)?;
    let stands = prepares(alloc, moment, leaf)?;
    Ok(Choice::Records {
        entry,
        stands,
        absent: Some(aborted),
    })
}

/// The vote ReadOnly: the leaf is forgotten.
fn leaves(
    alloc: Global,
    moment: &Moment,
    from: &Option<Epr>,
    leaf: &Leaf,
) -> Result<Turn<Leaf, ()>, AllocError>
    ensures { IfOk result
        (λ turn. turn_of (Some leaf.now) turn ≡ forgotten (posts (leaf_says moment.entry.now from.now notices.ReadOnly leaf.now) (begin leaf.now))) }
{
    let posts = says(alloc, moment, from, leaf, Notice::ReadOnly)?;
    Ok(Turn::silent(alloc, Fate::Forget, posts))
}

/// Prepare asks the leaf's own vote.
#[tactic(auto, unfolding(at_model::specs::Leaves::leaf_votes))]
fn votes(
    alloc: Global,
    moment: &Moment,
    from: &Option<Epr>,
    leaf: &Leaf,
) -> Result<Choice<Leaf, ()>, AllocError>
    ensures { IfOk result
        (λ choice. meant (Some leaf.now) choice ≡ leaf_votes moment.entry.now from.now leaf.now leaf.now.kind leaf.now.vote) }
{
    match leaf.vote {
        Vote::Prepared => match leaf.kind {
            Kind::Durable => records_vote(alloc, moment, leaf),
            Kind::Volatile => Ok(Choice::Goes(prepares(alloc, moment, leaf)?)),
        },
        Vote::ReadOnly => Ok(Choice::Goes(leaves(alloc, moment, from, leaf)?)),
        Vote::Aborted => Ok(Choice::Goes(aborts(alloc, moment, from, leaf)?)),
    }
}

/// Commit at a prepared leaf: the record first, for a durable one.
#[tactic(auto, unfolding(at_model::specs::Leaves::leaf_commit))]
fn commit(
    alloc: Global,
    moment: &Moment,
    from: &Option<Epr>,
    leaf: &Leaf,
) -> Result<Choice<Leaf, ()>, AllocError>
    ensures { IfOk result
        (λ choice. meant (Some leaf.now) choice ≡ leaf_commit moment.entry.now from.now leaf.now leaf.now.kind) }
{
    let stands = commits(alloc, moment, from, leaf)?;
    match leaf.kind {
        Kind::Volatile => Ok(Choice::Goes(stands)),
        Kind::Durable => Ok(Choice::Records {
            entry: Record::LeafCommitted { id: leaf.id },
            stands,
            absent: None,
        }),
    }
}

/// Rollback at a prepared leaf, likewise.
#[tactic(auto, unfolding(at_model::specs::Leaves::leaf_roll_back))]
fn roll_back(
    alloc: Global,
    moment: &Moment,
    from: &Option<Epr>,
    leaf: &Leaf,
) -> Result<Choice<Leaf, ()>, AllocError>
    ensures { IfOk result
        (λ choice. meant (Some leaf.now) choice ≡ leaf_roll_back moment.entry.now from.now leaf.now leaf.now.kind) }
{
    let stands = aborts(alloc, moment, from, leaf)?;
    match leaf.kind {
        Kind::Volatile => Ok(Choice::Goes(stands)),
        Kind::Durable => Ok(Choice::Records {
            entry: Record::LeafAborted { id: leaf.id },
            stands,
            absent: None,
        }),
    }
}

/// The leaf answers Prepared once more.
fn prepares_again(
    alloc: Global,
    moment: &Moment,
    from: &Option<Epr>,
    leaf: &Leaf,
) -> Result<Turn<Leaf, ()>, AllocError>
    ensures { IfOk result
        (λ turn. turn_of (Some leaf.now) turn
        ≡ stays
        (posts (leaf_says moment.entry.now from.now notices.Prepared leaf.now)
        (begin (record leaf.now { sent = Some moment.entry.now.now })))) }
{
    let posts = says(alloc, moment, from, leaf, Notice::Prepared)?;
    let next = sent_now(moment, leaf)?;
    Ok(Turn::silent(alloc, Fate::Put(next), posts))
}

/// The fault InvalidState, which leaves the leaf as it stands.
fn faults(
    alloc: Global,
    from: &Option<Epr>,
    id: &Option<Text>,
    leaf: &Leaf,
) -> Result<Turn<Leaf, ()>, AllocError>
    ensures { IfOk result
        (λ turn. turn_of (Some leaf.now) turn ≡ stays (posts (leaf_faults from.now id.now leaf.now) (begin leaf.now))) }
{
    let posts = says_fault(alloc, from, id, leaf)?;
    Ok(Turn::silent(alloc, Fate::Keep, posts))
}

/// The fault InvalidState, which ends the leaf as aborted.
fn faults_and_ends(
    alloc: Global,
    from: &Option<Epr>,
    id: &Option<Text>,
    leaf: &Leaf,
) -> Result<Turn<Leaf, ()>, AllocError>
    ensures { IfOk result
        (λ turn. turn_of (Some leaf.now) turn
        ≡ forgotten
        (posts (leaf_faults from.now id.now leaf.now)
        (effect (leaf_ended leaf.now endings.Aborted) (begin leaf.now)))) }
{
    let posts = says_fault(alloc, from, id, leaf)?;
    ended(alloc, leaf, Ending::Aborted, posts)
}

/// An act of the participant's table at a leaf.
#[tactic(auto, unfolding(at_model::specs::Leaves::leaf_act))]
fn acts(
    alloc: Global,
    moment: &Moment,
    from: &Option<Epr>,
    id: &Option<Text>,
    leaf: &Leaf,
    act: Act,
) -> Result<Choice<Leaf, ()>, AllocError>
    ensures { IfOk result
        (λ choice. meant (Some leaf.now) choice ≡ leaf_act moment.entry.now from.now id.now leaf.now act) }
{
    match act {
        Act::Gather => votes(alloc, moment, from, leaf),
        Act::SendPrepared => Ok(Choice::Goes(prepares_again(alloc, moment, from, leaf)?)),
        Act::Commit => commit(alloc, moment, from, leaf),
        Act::AbortAndSendAborted => Ok(Choice::Goes(aborts(alloc, moment, from, leaf)?)),
        Act::RecordAndSendAborted => roll_back(alloc, moment, from, leaf),
        Act::FaultInvalidState => Ok(Choice::Goes(faults(alloc, from, id, leaf)?)),
        Act::FaultInvalidStateAndAbort => Ok(Choice::Goes(faults_and_ends(alloc, from, id, leaf)?)),
        _ => Ok(Choice::ignored(alloc)),
    }
}

/// A notification at a leaf, by the participant's table.
#[tactic(auto, unfolding(at_model::specs::Leaves::leaf_notice))]
fn notified(
    alloc: Global,
    moment: &Moment,
    from: &Option<Epr>,
    id: &Option<Text>,
    leaf: &Leaf,
    notice: Notice,
) -> Result<Choice<Leaf, ()>, AllocError>
    ensures { IfOk result
        (λ choice. meant (Some leaf.now) choice ≡ leaf_notice moment.entry.now from.now id.now leaf.now
        (participant_of leaf.now.kind leaf.now.state notice)) }
{
    match participant_cell(leaf.kind, leaf.state, notice) {
        Some(cell) => acts(alloc, moment, from, id, leaf, cell.act),
        None => Ok(Choice::ignored(alloc)),
    }
}

/// Whether a leaf waits for the answer of its Register.
pub fn is_registering(state: State) -> bool
    ensures { result ≡ is_state state states.Registering }
{
    match state {
        State::Registering => true,
        State::None
        | State::Active
        | State::Preparing
        | State::Prepared
        | State::PreparedSuccess
        | State::Committing
        | State::Aborting
        | State::Completing
        | State::Done => false,
    }
}

/// Whether a message answers the leaf's Register, which waits for it.
fn answers(
    alloc: Global,
    moment: &Moment,
    relates: &Option<Text>,
    leaf: &Leaf,
) -> Result<bool, AllocError>
    ensures { IfOk result (λ yes. yes ≡ answers_leaf moment.entry.now relates.now leaf.now) }
{
    if !is_registering(leaf.state) {
        return Ok(false);
    }
    let id = register_id(alloc, moment, leaf)?;
    Ok(relates_to(relates, &id))
}

/// The leaf is registered at this endpoint, and its Work is answered.
fn registers(alloc: Global, coordinator: &Epr, leaf: &Leaf) -> Result<Turn<Leaf, ()>, AllocError>
    ensures { IfOk result
        (λ turn. turn_of (Some leaf.now) turn
        ≡ stays
        (posts (work_answer messages.WorkDone leaf.now.request)
        (begin (record leaf.now { state = states.Active; coordinator = Some coordinator.now; request = None })))) }
{
    let posts = answers_work(alloc, leaf, Answer::Done)?;
    let coordinator = kept(alloc, coordinator)?;
    let mut next = leaf.clone()?;
    next.state = State::Active;
    next.coordinator = Some(coordinator);
    next.request = None;
    Ok(Turn::silent(alloc, Fate::Put(next), posts))
}

/// A RegisterResponse at a leaf.
#[tactic(auto, unfolding(at_model::specs::Leaves::leaf_registered))]
fn registered(
    alloc: Global,
    moment: &Moment,
    relates: &Option<Text>,
    coordinator: &Epr,
    leaf: &Leaf,
) -> Result<Choice<Leaf, ()>, AllocError>
    ensures { IfOk result
        (λ choice. meant (Some leaf.now) choice ≡ leaf_registered moment.entry.now relates.now coordinator.now leaf.now) }
{
    if answers(alloc, moment, relates, leaf)? {
        Ok(Choice::Goes(registers(alloc, coordinator, leaf)?))
    } else {
        Ok(Choice::ignored(alloc))
    }
}

/// The leaf ends before it is registered, and refuses its Work.
pub fn refuses(alloc: Global, leaf: &Leaf) -> Result<Turn<Leaf, ()>, AllocError>
    ensures { IfOk result (λ turn. turn_of (Some leaf.now) turn ≡ leaf_refused leaf.now) }
{
    let posts = answers_work(alloc, leaf, Answer::Refused)?;
    ended(alloc, leaf, Ending::Aborted, posts)
}

/// Whether a fault of this name drops the leaf: UnknownTransaction at a volatile one.
fn is_dropped_by(leaf: &Leaf, name: &Text) -> bool
    ensures { result ≡ drops_leaf leaf.now name.now }
{
    match leaf.kind {
        Kind::Volatile => name.as_str() == "UnknownTransaction",
        Kind::Durable => false,
    }
}

/// A fault at a leaf.
#[tactic(auto, unfolding(at_model::specs::Leaves::leaf_fault))]
fn faulted(
    alloc: Global,
    moment: &Moment,
    relates: &Option<Text>,
    name: &Text,
    leaf: &Leaf,
) -> Result<Choice<Leaf, ()>, AllocError>
    ensures { IfOk result
        (λ choice. meant (Some leaf.now) choice ≡ leaf_fault moment.entry.now relates.now name.now leaf.now) }
{
    if answers(alloc, moment, relates, leaf)? {
        return Ok(Choice::Goes(refuses(alloc, leaf)?));
    }
    if is_dropped_by(leaf, name) {
        let posts = PostList::new(alloc);
        return Ok(Choice::Goes(Turn::silent(alloc, Fate::Forget, posts)));
    }
    Ok(Choice::ignored(alloc))
}

/// A message at a leaf.
#[tactic(auto, unfolding(at_model::specs::Leaves::on_leaf))]
pub fn on_leaf(
    alloc: Global,
    moment: &Moment,
    arrived: &Arrived,
    leaf: &Leaf,
) -> Result<Choice<Leaf, ()>, AllocError>
    ensures { IfOk result
        (λ choice. meant (Some leaf.now) choice ≡ on_leaf moment.entry.now arrived.now leaf.now arrived.now.message) }
{
    match &arrived.message {
        Message::Notice(notice) => notified(
            alloc,
            moment,
            &arrived.from,
            &arrived.id,
            leaf,
            *notice,
        ),
        Message::RegisterResponse(coordinator) => registered(
            alloc,
            moment,
            &arrived.relates,
            coordinator,
            leaf,
        ),
        Message::Fault { name } => faulted(alloc, moment, &arrived.relates, name, leaf),
        _ => Ok(Choice::ignored(alloc)),
    }
}
