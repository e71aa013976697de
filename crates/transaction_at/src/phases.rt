//! The phases of a transaction, from the first Prepare to the end (WS-AtomicTransaction 1.2, section 3.3).

ghost use Rattle.std.specs.Prelude.{◌≡◌, ◌++◌, [], IfOk, OnOk, Option, Some, None};
ghost use Rattle.at_model.specs.Book.{Phase as Stage, Transaction as Known};
ghost use Rattle.at_base.specs.declared.notice.Notice.TheVariants as notices;
ghost use Rattle.at_base.specs.declared.record.Record.TheVariants as records;
ghost use Rattle.at_model.specs.Abort.{abort, Alone};
ghost use Rattle.at_model.specs.Moves.{Goes, Records, become, forgotten, posts, stays};
ghost use Rattle.at_model.specs.Seats.{link_in, prepared};
ghost use Rattle.at_tables.specs.declared.cells.State.TheVariants as states;
ghost use Rattle.at_base.specs.declared.notice.Kind.TheVariants as kinds;
ghost use Rattle.at_model.specs.Phases.{commit_seats, committed, decided, root_answered, voted, sub_answered, durable_answered, if_durable_answered, prepare_seats, go_durable, volatile_answered, ended_posts, all_committed, advance, advance_in, upwards, go_volatile};
ghost use Rattle.transaction_at.specs.Moves.{meant, onto, turn_of};

use crate::abort::{Reason, abort, until_rolled_back};
use crate::draft::Draft;
use crate::links::{push_upwards, tell_initiator};
use crate::moves::Move;
use crate::seats::{Group, is_state, send_each};
use crate::transaction::{Phase, Superior, Transaction};
use at_base::epr::Epr;
use at_base::event::Moment;
use at_base::id::Id;
use at_base::message::cloned_option;
use at_base::notice::{Kind, Notice};
use at_base::outs::Ending;
use at_base::record::Record;
use at_posts::list::PostList;
use at_tables::cells::State;
use by_id::fates::{Choice, Fate, Turn};
use std::alloc::{AllocError, Global};

/// Commit to every Prepared seat, in order; the seats then are Committing (section 3.3.3).
pub(crate) fn commit_seats(
    alloc: Global,
    moment: &Moment,
    draft: &mut Draft<'_>,
) -> Result<(), AllocError>
    ensures { OnOk result (draft.new ≡ onto (commit_seats moment.entry.now) draft.old) }
{
    send_each(
        alloc,
        moment,
        draft,
        Notice::Commit,
        State::Committing,
        Group::In(State::Prepared),
    )
}

/// A root's decision: Commit to every Prepared seat, then Committed to the initiator, whose seat is Done from then on.
#[tactic(auto, unfolding(at_model::specs::Phases::decided))]
fn decide(alloc: Global, moment: &Moment, draft: &mut Draft<'_>) -> Result<(), AllocError>
    ensures { OnOk result (draft.new ≡ onto (decided moment.entry.now) draft.old) }
{
    let what = draft.ending(Ending::Committed);
    draft.effect(what)?;
    commit_seats(alloc, moment, draft)?;
    draft.set_phase(Phase::Committing);
    tell_initiator(alloc, moment, draft, Notice::Committed, State::Done)
}

/// A decided root waits for its durable seats; where none is Prepared nobody waits for it, and it is forgotten.
#[tactic(auto, unfolding(at_model::specs::Phases::committed))]
fn committed(
    alloc: Global,
    moment: &Moment,
    mut draft: Draft<'_>,
) -> Result<Turn<Transaction, Move>, AllocError>
    ensures { IfOk result
        (λ turn. turn_of (Some draft.entry.lent) turn ≡ committed moment.entry.now draft.entry.course) }
{
    let is_awaited = draft.has_prepared();
    decide(alloc, moment, &mut draft)?;
    if is_awaited {
        Ok(draft.stays())
    } else {
        Ok(draft.forgotten())
    }
}

/// The abort that is done where a record is absent.
fn absent_abort(
    alloc: Global,
    moment: &Moment,
    draft: &Draft<'_>,
) -> Result<Turn<Transaction, Move>, AllocError>
    ensures { IfOk result
        (λ turn. turn_of (Some draft.now.lent) turn ≡ abort moment.entry.now Alone draft.now.course) }
{
    abort(alloc, moment, &Reason::Alone, draft.branch()?)
}

/// The record of a root's decision.
fn decision_record(alloc: Global, draft: &Draft<'_>) -> Result<Record, AllocError>
    ensures { IfOk result
        (λ entry. entry ≡ records.Decided draft.now.course.item.id (prepared draft.now.course.item.seats)) }
{
    let id = draft.id();
    let seats = draft.prepared(alloc)?;
    Ok(Record::Decided { id, seats })
}

/// Every durable seat of a root has answered: the decision is recorded first, with the seats that are Prepared, also
/// where none is; where that record is absent the transaction aborts.
#[tactic(auto, unfolding(at_model::specs::Phases::root_answered))]
fn root_answered(
    alloc: Global,
    moment: &Moment,
    draft: Draft<'_>,
) -> Result<Choice<Transaction, Move>, AllocError>
    ensures { IfOk result
        (λ choice. meant (Some draft.entry.lent) choice ≡ root_answered moment.entry.now draft.entry.course) }
{
    let entry = decision_record(alloc, &draft)?;
    let absent = absent_abort(alloc, moment, &draft)?;
    let stands = committed(alloc, moment, draft)?;
    Ok(Choice::Records {
        entry,
        stands,
        absent: Some(absent),
    })
}

/// The transaction has voted, under this superior.
fn vote(moment: &Moment, draft: &mut Draft<'_>, superior: Superior)
    ensures { draft.new ≡ onto (λ m. become (record m.item {
      superior = Some superior;
      phase = Stage.Voted;
      sent = Some moment.entry.now.now;
    }) m) draft.old }
{
    draft.item.superior = Some(superior);
    draft.item.phase = Phase::Voted;
    draft.item.sent = Some(moment.now);
}

/// A copy of the superior whose durable link voted Prepared.
fn voted_superior(superior: &Superior) -> Result<Superior, AllocError>
    ensures { IfOk result (λ next. next ≡ link_in kinds.Durable states.PreparedSuccess superior.now) }
{
    let mut next = superior.clone()?;
    next.move_link(Kind::Durable, State::PreparedSuccess);
    Ok(next)
}

/// A subordinate's vote: Prepared upwards.
#[tactic(auto, unfolding(at_model::specs::Phases::voted))]
fn vote_upwards(
    alloc: Global,
    moment: &Moment,
    superior: &Superior,
    draft: &mut Draft<'_>,
) -> Result<(), AllocError>
    ensures { OnOk result (draft.new ≡ onto (voted moment.entry.now superior.now) draft.old) }
{
    let id = draft.id();
    push_upwards(
        alloc,
        &mut draft.posts,
        moment,
        id,
        Kind::Durable,
        Notice::Prepared,
        &superior.durable,
    )?;
    let next = voted_superior(superior)?;
    vote(moment, draft, next);
    Ok(())
}

/// The vote that is done where its record stands.
fn standing_vote(
    alloc: Global,
    moment: &Moment,
    superior: &Superior,
    mut draft: Draft<'_>,
) -> Result<Turn<Transaction, Move>, AllocError>
    ensures { IfOk result
        (λ turn. turn_of (Some draft.entry.lent) turn ≡ stays (voted moment.entry.now superior.now draft.entry.course)) }
{
    vote_upwards(alloc, moment, superior, &mut draft)?;
    Ok(draft.stays())
}

/// A subordinate with no seat Prepared votes ReadOnly, and is forgotten.
fn votes_read_only(
    alloc: Global,
    moment: &Moment,
    superior: &Superior,
    mut draft: Draft<'_>,
) -> Result<Choice<Transaction, Move>, AllocError>
    ensures { IfOk result
        (λ choice. meant (Some draft.entry.lent) choice
        ≡ Goes (forgotten (posts (upwards moment.entry.now.base draft.entry.course.item.id kinds.Durable notices.ReadOnly superior.now.durable) draft.entry.course))) }
{
    let id = draft.id();
    push_upwards(
        alloc,
        &mut draft.posts,
        moment,
        id,
        Kind::Durable,
        Notice::ReadOnly,
        &superior.durable,
    )?;
    Ok(Choice::Goes(draft.forgotten()))
}

/// The record of a subordinate's vote.
fn vote_record(alloc: Global, coordinator: &Epr, draft: &Draft<'_>) -> Result<Record, AllocError>
    ensures { IfOk result
        (λ entry. entry ≡ records.Voted draft.now.course.item.id coordinator.now (prepared draft.now.course.item.seats)) }
{
    let id = draft.id();
    let seats = draft.prepared(alloc)?;
    let superior = coordinator.clone()?;
    Ok(Record::Voted {
        id,
        superior,
        seats,
    })
}

/// A subordinate with a seat Prepared records its vote first; where that record is absent it aborts.
fn records_vote(
    alloc: Global,
    moment: &Moment,
    superior: &Superior,
    coordinator: &Epr,
    draft: Draft<'_>,
) -> Result<Choice<Transaction, Move>, AllocError>
    ensures { IfOk result
        (λ choice. meant (Some draft.entry.lent) choice
        ≡ Records (records.Voted draft.entry.course.item.id coordinator.now (prepared draft.entry.course.item.seats))
        (stays (voted moment.entry.now superior.now draft.entry.course))
        (Some (abort moment.entry.now Alone draft.entry.course))) }
{
    let entry = vote_record(alloc, coordinator, &draft)?;
    let absent = absent_abort(alloc, moment, &draft)?;
    let stands = standing_vote(alloc, moment, superior, draft)?;
    Ok(Choice::Records {
        entry,
        stands,
        absent: Some(absent),
    })
}

/// A subordinate that knows this superior votes.
#[tactic(auto, unfolding(at_model::specs::Phases::sub_answered))]
fn votes(
    alloc: Global,
    moment: &Moment,
    superior: &Superior,
    coordinator: &Epr,
    draft: Draft<'_>,
) -> Result<Choice<Transaction, Move>, AllocError>
    ensures { IfOk result
        (λ choice. meant (Some draft.entry.lent) choice
        ≡ sub_answered moment.entry.now superior.now (Some coordinator.now) draft.entry.course) }
{
    if draft.has_prepared() {
        let choice = records_vote(alloc, moment, superior, coordinator, draft)?;
        Ok(choice)
    } else {
        votes_read_only(alloc, moment, superior, draft)
    }
}

/// Every durable seat of a subordinate has answered: it votes, or aborts where it knows no superior to tell.
#[tactic(auto, unfolding(at_model::specs::Phases::sub_answered))]
fn sub_answered(
    alloc: Global,
    moment: &Moment,
    superior: &Superior,
    draft: Draft<'_>,
) -> Result<Choice<Transaction, Move>, AllocError>
    ensures { IfOk result
        (λ choice. meant (Some draft.entry.lent) choice
        ≡ sub_answered moment.entry.now superior.now superior.now.durable.coordinator draft.entry.course) }
{
    match &superior.durable.coordinator {
        None => aborts(alloc, moment, draft),
        Some(coordinator) => votes(alloc, moment, superior, coordinator, draft),
    }
}

/// The transaction aborts on its own.
pub(crate) fn aborts(
    alloc: Global,
    moment: &Moment,
    draft: Draft<'_>,
) -> Result<Choice<Transaction, Move>, AllocError>
    ensures { IfOk result
        (λ choice. meant (Some draft.entry.lent) choice ≡ Goes (abort moment.entry.now Alone draft.entry.course)) }
{
    Ok(Choice::Goes(abort(alloc, moment, &Reason::Alone, draft)?))
}

/// Every durable seat has answered.
fn durable_answered(
    alloc: Global,
    moment: &Moment,
    draft: Draft<'_>,
) -> Result<Choice<Transaction, Move>, AllocError>
    ensures { IfOk result
        (λ choice. meant (Some draft.entry.lent) choice ≡ durable_answered moment.entry.now draft.entry.course.item.superior draft.entry.course) }
{
    let superior = cloned_option(&draft.item.superior)?;
    match superior {
        None => root_answered(alloc, moment, draft),
        Some(superior) => sub_answered(alloc, moment, &superior, draft),
    }
}

/// What follows once every durable seat has answered.
fn if_durable_answered(
    alloc: Global,
    moment: &Moment,
    draft: Draft<'_>,
) -> Result<Choice<Transaction, Move>, AllocError>
    ensures { IfOk result
        (λ choice. meant (Some draft.entry.lent) choice ≡ if_durable_answered moment.entry.now draft.entry.course) }
{
    if draft.answered(Kind::Durable) {
        durable_answered(alloc, moment, draft)
    } else {
        Ok(Choice::Goes(draft.stays()))
    }
}

/// Every Active seat of the kind gets Prepare.
fn prepare_seats(
    alloc: Global,
    moment: &Moment,
    kind: Kind,
    draft: &mut Draft<'_>,
) -> Result<(), AllocError>
    ensures { OnOk result (draft.new ≡ onto (prepare_seats moment.entry.now kind) draft.old) }
{
    let group = Group::Of {
        kind,
        state: State::Active,
    };
    send_each(
        alloc,
        moment,
        draft,
        Notice::Prepare,
        State::Preparing,
        group,
    )
}

/// The second phase of asking: Prepare to the durable seats, once every volatile one has answered (section 3.3.1).
#[tactic(auto, unfolding(at_model::specs::Phases::go_durable))]
fn go_durable(
    alloc: Global,
    moment: &Moment,
    mut draft: Draft<'_>,
) -> Result<Choice<Transaction, Move>, AllocError>
    ensures { IfOk result
        (λ choice. meant (Some draft.entry.lent) choice ≡ go_durable moment.entry.now draft.entry.course) }
{
    draft.set_phase(Phase::Durable);
    prepare_seats(alloc, moment, Kind::Durable, &mut draft)?;
    let choice = if_durable_answered(alloc, moment, draft)?;
    Ok(choice)
}

/// The transaction is Active again, under this superior.
fn reactivate(draft: &mut Draft<'_>, superior: Superior)
    ensures { draft.new ≡ onto (λ m. become (record m.item { superior = Some superior; phase = Stage.Active }) m) draft.old }
{
    draft.item.superior = Some(superior);
    draft.item.phase = Phase::Active;
}

/// A volatile link that was asked answers ReadOnly, and the transaction is Active again.
fn answers_volatile_link(
    alloc: Global,
    moment: &Moment,
    mut superior: Superior,
    mut draft: Draft<'_>,
) -> Result<Choice<Transaction, Move>, AllocError>
    ensures { IfOk result
        (λ choice. meant (Some draft.entry.lent) choice
        ≡ Goes (stays (posts (upwards moment.entry.now.base draft.entry.course.item.id kinds.Volatile notices.ReadOnly superior.volatile)
        (become (record draft.entry.course.item {
          superior = Some (link_in kinds.Volatile states.None superior);
          phase = Stage.Active;
        }) draft.entry.course)))) }
{
    let id = draft.id();
    push_upwards(
        alloc,
        &mut draft.posts,
        moment,
        id,
        Kind::Volatile,
        Notice::ReadOnly,
        &superior.volatile,
    )?;
    superior.move_link(Kind::Volatile, State::None);
    reactivate(&mut draft, superior);
    Ok(Choice::Goes(draft.stays()))
}

/// Every volatile seat of a subordinate has answered.
#[tactic(auto, unfolding(at_model::specs::Phases::volatile_answered))]
fn sub_volatile_answered(
    alloc: Global,
    moment: &Moment,
    superior: Superior,
    draft: Draft<'_>,
) -> Result<Choice<Transaction, Move>, AllocError>
    ensures { IfOk result
        (λ choice. meant (Some draft.entry.lent) choice ≡ volatile_answered moment.entry.now (Some superior) draft.entry.course) }
{
    if is_state(superior.volatile.state, State::Preparing) {
        return answers_volatile_link(alloc, moment, superior, draft);
    }
    if is_state(superior.durable.state, State::Preparing) {
        return go_durable(alloc, moment, draft);
    }
    Ok(Choice::Goes(draft.stays()))
}

/// Every volatile seat has answered: a volatile link that was asked answers; a root, or a durable link that was asked,
/// goes on to the durable seats.
#[tactic(auto, unfolding(at_model::specs::Phases::volatile_answered))]
fn volatile_answered(
    alloc: Global,
    moment: &Moment,
    draft: Draft<'_>,
) -> Result<Choice<Transaction, Move>, AllocError>
    ensures { IfOk result
        (λ choice. meant (Some draft.entry.lent) choice ≡ volatile_answered moment.entry.now draft.entry.course.item.superior draft.entry.course) }
{
    let superior = cloned_option(&draft.item.superior)?;
    match superior {
        None => go_durable(alloc, moment, draft),
        Some(superior) => sub_volatile_answered(alloc, moment, superior, draft),
    }
}

/// What follows once every volatile seat has answered.
#[tactic(auto, unfolding(at_model::specs::Phases::advance_in))]
fn if_volatile_answered(
    alloc: Global,
    moment: &Moment,
    draft: Draft<'_>,
) -> Result<Choice<Transaction, Move>, AllocError>
    ensures { IfOk result
        (λ choice. meant (Some draft.entry.lent) choice ≡ advance_in moment.entry.now Stage.Volatile draft.entry.course) }
{
    if draft.answered(Kind::Volatile) {
        volatile_answered(alloc, moment, draft)
    } else {
        Ok(Choice::Goes(draft.stays()))
    }
}

/// Adds Committed to the superior, where there is one.
fn push_ended(
    alloc: Global,
    posts: &mut PostList,
    moment: &Moment,
    id: Id,
    superior: &Option<Superior>,
) -> Result<(), AllocError>
    ensures { OnOk result (posts.new ≡ posts.old ++ ended_posts moment.entry.now.base id superior.now) }
{
    let Some(superior) = superior else {
        return Ok(());
    };
    push_upwards(
        alloc,
        posts,
        moment,
        id,
        Kind::Durable,
        Notice::Committed,
        &superior.durable,
    )
}

/// Committed to the superior, where there is one.
fn tell_superior(alloc: Global, moment: &Moment, draft: &mut Draft<'_>) -> Result<(), AllocError>
    ensures { OnOk result
        (draft.new
        ≡ onto (λ m. posts (ended_posts moment.entry.now.base m.item.id m.item.superior) m) draft.old) }
{
    let id = draft.id();
    push_ended(alloc, &mut draft.posts, moment, id, &draft.item.superior)
}

/// What is done behind a record, and undone where that is absent.
pub fn or_undone(entry: Record, stands: Turn<Transaction, Move>) -> Choice<Transaction, Move>
    ensures { (found : Option Known) → meant found result
        ≡ Records entry (turn_of found stands) None }
{
    Choice::Records {
        entry,
        stands,
        absent: None,
    }
}

/// Every durable seat has left after the decision: a subordinate tells its superior Committed (section 3.3.3).
#[tactic(auto, unfolding(at_model::specs::Phases::all_committed))]
fn all_committed(
    alloc: Global,
    moment: &Moment,
    mut draft: Draft<'_>,
) -> Result<Choice<Transaction, Move>, AllocError>
    ensures { IfOk result
        (λ choice. meant (Some draft.entry.lent) choice ≡ all_committed moment.entry.now draft.entry.course) }
{
    tell_superior(alloc, moment, &mut draft)?;
    let id = draft.id();
    Ok(or_undone(Record::Ended { id }, draft.forgotten()))
}

/// Every durable seat has left after the decision, and the transaction is forgotten as it stands.
pub fn ends(
    alloc: Global,
    moment: &Moment,
    transaction: &Transaction,
) -> Result<Choice<Transaction, Move>, AllocError>
    ensures { (found : Option Known) → IfOk result
        (λ choice. meant found choice
        ≡ Records (records.Ended transaction.now.id)
        (record {
          item = None;
          posts = ended_posts moment.entry.now.base transaction.now.id transaction.now.superior;
          effects = [];
        }) None) }
{
    let id = transaction.id;
    let mut posts = PostList::new(alloc);
    push_ended(alloc, &mut posts, moment, id, &transaction.superior)?;
    Ok(or_undone(
        Record::Ended { id },
        Turn::silent(alloc, Fate::Forget, posts),
    ))
}

/// The transaction is forgotten, and nothing is sent.
pub fn forgets(alloc: Global) -> Choice<Transaction, Move>
    ensures { (found : Option Known) → meant found result
        ≡ Goes (record { item = None; posts = []; effects = [] }) }
{
    Choice::Goes(Turn::silent(alloc, Fate::Forget, PostList::new(alloc)))
}

/// What follows once every durable seat has left.
#[tactic(auto, unfolding(at_model::specs::Phases::advance_in))]
fn if_all_left(
    alloc: Global,
    moment: &Moment,
    draft: Draft<'_>,
) -> Result<Choice<Transaction, Move>, AllocError>
    ensures { IfOk result
        (λ choice. meant (Some draft.entry.lent) choice ≡ advance_in moment.entry.now Stage.Committing draft.entry.course) }
{
    if draft.all_left() {
        all_committed(alloc, moment, draft)
    } else {
        Ok(Choice::Goes(draft.stays()))
    }
}

/// Goes on, where what the transaction's phase waits for has come.
#[tactic(auto, unfolding(at_model::specs::Phases::advance_in))]
pub(crate) fn advance(
    alloc: Global,
    moment: &Moment,
    draft: Draft<'_>,
) -> Result<Choice<Transaction, Move>, AllocError>
    ensures { IfOk result
        (λ choice. meant (Some draft.entry.lent) choice ≡ advance moment.entry.now draft.entry.course) }
{
    match draft.item.phase {
        Phase::Registering | Phase::Active | Phase::Voted => Ok(Choice::Goes(draft.stays())),
        Phase::Volatile => if_volatile_answered(alloc, moment, draft),
        Phase::Durable => if_durable_answered(alloc, moment, draft),
        Phase::Committing => if_all_left(alloc, moment, draft),
        Phase::Aborting => Ok(Choice::Goes(until_rolled_back(draft))),
    }
}

/// The first phase of asking: Prepare to the volatile seats (section 3.3.1).
#[tactic(auto, unfolding(at_model::specs::Phases::go_volatile))]
pub(crate) fn go_volatile(
    alloc: Global,
    moment: &Moment,
    mut draft: Draft<'_>,
) -> Result<Choice<Transaction, Move>, AllocError>
    ensures { IfOk result
        (λ choice. meant (Some draft.entry.lent) choice ≡ go_volatile moment.entry.now draft.entry.course) }
{
    draft.set_phase(Phase::Volatile);
    prepare_seats(alloc, moment, Kind::Volatile, &mut draft)?;
    let choice = advance(alloc, moment, draft)?;
    Ok(choice)
}
