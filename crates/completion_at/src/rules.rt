//! What a message does to one activity (WS-AtomicTransaction 1.2, sections 3.2 and 10).

ghost use Rattle.std.specs.Prelude.{◌≡◌, IfOk, Some, None, if◌then◌else◌, bytes_eq};
ghost use Rattle.at_base.specs.declared.fault.Fault.TheVariants.{InvalidState, UnknownTransaction};
ghost use Rattle.at_base.specs.Names.{fault_name};
ghost use Rattle.at_model.specs.Activities.{activity_target, activity_state, is_begun, told, activity_act, activity_notice, completion_register, with_context, activity_created, activity_registered, activity_fault, on_activity};
ghost use Rattle.endpoints.specs.Addresses.{create_id, register_id};
ghost use Rattle.at_model.specs.Arrivals.{relates_to};
ghost use Rattle.at_model.specs.Book.{Activity as Known, Progress as Stage};
ghost use Rattle.at_model.specs.Moves.{begin, ignored, post, posts, stays, Goes};
ghost use Rattle.at_model.specs.Posts.{fault_post, stored_or, to_each};
ghost use Rattle.at_tables.specs.Tables.{initiator_of};
ghost use Rattle.by_id.specs.Unmoved.{meant, turn_of};
ghost use Rattle.completion_at.specs.Names.{progress_of};

use crate::activity::{Activity, Progress};
use crate::posts::{completion_register, invalid_state, target_of};
use at_base::epr::Epr;
use at_base::event::{Arrived, Moment};
use at_base::message::{Context, Message};
use at_base::notice::Notice;
use at_base::outs::{Effect, Told};
use at_base::text::Text;
use at_posts::answers::relates_to;
use at_posts::kept::{kept, kept_context};
use at_posts::list::PostList;
use at_tables::cells::{Act, State, initiator_cell};
use by_id::fates::{Choice, Fate, Turn};
use by_id::list::is_same;
use endpoints::addresses::{create_id, register_id};
use std::alloc::{AllocError, Global};

/// The activity ends, and is told how.
pub fn told(
    alloc: Global,
    activity: &Activity,
    what: Told,
) -> Result<Choice<Activity, ()>, AllocError>
    ensures { IfOk result (λ choice. meant (Some activity.now) choice ≡ told what activity.now) }
{
    let effect = Effect::Told {
        id: activity.id,
        what,
    };
    let turn = Turn::with_effect(alloc, Fate::Forget, PostList::new(alloc), effect)?;
    Ok(Choice::Goes(turn))
}

/// The activity is given anew, and nothing is sent.
fn anew(alloc: Global, next: Activity) -> Choice<Activity, ()>
    ensures { (found : Known) → meant (Some found) result ≡ Goes (stays (begin next)) }
{
    Choice::Goes(Turn::silent(alloc, Fate::Put(next), PostList::new(alloc)))
}

/// Whether an activity was begun, and so may commit.
pub fn is_begun(activity: &Activity) -> bool
    ensures { result ≡ is_begun activity.now }
{
    is_same(activity.root, activity.id)
}

/// What the initiator's table sees of an activity: nothing before Active.
fn state_of(progress: Progress) -> State
    ensures { result ≡ activity_state (progress_of progress) }
{
    match progress {
        Progress::Creating | Progress::Registering => State::None,
        Progress::Active => State::Active,
        Progress::Completing(_) => State::Completing,
    }
}

/// The fault InvalidState, which leaves the activity as it stands.
fn faults(
    alloc: Global,
    from: &Option<Epr>,
    id: &Option<Text>,
    activity: &Activity,
) -> Result<Turn<Activity, ()>, AllocError>
    ensures { IfOk result
        (λ turn. turn_of (Some activity.now) turn
        ≡ stays
        (posts
        (to_each (stored_or activity.now.coordinator from.now) (λ to. fault_post (Some to) id.now InvalidState))
        (begin activity.now))) }
{
    let posts = invalid_state(alloc, from, id, activity)?;
    Ok(Turn::silent(alloc, Fate::Keep, posts))
}

/// An act of the initiator's table at an activity.
#[tactic(auto, unfolding(at_model::specs::Activities::activity_act))]
fn acts(
    alloc: Global,
    moment: &Moment,
    from: &Option<Epr>,
    id: &Option<Text>,
    activity: &Activity,
    act: Act,
) -> Result<Choice<Activity, ()>, AllocError>
    ensures { IfOk result
        (λ choice. meant (Some activity.now) choice
        ≡ activity_act moment.entry.now from.now id.now activity.now act) }
{
    match act {
        Act::TellCommitted => told(alloc, activity, Told::Committed),
        Act::TellAborted => told(alloc, activity, Told::Aborted),
        Act::FaultInvalidState => Ok(Choice::Goes(faults(alloc, from, id, activity)?)),
        _ => Ok(Choice::ignored(alloc)),
    }
}

/// A notification at an activity, by the initiator's table.
#[tactic(auto, unfolding(at_model::specs::Activities::activity_notice))]
fn notified(
    alloc: Global,
    moment: &Moment,
    from: &Option<Epr>,
    id: &Option<Text>,
    activity: &Activity,
    notice: Notice,
) -> Result<Choice<Activity, ()>, AllocError>
    ensures { IfOk result
        (λ choice. meant (Some activity.now) choice
        ≡ activity_notice moment.entry.now from.now id.now activity.now
        (initiator_of (activity_state activity.now.progress) notice)) }
{
    match initiator_cell(state_of(activity.progress), notice) {
        Some(cell) => acts(alloc, moment, from, id, activity, cell.act),
        None => Ok(Choice::ignored(alloc)),
    }
}

/// Whether a message answers the activity's CreateCoordinationContext.
fn answers_create(
    alloc: Global,
    moment: &Moment,
    relates: &Option<Text>,
    activity: &Activity,
) -> Result<bool, AllocError>
    ensures { IfOk result
        (λ yes. yes
        ≡ relates_to relates.now (create_id moment.entry.now.base (activity_target activity.now))) }
{
    let id = create_id(alloc, &moment.base, &target_of(activity))?;
    Ok(relates_to(relates, &id))
}

/// Whether a message answers the activity's Register.
fn answers_register(
    alloc: Global,
    moment: &Moment,
    relates: &Option<Text>,
    activity: &Activity,
) -> Result<bool, AllocError>
    ensures { IfOk result
        (λ yes. yes
        ≡ relates_to relates.now (register_id moment.entry.now.base (activity_target activity.now))) }
{
    let id = register_id(alloc, &moment.base, &target_of(activity))?;
    Ok(relates_to(relates, &id))
}

/// A copy of the activity with its context.
fn given(
    alloc: Global,
    activity: &Activity,
    context: &Context,
    progress: Progress,
) -> Result<Activity, AllocError>
    ensures { IfOk result
        (λ next. next
        ≡ record activity.now { progress = progress_of progress; context = Some context.now }) }
{
    let context = kept_context(alloc, context)?;
    let mut next = activity.clone()?;
    next.progress = progress;
    next.context = Some(context);
    Ok(next)
}

/// A copy of the activity that registers now.
fn registering(
    alloc: Global,
    moment: &Moment,
    activity: &Activity,
    context: &Context,
) -> Result<Activity, AllocError>
    ensures { IfOk result
        (λ next. next
        ≡ record activity.now {
          progress = Stage.Registering;
          context = Some context.now;
          sent = Some moment.entry.now.now;
        }) }
{
    let mut next = given(alloc, activity, context, Progress::Registering)?;
    next.sent = Some(moment.now);
    Ok(next)
}

/// A begun activity has its context, and registers for Completion.
fn registers(
    alloc: Global,
    moment: &Moment,
    activity: &Activity,
    context: &Context,
) -> Result<Turn<Activity, ()>, AllocError>
    ensures { IfOk result
        (λ turn. turn_of (Some activity.now) turn
        ≡ stays
        (post (completion_register moment.entry.now.base activity.now context.now.registration)
        (begin (record activity.now {
          progress = Stage.Registering;
          context = Some context.now;
          sent = Some moment.entry.now.now;
        })))) }
{
    let register = completion_register(alloc, moment, activity, &context.registration)?;
    let posts = PostList::alone(alloc, register)?;
    let next = registering(alloc, moment, activity, context)?;
    Ok(Turn::silent(alloc, Fate::Put(next), posts))
}

/// An activity has its context: a begun one registers for Completion, and an interposed one is Active.
fn with_context(
    alloc: Global,
    moment: &Moment,
    activity: &Activity,
    context: &Context,
) -> Result<Choice<Activity, ()>, AllocError>
    ensures { IfOk result
        (λ choice. meant (Some activity.now) choice
        ≡ with_context moment.entry.now context.now activity.now) }
{
    if is_begun(activity) {
        return Ok(Choice::Goes(registers(alloc, moment, activity, context)?));
    }
    let next = given(alloc, activity, context, Progress::Active)?;
    Ok(anew(alloc, next))
}

/// A CreateCoordinationContextResponse at an activity.
#[tactic(auto, unfolding(at_model::specs::Activities::activity_created))]
fn created(
    alloc: Global,
    moment: &Moment,
    relates: &Option<Text>,
    context: &Context,
    activity: &Activity,
) -> Result<Choice<Activity, ()>, AllocError>
    ensures { IfOk result
        (λ choice. meant (Some activity.now) choice
        ≡ activity_created moment.entry.now relates.now context.now activity.now activity.now.progress) }
{
    match activity.progress {
        Progress::Creating => {
            if answers_create(alloc, moment, relates, activity)? {
                with_context(alloc, moment, activity, context)
            } else {
                Ok(Choice::ignored(alloc))
            }
        }
        Progress::Registering | Progress::Active | Progress::Completing(_) => Ok(Choice::ignored(
            alloc,
        )),
    }
}

/// A copy of the activity that is registered at this endpoint.
fn registered_at(
    alloc: Global,
    activity: &Activity,
    coordinator: &Epr,
) -> Result<Activity, AllocError>
    ensures { IfOk result
        (λ next. next
        ≡ record activity.now { progress = Stage.Active; coordinator = Some coordinator.now }) }
{
    let coordinator = kept(alloc, coordinator)?;
    let mut next = activity.clone()?;
    next.progress = Progress::Active;
    next.coordinator = Some(coordinator);
    Ok(next)
}

/// The activity is registered at this endpoint, where the message answers its Register.
fn registers_at(
    alloc: Global,
    moment: &Moment,
    relates: &Option<Text>,
    coordinator: &Epr,
    activity: &Activity,
) -> Result<Choice<Activity, ()>, AllocError>
    ensures { IfOk result
        (λ choice. meant (Some activity.now) choice
        ≡ if relates_to relates.now (register_id moment.entry.now.base (activity_target activity.now))
        then Goes
        (stays
        (begin (record activity.now { progress = Stage.Active; coordinator = Some coordinator.now })))
        else ignored activity.now) }
{
    if answers_register(alloc, moment, relates, activity)? {
        let next = registered_at(alloc, activity, coordinator)?;
        Ok(anew(alloc, next))
    } else {
        Ok(Choice::ignored(alloc))
    }
}

/// A RegisterResponse at an activity.
#[tactic(auto, unfolding(at_model::specs::Activities::activity_registered))]
fn registered(
    alloc: Global,
    moment: &Moment,
    relates: &Option<Text>,
    coordinator: &Epr,
    activity: &Activity,
) -> Result<Choice<Activity, ()>, AllocError>
    ensures { IfOk result
        (λ choice. meant (Some activity.now) choice
        ≡ activity_registered moment.entry.now relates.now coordinator.now activity.now activity.now.progress) }
{
    match activity.progress {
        Progress::Registering => registers_at(alloc, moment, relates, coordinator, activity),
        Progress::Creating | Progress::Active | Progress::Completing(_) => Ok(Choice::ignored(
            alloc,
        )),
    }
}

/// The activity is told this, where that holds, and else nothing happens.
fn told_if(
    alloc: Global,
    activity: &Activity,
    holds: bool,
    what: Told,
) -> Result<Choice<Activity, ()>, AllocError>
    ensures { IfOk result
        (λ choice. meant (Some activity.now) choice
        ≡ if holds then told what activity.now else ignored activity.now) }
{
    if holds {
        told(alloc, activity, what)
    } else {
        Ok(Choice::ignored(alloc))
    }
}

/// Whether a fault says that the transaction is unknown (WS-AtomicTransaction 1.2, section 7.2).
fn is_unknown(name: &Text) -> bool
    ensures { result ≡ bytes_eq name.now (fault_name UnknownTransaction) }
{
    name.as_str() == "UnknownTransaction"
}

/// A fault at an activity.
#[tactic(auto, unfolding(at_model::specs::Activities::activity_fault))]
fn faulted(
    alloc: Global,
    moment: &Moment,
    relates: &Option<Text>,
    name: &Text,
    activity: &Activity,
) -> Result<Choice<Activity, ()>, AllocError>
    ensures { IfOk result
        (λ choice. meant (Some activity.now) choice
        ≡ activity_fault moment.entry.now relates.now name.now activity.now activity.now.progress) }
{
    match activity.progress {
        Progress::Creating => {
            let answers = answers_create(alloc, moment, relates, activity)?;
            told_if(alloc, activity, answers, Told::Refused)
        }
        Progress::Registering => {
            let answers = answers_register(alloc, moment, relates, activity)?;
            told_if(alloc, activity, answers, Told::Refused)
        }
        Progress::Active => Ok(Choice::ignored(alloc)),
        Progress::Completing(_) => told_if(alloc, activity, is_unknown(name), Told::Unknown),
    }
}

/// A message at an activity.
#[tactic(auto, unfolding(at_model::specs::Activities::on_activity))]
pub fn on_activity(
    alloc: Global,
    moment: &Moment,
    arrived: &Arrived,
    activity: &Activity,
) -> Result<Choice<Activity, ()>, AllocError>
    ensures { IfOk result
        (λ choice. meant (Some activity.now) choice
        ≡ on_activity moment.entry.now arrived.now activity.now arrived.now.message) }
{
    let relates = &arrived.relates;
    match &arrived.message {
        Message::Notice(notice) => notified(
            alloc,
            moment,
            &arrived.from,
            &arrived.id,
            activity,
            *notice,
        ),
        Message::CreateResponse(context) => created(alloc, moment, relates, context, activity),
        Message::RegisterResponse(to) => registered(alloc, moment, relates, to, activity),
        Message::Fault { name } => faulted(alloc, moment, relates, name, activity),
        _ => Ok(Choice::ignored(alloc)),
    }
}
