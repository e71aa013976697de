//! The requests of the program that runs an initiator.

ghost use Rattle.std.specs.Prelude.{◌≡◌, ◌<◌, ◌+◌, IfOk, Some, None, nat_lt, option_map, option_copied};
ghost use Rattle.at_model.specs.Activities.{service, create_post, asked_expires, new_activity, beginning, on_begin, on_interpose, on_ask, on_complete, is_active};
ghost use Rattle.endpoints.specs.Addresses.{atomic, without_slash};
ghost use Rattle.at_model.specs.Book.{Progress as Stage, last_counter};
ghost use Rattle.at_model.specs.Moves.{begin, post, stays};
ghost use Rattle.at_model.specs.Step.{refuses_named, works_left, only_begun};
ghost use Rattle.by_id.specs.Unmoved.{turn_of};
ghost use Rattle.completion_at.specs.Names.{progress_of, refusal_of};
ghost use Rattle.completion_at.specs.ActivityPlans.{begun, no_room, nth_work};

use crate::activity::{Activity, Progress};
use crate::posts::{completion, target_of};
use crate::rules::is_begun;
use at_base::epr::Epr;
use at_base::event::Moment;
use at_base::id::Id;
use at_base::limits::MOST_ACTIVITIES;
use at_base::message::{Context, Create, Message, Work, cloned_option};
use at_base::notice::{Kind, Notice, Vote};
use at_base::outs::{Out, OutList, Post};
use at_base::text::Text;
use at_posts::list::PostList;
use at_posts::posts::request_post;
use by_id::fates::{Fate, Turn};
use by_id::plan::Plan;
use by_id::times::deadline_of;
use endpoints::addresses::{create_id, work_id};
use endpoints::uris::atomic;
use std::alloc::{AllocError, Global};

/// Why a request is refused.
#[derive(Clone, Copy, Debug, PartialEq, Eq)]
pub enum Refusal {
    /// The activity that it names is gone, or doesn't take it where it stands.
    Stale,
    /// The node has as many activities as it may.
    Full,
    /// Nothing is left to count with.
    Spent,
}

/// Whether an activity takes requests.
pub(crate) fn is_active(progress: Progress) -> bool
    ensures { result ≡ is_active (progress_of progress) }
{
    match progress {
        Progress::Active => true,
        Progress::Creating | Progress::Registering | Progress::Completing(_) => false,
    }
}

/// Why no activity can be made.
pub(crate) fn no_room(live: usize, next: Option<Id>) -> Option<Refusal>
    ensures { option_map refusal_of result ≡ no_room live next }
{
    if live >= MOST_ACTIVITIES {
        return Some(Refusal::Full);
    }
    match next {
        Some(_) => None,
        None => Some(Refusal::Spent),
    }
}

/// Why the activity that a request names doesn't take it, or this.
pub(crate) fn refuses_named(found: Option<&Activity>, more: Option<Refusal>) -> Option<Refusal>
    ensures { option_map refusal_of result
        ≡ refuses_named (option_copied found.entry) (option_map refusal_of more) }
{
    match found {
        Some(activity) => {
            if is_active(activity.progress) {
                more
            } else {
                Some(Refusal::Stale)
            }
        }
        None => Some(Refusal::Stale),
    }
}

/// Whether an activity can count one more Work.
pub(crate) fn has_works_left(activity: &Activity) -> bool
    ensures { result ≡ nat_lt activity.now.works last_counter }
{
    activity.works < u32::MAX
}

/// Why an activity can't count one more Work.
pub(crate) fn works_left(found: Option<&Activity>) -> Option<Refusal>
    ensures { option_map refusal_of result ≡ works_left (option_copied found.entry) }
{
    match found {
        Some(activity) => {
            if has_works_left(activity) {
                None
            } else {
                Some(Refusal::Spent)
            }
        }
        None => Some(Refusal::Stale),
    }
}

/// Why an activity can't commit or roll back: it was interposed.
pub(crate) fn only_begun(found: Option<&Activity>) -> Option<Refusal>
    ensures { option_map refusal_of result ≡ only_begun (option_copied found.entry) }
{
    match found {
        Some(activity) => {
            if is_begun(activity) {
                None
            } else {
                Some(Refusal::Stale)
            }
        }
        None => Some(Refusal::Stale),
    }
}

/// A base URL without a slash at its end.
fn without_slash(url: &str) -> &str
    ensures { result.now ≡ without_slash url.now }
{
    match url.strip_suffix('/') {
        Some(front) => front,
        None => url,
    }
}

/// The endpoint of a service at a base URL.
fn service(alloc: Global, url: &Text, path: &str) -> Result<Epr, AllocError>
    ensures { IfOk result (λ epr. epr ≡ service url.now path.now) }
{
    let base = without_slash(url.as_str());
    let address = format!(in alloc; "{}{}", base, path)?;
    Ok(Epr {
        address: Text::from_string(address),
        params: Text::copied(alloc, "")?,
    })
}

/// The body of CreateCoordinationContext (WS-Coordination 1.2, section 3.1).
fn create_of(
    alloc: Global,
    expires: Option<u32>,
    current: &Option<Context>,
) -> Result<Create, AllocError>
    ensures { IfOk result
        (λ create. create
        ≡ record { expires = expires; current = current.now; coordination = atomic }) }
{
    let current = cloned_option(current)?;
    let coordination = Text::copied(alloc, atomic())?;
    Ok(Create {
        expires,
        current,
        coordination,
    })
}

/// An activity's CreateCoordinationContext (WS-Coordination 1.2, section 3.1).
fn create_post(
    alloc: Global,
    moment: &Moment,
    activity: &Activity,
    coordinator: &Text,
    expires: Option<u32>,
    current: &Option<Context>,
) -> Result<Post, AllocError>
    ensures { IfOk result
        (λ post. post
        ≡ create_post moment.entry.now.base activity.now coordinator.now expires current.now) }
{
    let own = target_of(activity);
    let to = service(alloc, coordinator, "/activation")?;
    let id = create_id(alloc, &moment.base, &own)?;
    let create = create_of(alloc, expires, current)?;
    request_post(alloc, &moment.base, &own, &to, id, Message::Create(create))
}

/// A new activity, which asks for its context.
fn beginning(
    alloc: Global,
    moment: &Moment,
    coordinator: &Text,
    expires: Option<u32>,
    current: &Option<Context>,
    activity: Activity,
) -> Result<Plan<Activity, ()>, AllocError>
    ensures { IfOk result
        (λ plan. plan
        ≡ begun (beginning moment.entry.now.base coordinator.now expires current.now activity)) }
{
    let post = create_post(alloc, moment, &activity, coordinator, expires, current)?;
    let mut outs = OutList::from_vec(Vec::new(alloc));
    outs.push(Out::Post(post))?;
    Ok(Plan::making(alloc, activity, outs))
}

/// The Expires that is asked for: none with 0.
fn asked_expires(ms: u32) -> Option<u32>
    ensures { result ≡ asked_expires ms }
{
    if ms == 0 { None } else { Some(ms) }
}

/// An activity that waits for its context.
fn new_activity(id: Id, root: Id, deadline: Option<u128>) -> Activity
    ensures { result ≡ new_activity id root deadline }
{
    Activity {
        id,
        root,
        progress: Progress::Creating,
        context: None,
        coordinator: None,
        works: 0,
        deadline,
        sent: None,
    }
}

/// Begin: a new activity of this id asks for a context (WS-Coordination 1.2, section 3.1).
#[tactic(auto, unfolding(at_model::specs::Activities::on_begin))]
pub(crate) fn on_begin(
    alloc: Global,
    moment: &Moment,
    id: Id,
    coordinator: &Text,
    ms: u32,
) -> Result<Plan<Activity, ()>, AllocError>
    ensures { IfOk result (λ plan. plan ≡ begun (on_begin moment.entry.now id coordinator.now ms)) }
{
    let expires = asked_expires(ms);
    let activity = new_activity(id, id, deadline_of(moment.now, expires));
    beginning(alloc, moment, coordinator, expires, &None, activity)
}

/// Interpose: a new activity of this id, under the root of another, asks for a context under that one's.
#[tactic(auto, unfolding(at_model::specs::Activities::on_interpose))]
pub(crate) fn on_interpose(
    alloc: Global,
    moment: &Moment,
    id: Id,
    coordinator: &Text,
    above: &Activity,
) -> Result<Plan<Activity, ()>, AllocError>
    ensures { IfOk result
        (λ plan. plan
        ≡ begun (on_interpose moment.entry.now id coordinator.now above.now.root above.now.context)) }
{
    let activity = new_activity(id, above.root, None);
    beginning(alloc, moment, coordinator, None, &above.context, activity)
}

/// The body of a Work under this context.
fn work_of(
    context: &Context,
    kind: Kind,
    vote: Vote,
    key: &Text,
    value: &Text,
) -> Result<Work, AllocError>
    ensures { IfOk result
        (λ work. work
        ≡ record {
          context = context.now;
          key = key.now;
          value = value.now;
          kind = kind;
          vote = vote;
        }) }
{
    let key = key.clone()?;
    let value = value.clone()?;
    let context = context.clone()?;
    Ok(Work {
        context,
        key,
        value,
        kind,
        vote,
    })
}

/// An activity's n-th Work.
fn nth_work(
    alloc: Global,
    moment: &Moment,
    activity: &Activity,
    n: u32,
    url: &Text,
    work: Work,
) -> Result<Post, AllocError>
    ensures { IfOk result (λ post. post ≡ nth_work moment.entry.now.base activity.now n url.now work) }
{
    let own = target_of(activity);
    let to = service(alloc, url, "/work")?;
    let id = work_id(alloc, &moment.base, &own, n)?;
    request_post(alloc, &moment.base, &own, &to, id, Message::Work(work))
}

/// A copy of the activity that has sent so many Works.
fn counted(activity: &Activity, works: u32) -> Result<Activity, AllocError>
    ensures { IfOk result (λ next. next ≡ record activity.now { works = works }) }
{
    let mut next = activity.clone()?;
    next.works = works;
    Ok(next)
}

/// The number of the activity's next Work.
fn next_work(activity: &Activity) -> u32
    requires { activity.now.works < 4294967295 }
    ensures { result ≡ activity.now.works + 1 }
{
    activity.works + 1
}

/// The activity's n-th Work is sent.
fn sends_work(
    alloc: Global,
    moment: &Moment,
    url: &Text,
    work: Work,
    n: u32,
    activity: &Activity,
) -> Result<Turn<Activity, ()>, AllocError>
    ensures { IfOk result
        (λ turn. turn_of (Some activity.now) turn
        ≡ stays
        (post (nth_work moment.entry.now.base activity.now n url.now work)
        (begin (record activity.now { works = n })))) }
{
    let work = nth_work(alloc, moment, activity, n, url, work)?;
    let posts = PostList::alone(alloc, work)?;
    let next = counted(activity, n)?;
    Ok(Turn::silent(alloc, Fate::Put(next), posts))
}

/// Work, at an activity that can count it: asks a service for work under the activity's context.
#[tactic(auto, unfolding(at_model::specs::Activities::on_ask))]
pub(crate) fn on_ask(
    alloc: Global,
    moment: &Moment,
    url: &Text,
    kind: Kind,
    vote: Vote,
    key: &Text,
    value: &Text,
    activity: &Activity,
) -> Result<Turn<Activity, ()>, AllocError>
    requires { activity.now.works < 4294967295 }
    ensures { IfOk result
        (λ turn. turn_of (Some activity.now) turn
        ≡ on_ask moment.entry.now url.now kind vote key.now value.now activity.now activity.now.context) }
{
    match &activity.context {
        Some(context) => {
            let work = work_of(context, kind, vote, key, value)?;
            sends_work(alloc, moment, url, work, next_work(activity), activity)
        }
        None => Ok(Turn::silent(alloc, Fate::Keep, PostList::new(alloc))),
    }
}

/// A copy of the activity that asks for its outcome now.
fn completing(moment: &Moment, notice: Notice, activity: &Activity) -> Result<Activity, AllocError>
    ensures { IfOk result
        (λ next. next
        ≡ record activity.now { progress = Stage.Completing notice; sent = Some moment.entry.now.now }) }
{
    let mut next = activity.clone()?;
    next.progress = Progress::Completing(notice);
    next.sent = Some(moment.now);
    Ok(next)
}

/// Commit or Rollback: asks the completion seat for that outcome (WS-AtomicTransaction 1.2, section 3.2).
#[tactic(auto, unfolding(at_model::specs::Activities::on_complete))]
pub(crate) fn on_complete(
    alloc: Global,
    moment: &Moment,
    notice: Notice,
    activity: &Activity,
) -> Result<Turn<Activity, ()>, AllocError>
    ensures { IfOk result (λ turn. turn_of (Some activity.now) turn ≡ on_complete moment.entry.now notice activity.now) }
{
    let posts = completion(alloc, moment, activity, notice)?;
    let next = completing(moment, notice, activity)?;
    Ok(Turn::silent(alloc, Fate::Put(next), posts))
}
