//! What an activity does by itself: it expires, and it sends again (WS-Coordination 1.2, section 2.1; this project's
//! profile).

ghost use Rattle.std.specs.Prelude.{ℕ, List, ◌≡◌, ◌&&◌, IfOk, Some};
ghost use Rattle.at_model.specs.Activities.{is_begun};
ghost use Rattle.at_model.specs.Due.{has_come, is_quiet, is_some_post, before_active, activity_again, activity_due, activity_reached, completion_register_again};
ghost use Rattle.at_model.specs.Moves.{begin, posts, stays};
ghost use Rattle.at_model.specs.Step.{is_reached};
ghost use Rattle.by_id.specs.Unmoved.{meant, turn_of};
ghost use Rattle.completion_at.specs.Names.{progress_of};

use crate::activity::{Activity, Progress};
use crate::posts::{completion, completion_register};
use crate::rules::{is_begun, told};
use at_base::event::Moment;
use at_base::id::Id;
use at_base::outs::Told;
use at_posts::list::PostList;
use by_id::fates::{Choice, Fate, Turn};
use by_id::list::Identified;
use by_id::times::{has_come, is_quiet};
use std::alloc::{AllocError, Global};

/// Whether an activity still waits for its context or its registration.
fn before_active(progress: Progress) -> bool
    ensures { result ≡ before_active (progress_of progress) }
{
    match progress {
        Progress::Creating | Progress::Registering => true,
        Progress::Active | Progress::Completing(_) => false,
    }
}

/// Whether a begun activity has expired before it is Active.
fn is_expired(moment: &Moment, activity: &Activity) -> bool
    ensures { result
        ≡ (is_begun activity.now && before_active activity.now.progress
        && has_come moment.entry.now.now activity.now.deadline) }
{
    is_begun(activity)
        && before_active(activity.progress)
        && has_come(moment.now, activity.deadline)
}

/// Whether an activity waits for an answer to what it can send again.
fn waits(activity: &Activity) -> bool
    ensures { (base : List ℕ) → result ≡ is_some_post (activity_again base activity.now activity.now.progress) }
{
    match activity.progress {
        Progress::Registering => activity.context.is_some(),
        Progress::Completing(_) => activity.coordinator.is_some(),
        Progress::Creating | Progress::Active => false,
    }
}

/// Whether an activity has waited long enough to send again.
fn is_unanswered(moment: &Moment, activity: &Activity) -> bool
    ensures { result
        ≡ (is_quiet moment.entry.now.now activity.now.sent
        && is_some_post (activity_again moment.entry.now.base activity.now activity.now.progress)) }
{
    is_quiet(moment.now, activity.sent) && waits(activity)
}

/// Whether an activity is due.
pub fn is_due(moment: &Moment, activity: &Activity) -> bool
    ensures { result ≡ is_reached (activity_due moment.entry.now activity.now) }
{
    is_expired(moment, activity) || is_unanswered(moment, activity)
}

impl Identified for Activity {
    ghost use Rattle.at_model.specs.Book.{activity_id};
    ghost use Rattle.at_model.specs.Due.{activity_due};
    ghost use Rattle.at_model.specs.Step.{is_reached};
    ghost use Rattle.by_id.specs.Unmoved.{unmoved};

    type Move = ();

    ghost id_of = { activity_id };

    ghost is_due_at = { λ m a. is_reached (activity_due m a) };

    ghost moved = { unmoved };

    fn id(&self) -> Id {
        self.id
    }

    fn is_due(&self, moment: &Moment) -> bool {
        is_due(moment, self)
    }

    fn make(&mut self, by: ()) {
        let _nothing = by;
    }
}

/// The Register that waits for its answer.
fn register_again(
    alloc: Global,
    moment: &Moment,
    activity: &Activity,
) -> Result<PostList, AllocError>
    ensures { IfOk result
        (λ posts. posts
        ≡ completion_register_again moment.entry.now.base activity.now activity.now.context) }
{
    match &activity.context {
        Some(context) => {
            let register = completion_register(alloc, moment, activity, &context.registration)?;
            PostList::alone(alloc, register)
        }
        None => Ok(PostList::new(alloc)),
    }
}

/// What an activity sends again: its Register, or its Commit or Rollback.
fn again(alloc: Global, moment: &Moment, activity: &Activity) -> Result<PostList, AllocError>
    ensures { IfOk result
        (λ posts. posts ≡ activity_again moment.entry.now.base activity.now activity.now.progress) }
{
    match activity.progress {
        Progress::Registering => register_again(alloc, moment, activity),
        Progress::Completing(notice) => completion(alloc, moment, activity, notice),
        Progress::Creating | Progress::Active => Ok(PostList::new(alloc)),
    }
}

/// A copy of the activity that has sent now.
fn sent_now(moment: &Moment, activity: &Activity) -> Result<Activity, AllocError>
    ensures { IfOk result (λ next. next ≡ record activity.now { sent = Some moment.entry.now.now }) }
{
    let mut next = activity.clone()?;
    next.sent = Some(moment.now);
    Ok(next)
}

/// The activity sends again.
fn sends_again(
    alloc: Global,
    moment: &Moment,
    activity: &Activity,
) -> Result<Turn<Activity, ()>, AllocError>
    ensures { IfOk result
        (λ turn. turn_of (Some activity.now) turn
        ≡ stays
        (posts (activity_again moment.entry.now.base activity.now activity.now.progress)
        (begin (record activity.now { sent = Some moment.entry.now.now })))) }
{
    let posts = again(alloc, moment, activity)?;
    let next = sent_now(moment, activity)?;
    Ok(Turn::silent(alloc, Fate::Put(next), posts))
}

/// An activity that is asked whether it is due.
#[tactic(auto, unfolding(at_model::specs::Due::activity_reached))]
pub fn on_due(
    alloc: Global,
    moment: &Moment,
    activity: &Activity,
) -> Result<Choice<Activity, ()>, AllocError>
    ensures { IfOk result
        (λ choice. meant (Some activity.now) choice
        ≡ activity_reached moment.entry.now activity.now (activity_due moment.entry.now activity.now)) }
{
    if is_expired(moment, activity) {
        return told(alloc, activity, Told::Unknown);
    }
    if is_unanswered(moment, activity) {
        return Ok(Choice::Goes(sends_again(alloc, moment, activity)?));
    }
    Ok(Choice::ignored(alloc))
}
