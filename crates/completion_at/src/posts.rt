//! What an activity sends again, and the faults that it sends.

ghost use Rattle.std.specs.Prelude.{◌≡◌, IfOk, Some};
ghost use Rattle.at_base.specs.declared.fault.Fault.TheVariants.{InvalidState};
ghost use Rattle.at_model.specs.Activities.{activity_target, completion_register, complete_posts};
ghost use Rattle.at_model.specs.Posts.{fault_post, stored_or, to_each};

use crate::activity::Activity;
use at_base::epr::Epr;
use at_base::event::Moment;
use at_base::fault::Fault;
use at_base::notice::Notice;
use at_base::outs::Post;
use at_base::target::Target;
use at_base::text::Text;
use at_posts::list::PostList;
use at_posts::posts::{fault_post, notice_post, register_post, stored_or};
use endpoints::uris::completion_protocol;
use std::alloc::{AllocError, Global};

/// What an activity's endpoint names.
pub fn target_of(activity: &Activity) -> Target
    ensures { result ≡ activity_target activity.now }
{
    Target::Initiator(activity.id)
}

/// An activity's Register for Completion (WS-AtomicTransaction 1.2, section 3.2).
pub fn completion_register(
    alloc: Global,
    moment: &Moment,
    activity: &Activity,
    to: &Epr,
) -> Result<Post, AllocError>
    ensures { IfOk result
        (λ post. post ≡ completion_register moment.entry.now.base activity.now to.now) }
{
    let own = target_of(activity);
    register_post(alloc, &moment.base, &own, completion_protocol(), to)
}

/// An activity's Commit or Rollback to the completion seat (WS-AtomicTransaction 1.2, section 3.2).
pub fn completion(
    alloc: Global,
    moment: &Moment,
    activity: &Activity,
    notice: Notice,
) -> Result<PostList, AllocError>
    ensures { IfOk result
        (λ posts. posts ≡ complete_posts moment.entry.now.base notice activity.now) }
{
    let own = target_of(activity);
    match &activity.coordinator {
        Some(to) => PostList::alone(alloc, notice_post(alloc, &moment.base, &own, to, notice)?),
        None => Ok(PostList::new(alloc)),
    }
}

/// The fault InvalidState to the completion seat, or to the message's From while none is known.
pub fn invalid_state(
    alloc: Global,
    from: &Option<Epr>,
    id: &Option<Text>,
    activity: &Activity,
) -> Result<PostList, AllocError>
    ensures { IfOk result
        (λ posts. posts
        ≡ to_each (stored_or activity.now.coordinator from.now) (λ to. fault_post (Some to) id.now InvalidState)) }
{
    match stored_or(&activity.coordinator, from) {
        Some(to) => {
            let to = to.clone()?;
            PostList::alone(alloc, fault_post(alloc, Some(to), id, Fault::InvalidState)?)
        }
        None => Ok(PostList::new(alloc)),
    }
}
