//! Posts as they arrive.

ghost use Rattle.std.specs.Prelude.{◌≡◌, IfOk};
ghost use Rattle.at_model.specs.World.{arrival_of, decoded, decoded_at, reply_of};

use at_base::epr::Reply;
use at_base::event::Arrived;
use at_base::message::cloned_option;
use at_base::outs::Post;
use at_base::target::Target;
use at_base::text::Text;
use endpoints::target::{takes, target_at};
use std::alloc::AllocError;

/// Without ReplyTo the reply goes back on the connection (WS-Addressing 1.0 Core, section 3.3).
fn reply_of(reply: &Option<Reply>) -> Result<Reply, AllocError>
    ensures { IfOk result (λ copy. copy ≡ reply_of reply.now) }
{
    match reply {
        None => Ok(Reply::Anonymous),
        Some(reply) => reply.clone(),
    }
}

/// A post as it arrives at a target.
fn arrival_of(target: Target, post: &Post) -> Result<Arrived, AllocError>
    ensures { IfOk result (λ arrived. arrived ≡ arrival_of target post.now) }
{
    let id = cloned_option(&post.id)?;
    let relates = cloned_option(&post.relates)?;
    let from = cloned_option(&post.from)?;
    let reply = reply_of(&post.reply)?;
    let fault = reply_of(&post.reply)?;
    let message = post.message.clone()?;
    Ok(Arrived {
        target,
        id,
        relates,
        from,
        reply,
        fault,
        postable: true,
        message,
    })
}

/// A post at this target; none where the target doesn't take it.
fn decoded_at(target: Option<Target>, post: &Post) -> Result<Option<Arrived>, AllocError>
    ensures { IfOk result (λ arrived. arrived ≡ decoded_at target post.now) }
{
    match target {
        Some(target) if takes(target, &post.message) => Ok(Some(arrival_of(target, post)?)),
        _ => Ok(None),
    }
}

/// A post at the node of this base, as its target takes it.
pub fn decoded(base: &Text, post: &Post) -> Result<Option<Arrived>, AllocError>
    ensures { IfOk result (λ arrived. arrived ≡ decoded base.now post.now) }
{
    match &post.to {
        None => Ok(None),
        Some(to) => decoded_at(target_at(base.as_str(), to.address.as_str()), post),
    }
}
