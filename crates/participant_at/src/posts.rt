//! What a leaf sends (WS-Addressing 1.0 Core, section 3).

ghost use Rattle.std.specs.Prelude.{◌≡◌, IfOk};
ghost use Rattle.endpoints.specs.Addresses.{protocol_of, register_id};
ghost use Rattle.at_model.specs.Posts.{replied};
ghost use Rattle.at_model.specs.Leaves.{leaf_target, leaf_says, leaf_faults, leaf_register, work_answer};
ghost use Rattle.participant_at.specs.Answers.{answer_message};

use crate::leaf::Leaf;
use at_base::epr::{Epr, Reply};
use at_base::event::Moment;
use at_base::fault::Fault;
use at_base::message::Message;
use at_base::notice::Notice;
use at_base::outs::{OutList, Post};
use at_base::target::Target;
use at_base::text::Text;
use at_posts::answers;
use at_posts::list::PostList;
use at_posts::posts::{fault_post, notice_post, register_post, reply_post, stored_or};
use endpoints::addresses;
use endpoints::uris::protocol_of;
use std::alloc::{AllocError, Global};

/// What a leaf's endpoint names.
fn target_of(leaf: &Leaf) -> Target
    ensures { result ≡ leaf_target leaf.now }
{
    Target::Participant {
        id: leaf.id,
        kind: leaf.kind,
    }
}

/// The MessageID of a leaf's Register, the same each time it is sent.
pub fn register_id(alloc: Global, moment: &Moment, leaf: &Leaf) -> Result<Text, AllocError>
    ensures { IfOk result (λ text. text ≡ register_id moment.entry.now.base (leaf_target leaf.now)) }
{
    let own = target_of(leaf);
    addresses::register_id(alloc, &moment.base, &own)
}

/// A leaf's notification to its coordinator, or to the message's From while none is known.
pub fn says(
    alloc: Global,
    moment: &Moment,
    from: &Option<Epr>,
    leaf: &Leaf,
    notice: Notice,
) -> Result<PostList, AllocError>
    ensures { IfOk result (λ posts. posts ≡ leaf_says moment.entry.now from.now notice leaf.now) }
{
    let own = target_of(leaf);
    match stored_or(&leaf.coordinator, from) {
        Some(to) => PostList::alone(alloc, notice_post(alloc, &moment.base, &own, to, notice)?),
        None => Ok(PostList::new(alloc)),
    }
}

/// The fault InvalidState to a leaf's coordinator, or to the message's From while none is known.
pub fn says_fault(
    alloc: Global,
    from: &Option<Epr>,
    id: &Option<Text>,
    leaf: &Leaf,
) -> Result<PostList, AllocError>
    ensures { IfOk result (λ posts. posts ≡ leaf_faults from.now id.now leaf.now) }
{
    match stored_or(&leaf.coordinator, from) {
        Some(to) => {
            let to = to.clone()?;
            PostList::alone(alloc, fault_post(alloc, Some(to), id, Fault::InvalidState)?)
        }
        None => Ok(PostList::new(alloc)),
    }
}

/// How a Work is answered.
#[derive(Clone, Copy, Debug, PartialEq, Eq)]
pub enum Answer {
    Done,
    Refused,
}

impl Answer {
    /// The answer's message.
    fn message(self) -> Message
        ensures { result ≡ answer_message self }
    {
        match self {
            Answer::Done => Message::WorkDone,
            Answer::Refused => Message::WorkRefused,
        }
    }
}

/// The answer of the Work that made a leaf, where it waits for one.
pub fn answers_work(alloc: Global, leaf: &Leaf, answer: Answer) -> Result<PostList, AllocError>
    ensures { IfOk result (λ posts. posts ≡ work_answer (answer_message answer) leaf.now.request) }
{
    match &leaf.request {
        Some(request) => {
            let to = request.reply.clone()?;
            PostList::alone(alloc, reply_post(Some(to), &request.id, answer.message())?)
        }
        None => Ok(PostList::new(alloc)),
    }
}

/// The protocol that a leaf registers for.
fn leaf_protocol(leaf: &Leaf) -> &'static str
    ensures { result.now ≡ protocol_of leaf.now.kind }
{
    protocol_of(leaf.kind)
}

/// A leaf's Register (WS-Coordination 1.2, section 4.1).
pub fn leaf_register(
    alloc: Global,
    moment: &Moment,
    leaf: &Leaf,
    to: &Epr,
) -> Result<Post, AllocError>
    ensures { IfOk result (λ post. post ≡ leaf_register moment.entry.now leaf.now to.now) }
{
    let own = target_of(leaf);
    register_post(alloc, &moment.base, &own, leaf_protocol(leaf), to)
}

/// The answer of a Work that makes no leaf: on the connection where its reply endpoint is anonymous (WS-Addressing 1.0
/// SOAP Binding, section 5.1).
pub fn replied(
    alloc: Global,
    reply: &Reply,
    id: &Option<Text>,
    answer: Answer,
) -> Result<OutList, AllocError>
    ensures { IfOk result (λ outs. outs ≡ replied reply.now id.now (answer_message answer)) }
{
    answers::replied(alloc, reply, id, answer.message())
}
