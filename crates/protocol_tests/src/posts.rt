//! The messages that a node sends, and its answers.

use crate::shared::{address_in, epr, message_name, part, reply_named, status_word};
use at_base::epr::{Epr, Reply};
use at_base::fault::Fault;
use at_base::id::Id;
use at_base::message::Message;
use at_base::notice::{Kind, Notice};
use at_base::outs::{Out, OutList, Post};
use at_base::target::Target;
use at_base::text::Text;
use at_posts::answers::{accepted, faulted, replied};
use at_posts::posts::{
    push_fault, push_notice, push_register, push_reply, push_request, push_stranger,
};
use endpoints::uris::completion_protocol;
use std::alloc::{AllocError, Global};
use std::test::Fail;

/// What a sender knows: its base and its own endpoint, to whom it writes, and the MessageID of what it answers.
struct Sender {
    base: Text,
    own: Target,
    to: Epr,
    id: Option<Text>,
}

impl Drop for Sender {
    fn drop(self) {
        let Sender {
            base: _base,
            own: _own,
            to: _to,
            id: _id,
        } = self;
    }
}

fn leaf() -> Target {
    Target::Participant {
        id: Id::new(1, 1),
        kind: Kind::Durable,
    }
}

fn leaf_sender(alloc: Global) -> Result<Sender, AllocError> {
    let base = Text::copied(alloc, "http://n3.example")?;
    let to = epr(alloc, "peer")?;
    let id = Text::copied(alloc, "id")?;
    Ok(Sender {
        base,
        own: leaf(),
        to,
        id: Some(id),
    })
}

fn text_of(text: &Option<Text>) -> &str {
    match text {
        Some(text) => text.as_str(),
        None => "-",
    }
}

fn reply_in(reply: &Option<Reply>) -> &str {
    match reply {
        Some(Reply::Anonymous) => "anonymous",
        Some(Reply::Nobody) => "nobody",
        Some(Reply::At(epr)) => epr.address.as_str(),
        None => "-",
    }
}

/// What a message says.
fn said_in(message: &Message) -> &str {
    match message {
        Message::Register(register) => register.protocol.as_str(),
        _ => message_name(message),
    }
}

/// The participant of a Register.
fn participant_in(message: &Message) -> &str {
    match message {
        Message::Register(register) => register.participant.address.as_str(),
        _ => "-",
    }
}

fn own_word(post: &Post) -> &'static str {
    if post.own.is_some() { "own" } else { "-" }
}

/// Whether a post has these ends: whether it has an own endpoint, and To, From and ReplyTo.
fn has_ends(post: &Post, line: &str) -> bool {
    own_word(post) == part(line, ' ', 1)
        && address_in(&post.to) == part(line, ' ', 2)
        && address_in(&post.from) == part(line, ' ', 5)
        && reply_in(&post.reply) == part(line, ' ', 6)
}

/// Whether a post is that of a line: behind the first word whether it has an own endpoint, To, MessageID, RelatesTo, From,
/// ReplyTo, what it says, and of a Register the participant.
fn is_post(post: &Post, line: &str) -> bool {
    has_ends(post, line)
        && text_of(&post.id) == part(line, ' ', 3)
        && text_of(&post.relates) == part(line, ' ', 4)
        && said_in(&post.message) == part(line, ' ', 7)
        && participant_in(&post.message) == part(line, ' ', 8)
}

/// Whether this is a post, or an answer with this HTTP status and the post in it, if it has one.
fn is_out(out: &Out, line: &str) -> bool {
    match out {
        Out::Answer {
            status,
            reply: Some(post),
        } => status_word(*status) == part(line, ' ', 0) && is_post(post, line),
        Out::Answer { status, .. } => status_word(*status) == line,
        Out::Post(post) => part(line, ' ', 0) == "post" && is_post(post, line),
    }
}

/// Whether these are the lines of a text, one each.
fn are(outs: &OutList, lines: &str) -> bool {
    let mut place = 0usize;
    for out in outs.as_slice() {
        if !is_out(out, part(lines, '\n', place)) {
            return false;
        }
        place = place.saturating_add(1);
    }
    lines.lines().count() == place
}

fn push_request_to(alloc: Global, outs: &mut OutList, s: &Sender) -> Result<(), AllocError> {
    let id = Text::copied(alloc, "asked")?;
    push_request(alloc, outs, &s.base, &s.own, &s.to, id, Message::WorkDone)
}

fn push_named(alloc: Global, outs: &mut OutList, s: &Sender, name: &str) -> Result<(), AllocError> {
    match name {
        "vote" => push_notice(alloc, outs, &s.base, &s.own, &s.to, Notice::Prepared),
        "notice" => push_notice(alloc, outs, &s.base, &s.own, &s.to, Notice::Aborted),
        "stranger" => push_stranger(alloc, outs, &s.base, &s.own, &s.to, Notice::Aborted),
        "outcome" => push_stranger(alloc, outs, &s.base, &s.own, &s.to, Notice::Rollback),
        "reply" => push_reply(outs, &s.to, &s.id, Message::WorkDone),
        "fault" => push_fault(alloc, outs, &s.to, &s.id, Fault::InvalidState),
        "request" => push_request_to(alloc, outs, s),
        _ => push_register(alloc, outs, &s.base, &s.own, completion_protocol(), &s.to),
    }
}

fn push_all(
    alloc: Global,
    outs: &mut OutList,
    sender: &Sender,
    names: &str,
) -> Result<(), AllocError> {
    for name in names.split(' ') {
        push_named(alloc, outs, sender, name)?;
    }
    Ok(())
}

/// What is pushed, one after another. The MessageID was computed by Python's uuid.uuid5(uuid.NAMESPACE_URL, name).
const PUSHED: &str = "\
post own peer - - http://n3.example/p/d/1-1 nobody Prepared -\n\
post own peer - - - nobody Aborted -\n\
post - peer - - - nobody Aborted -\n\
post - peer - - http://n3.example/p/d/1-1 nobody Rollback -\n\
post - peer - id - - WorkDone -\n\
post - peer - id - - InvalidState -\n\
post - peer asked - - http://n3.example/p/d/1-1 WorkDone -\n\
post - peer urn:uuid:b62e7280-0c3c-5e24-8cfd-269197d5ce42 - - http://n3.example/p/d/1-1 \
http://docs.oasis-open.org/ws-tx/wsat/2006/06/Completion http://n3.example/p/d/1-1\n\
";

/// Whether this is what is pushed, one after another.
fn pushes(alloc: Global, names: &str) -> Result<bool, AllocError> {
    let sender = leaf_sender(alloc)?;
    let mut outs = OutList::from_vec(Vec::new(alloc));
    push_all(alloc, &mut outs, &sender, names)?;
    Ok(are(&outs, PUSHED))
}

#[test]
fn what_is_pushed(rt: HostRuntime) -> Result<(), Fail> {
    let right = pushes(
        rt.alloc(),
        "vote notice stranger outcome reply fault request register",
    )?;
    assert!(rt; right);
    Ok(())
}

/// What is answered where the reply goes there: a message, or a fault.
fn answer(alloc: Global, words: &str) -> Result<OutList, AllocError> {
    let reply = reply_named(alloc, part(words, ' ', 1))?;
    match part(words, ' ', 0) {
        "message" => replied(alloc, &reply, &None, Message::WorkDone),
        "fault" => faulted(alloc, &reply, &None, Fault::CannotCreateContext),
        _ => accepted(alloc),
    }
}

fn is_answered(alloc: Global, words: &str, lines: &str) -> Result<bool, AllocError> {
    let outs = answer(alloc, words)?;
    Ok(are(&outs, lines))
}

/// What is to be answered and where, and what is.
const ANSWERED: &[(&str, &str)] = &[
    ("nothing", "202\n"),
    ("message nobody", "202\n"),
    ("fault nobody", "202\n"),
    ("message anonymous", "200 - - - - - - WorkDone -\n"),
    ("fault anonymous", "500 - - - - - - CannotCreateContext -\n"),
    ("message asker", "202\npost - asker - - - - WorkDone -\n"),
    (
        "fault asker",
        "202\npost - asker - - - - CannotCreateContext -\n",
    ),
];

#[test]
fn what_is_answered(rt: HostRuntime) -> Result<(), Fail> {
    for (words, lines) in ANSWERED {
        let right = is_answered(rt.alloc(), words, lines)?;
        assert!(rt; right, "at {words}");
    }
    Ok(())
}
