//! The bytes of what is sent.

ghost use Rattle.std.specs.Prelude.{◌≡◌, ◌++◌, ◌∷◌, [], IfOk, OnOk, Option, Some};
ghost use Rattle.std.specs.Option.{option_map};
ghost use Rattle.http_post.specs.OutBytes.{has_reason};
ghost use Rattle.wire_posts.specs.Envelopes.{AreBoth, IsTextOf, action_in};
ghost use Rattle.node_at.specs.Texts.{AreLeaving, IsAnswerOf, IsCallOf, IsPostOf, IsPosted, call_of, goes_to};

use addressing::post_to::{PostTo, post_to};
use at_base::epr::Epr;
use at_base::message::Message;
use at_base::outs::{Out, Post};
use at_base::text::Text;
use endpoints::form::Form;
use http_post::writer::{answer_bytes, post_bytes};
use std::alloc::{AllocError, Global};
use std::marker::Model;
use wire_msgs::form::action_of;
use wire_posts::encode::encode_post;
use wire_posts::fault::WrittenFault;

/// The call by which an out leaves.
#[derive(Drop)]
pub enum Sending {
    /// On the connection.
    Answer {
        bytes: Vec<u8>,
    },
    /// To a host.
    Post {
        host: Text,
        port: u16,
        bytes: Vec<u8>,
    },
}

/// An out, and the call by which it leaves.
#[derive(Drop)]
pub struct Encoded {
    pub out: Out,
    pub sending: Sending,
}

impl Model for Encoded {
    ghost use Rattle.node_at.specs.Texts.{Leaving, call_of};

    ghost Value = { Leaving };

    ghost view = { λ e. record { out = e.out; call = call_of e.sending } };
}

/// The action of a message (WS-Addressing 1.0 Core, section 3.1).
fn action_in(message: &Message) -> &'static str
    ensures { result.now ≡ action_in message.now }
{
    match message {
        Message::Create(_) => action_of(Form::Create),
        Message::CreateResponse(_) => action_of(Form::CreateResponse),
        Message::Register(_) => action_of(Form::Register),
        Message::RegisterResponse(_) => action_of(Form::RegisterResponse),
        Message::Notice(notice) => action_of(Form::Notice(*notice)),
        Message::Work(_) => action_of(Form::Work),
        Message::WorkDone => action_of(Form::WorkDone),
        Message::WorkRefused => action_of(Form::WorkRefused),
        Message::Fault { name } => WrittenFault::named(name.as_str()).action(),
    }
}

/// The envelope of a post.
fn envelope(alloc: Global, post: &Post) -> Result<Vec<u8>, AllocError>
    ensures { IfOk result (λ bytes. IsTextOf post.now bytes.items) }
{
    let bytes = encode_post(alloc, post)?;
    Ok(bytes)
}

fn reply_text(alloc: Global, reply: &Option<Post>) -> Result<Option<Vec<u8>>, AllocError>
    ensures { IfOk result (λ text. AreBoth IsTextOf reply.now (option_map (λ bytes. bytes.items) text)) }
{
    match reply {
        Some(post) => Ok(Some(envelope(alloc, post)?)),
        None => Ok(None),
    }
}

/// Whether an answer has this status.
fn is_answered(status: u16) -> bool
    ensures { result ≡ has_reason status }
{
    match status {
        200 | 202 | 400 | 404 | 405 | 411 | 413 | 415 | 500 | 503 => true,
        _ => false,
    }
}

fn answer(alloc: Global, status: u16, reply: &Option<Post>) -> Result<Option<Sending>, AllocError>
    ensures { IfOk result (λ s. IsAnswerOf (has_reason status) status reply.now (option_map call_of s)) }
{
    if !is_answered(status) {
        return Ok(None);
    }
    let text = reply_text(alloc, reply)?;
    let bytes = answer_bytes(alloc, status, text.as_deref())?;
    Ok(Some(Sending::Answer { bytes }))
}

fn place_of(alloc: Global, to: &Option<Epr>) -> Result<Option<PostTo>, AllocError>
    ensures { IfOk result (λ place. place ≡ goes_to to.now) }
{
    match to {
        Some(endpoint) => post_to(alloc, endpoint),
        None => Ok(None),
    }
}

fn posted(alloc: Global, to: PostTo, post: &Post) -> Result<Sending, AllocError>
    ensures { IfOk result (λ s. IsPosted to post.now (call_of s)) }
{
    let text = envelope(alloc, post)?;
    let bytes = post_bytes(alloc, &to, action_in(&post.message), text.as_slice())?;
    let PostTo { host, port, .. } = to;
    Ok(Sending::Post { host, port, bytes })
}

fn post(alloc: Global, post: &Post) -> Result<Option<Sending>, AllocError>
    ensures { IfOk result (λ s. IsPostOf (goes_to post.now.to) post.now (option_map call_of s)) }
{
    match place_of(alloc, &post.to)? {
        Some(to) => Ok(Some(posted(alloc, to, post)?)),
        None => Ok(None),
    }
}

/// The call by which an out leaves; none where it goes nowhere.
fn encode_out(alloc: Global, out: &Out) -> Result<Option<Sending>, AllocError>
    ensures { IfOk result (λ s. IsCallOf out.now (option_map call_of s)) }
{
    match out {
        Out::Answer { status, reply } => answer(alloc, *status, reply),
        Out::Post(inner) => post(alloc, inner),
    }
}

fn push(all: &mut Vec<Encoded>, out: &Out, sending: Sending) -> Result<(), AllocError>
    ensures { OnOk result (all.new.items ≡ all.old.items ++ record { out = out.now; call = call_of sending } ∷ []) }
{
    let out = out.clone()?;
    all.push(Encoded { out, sending })?;
    Ok(())
}

/// The outs in order, each with the call by which it leaves. Those that go nowhere are left out.
#[tactic(auto, using(crate::proofs::LeavingOuts::put_more, crate::proofs::LeavingOuts::left_out, crate::proofs::LeavingOuts::all_left))]
pub fn encode_outs(alloc: Global, outs: &[Out]) -> Result<Vec<Encoded>, AllocError>
    ensures { IfOk result (λ all. AreLeaving outs.now all.items) }
{
    let mut all = Vec::new(alloc);
    for out in outs {
        if let Some(sending) = encode_out(alloc, out)? {
            push(&mut all, out, sending)?;
        }
    }
    Ok(all)
}
