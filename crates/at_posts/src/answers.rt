//! The answers of messages, on the connection where the reply endpoint is anonymous (WS-Addressing 1.0 SOAP Binding,
//! section 5.1).

ghost use Rattle.std.specs.Prelude.{◌≡◌, ◌∷◌, [], IfOk, Some, None};
ghost use Rattle.at_base.specs.declared.outs.Out.TheVariants as out;
ghost use Rattle.at_model.specs.Arrivals.{relates_to};
ghost use Rattle.at_model.specs.Posts.{accepted, replied, faulted};

use crate::posts::{fault_post, push_fault, push_reply, reply_post};
use at_base::epr::Reply;
use at_base::fault::Fault;
use at_base::message::Message;
use at_base::outs::{Out, OutList, Post};
use at_base::text::Text;
use std::alloc::{AllocError, Global};

/// One answer on the connection.
fn answer(alloc: Global, status: u16, reply: Option<Post>) -> Result<OutList, AllocError>
    ensures { IfOk result (λ outs. outs ≡ out.Answer status reply ∷ []) }
{
    let mut outs = OutList::from_vec(Vec::new(alloc));
    outs.push(Out::Answer { status, reply })?;
    Ok(outs)
}

/// The answer of a one-way message that was accepted.
pub fn accepted(alloc: Global) -> Result<OutList, AllocError>
    ensures { IfOk result (λ outs. outs ≡ accepted) }
{
    answer(alloc, 202, None)
}

/// An answer to a request.
pub fn replied(
    alloc: Global,
    reply: &Reply,
    id: &Option<Text>,
    message: Message,
) -> Result<OutList, AllocError>
    ensures { IfOk result (λ outs. outs ≡ replied reply.now id.now message) }
{
    match reply {
        Reply::Anonymous => answer(alloc, 200, Some(reply_post(None, id, message)?)),
        Reply::Nobody => accepted(alloc),
        Reply::At(to) => {
            let mut outs = accepted(alloc)?;
            push_reply(&mut outs, to, id, message)?;
            Ok(outs)
        }
    }
}

/// A fault that answers a request.
pub fn faulted(
    alloc: Global,
    reply: &Reply,
    id: &Option<Text>,
    fault: Fault,
) -> Result<OutList, AllocError>
    ensures { IfOk result (λ outs. outs ≡ faulted reply.now id.now fault) }
{
    match reply {
        Reply::Anonymous => answer(alloc, 500, Some(fault_post(alloc, None, id, fault)?)),
        Reply::Nobody => accepted(alloc),
        Reply::At(to) => {
            let mut outs = accepted(alloc)?;
            push_fault(alloc, &mut outs, to, id, fault)?;
            Ok(outs)
        }
    }
}

/// Whether a message answers the request of this MessageID (WS-Addressing 1.0 Core, section 3.3).
pub fn relates_to(relates: &Option<Text>, id: &Text) -> bool
    ensures { result ≡ relates_to relates.now id.now }
{
    match relates {
        Some(text) => text.as_str() == id.as_str(),
        None => false,
    }
}
