//! The messages that a node sends, and which headers each has (WS-Addressing 1.0 Core, section 3).

ghost use Rattle.std.specs.Prelude.{◌≡◌, ◌++◌, ◌∷◌, [], IfOk, OnOk, Some, option_copied};
ghost use Rattle.at_base.specs.declared.outs.Out.TheVariants as out;
ghost use Rattle.endpoints.specs.Addresses.{endpoint_of};
ghost use Rattle.at_model.specs.Posts.{from_on, notice_post, stranger_post, fault_post, reply_post, request_post, register_post, stored_or};

use at_base::epr::{Epr, Reply};
use at_base::fault::Fault;
use at_base::message::{Message, Register, cloned_option};
use at_base::notice::Notice;
use at_base::outs::{Out, OutList, Post};
use at_base::target::Target;
use at_base::text::Text;
use endpoints::addresses::{endpoint_of, register_id};
use std::alloc::{AllocError, Global};

/// The From of a notification: it stands where the notification may draw an answer from one that knows nothing.
fn from_on(
    alloc: Global,
    notice: Notice,
    base: &Text,
    own: &Target,
) -> Result<Option<Epr>, AllocError>
    ensures { IfOk result (λ from. from ≡ from_on notice (endpoint_of base.now own.now)) }
{
    match notice {
        Notice::Prepare | Notice::Commit | Notice::Rollback | Notice::Prepared => Ok(Some(
            endpoint_of(alloc, base, own)?,
        )),
        Notice::ReadOnly | Notice::Aborted | Notice::Committed => Ok(None),
    }
}

/// A notification of this sender's own, a one-way message.
pub fn notice_post(
    alloc: Global,
    base: &Text,
    own: &Target,
    to: &Epr,
    notice: Notice,
) -> Result<Post, AllocError>
    ensures { IfOk result (λ post. post ≡ notice_post base.now own.now to.now notice) }
{
    let to = to.clone()?;
    let from = from_on(alloc, notice, base, own)?;
    Ok(Post {
        own: Some(*own),
        to: Some(to),
        id: None,
        relates: None,
        from,
        reply: Some(Reply::Nobody),
        message: Message::Notice(notice),
    })
}

/// A notification from where nothing is known.
pub fn stranger_post(
    alloc: Global,
    base: &Text,
    own: &Target,
    to: &Epr,
    notice: Notice,
) -> Result<Post, AllocError>
    ensures { IfOk result (λ post. post ≡ stranger_post base.now own.now to.now notice) }
{
    let to = to.clone()?;
    let from = from_on(alloc, notice, base, own)?;
    Ok(Post {
        own: None,
        to: Some(to),
        id: None,
        relates: None,
        from,
        reply: Some(Reply::Nobody),
        message: Message::Notice(notice),
    })
}

/// An answer, related to the message that it answers where that had an id.
///
/// `to` is none where it goes back on the connection.
pub fn reply_post(to: Option<Epr>, id: &Option<Text>, message: Message) -> Result<Post, AllocError>
    ensures { IfOk result (λ post. post ≡ reply_post to id.now message) }
{
    let relates = cloned_option(id)?;
    Ok(Post {
        own: None,
        to,
        id: None,
        relates,
        from: None,
        reply: None,
        message,
    })
}

/// A fault, related to the message that drew it where that had an id.
///
/// `to` is none where it goes back on the connection.
pub fn fault_post(
    alloc: Global,
    to: Option<Epr>,
    id: &Option<Text>,
    fault: Fault,
) -> Result<Post, AllocError>
    ensures { IfOk result (λ post. post ≡ fault_post to id.now fault) }
{
    let name = Text::copied(alloc, fault.name())?;
    reply_post(to, id, Message::Fault { name })
}

/// A request, which names the sender's own endpoint for its answer.
pub fn request_post(
    alloc: Global,
    base: &Text,
    own: &Target,
    to: &Epr,
    id: Text,
    message: Message,
) -> Result<Post, AllocError>
    ensures { IfOk result (λ post. post ≡ request_post base.now own.now to.now id message) }
{
    let to = to.clone()?;
    let reply = endpoint_of(alloc, base, own)?;
    Ok(Post {
        own: None,
        to: Some(to),
        id: Some(id),
        relates: None,
        from: None,
        reply: Some(Reply::At(reply)),
        message,
    })
}

/// The body of Register for this protocol.
fn register_of(
    alloc: Global,
    base: &Text,
    own: &Target,
    protocol: &str,
) -> Result<Register, AllocError>
    ensures { IfOk result
        (λ register. register ≡ record {
          protocol = protocol.now;
          participant = endpoint_of base.now own.now;
        }) }
{
    let protocol = Text::copied(alloc, protocol)?;
    let participant = endpoint_of(alloc, base, own)?;
    Ok(Register {
        protocol,
        participant,
    })
}

/// Register (WS-Coordination 1.2, section 3.2): the same message each time it is sent.
pub fn register_post(
    alloc: Global,
    base: &Text,
    own: &Target,
    protocol: &str,
    to: &Epr,
) -> Result<Post, AllocError>
    ensures { IfOk result (λ post. post ≡ register_post base.now own.now protocol.now to.now) }
{
    let id = register_id(alloc, base, own)?;
    let register = register_of(alloc, base, own, protocol)?;
    request_post(alloc, base, own, to, id, Message::Register(register))
}

/// Adds a notification of this sender's own.
pub fn push_notice(
    alloc: Global,
    outs: &mut OutList,
    base: &Text,
    own: &Target,
    to: &Epr,
    notice: Notice,
) -> Result<(), AllocError>
    ensures { OnOk result (outs.new ≡ outs.old ++ out.Post (notice_post base.now own.now to.now notice) ∷ []) }
{
    outs.push(Out::Post(notice_post(alloc, base, own, to, notice)?))
}

/// Adds a notification from where nothing is known.
pub fn push_stranger(
    alloc: Global,
    outs: &mut OutList,
    base: &Text,
    own: &Target,
    to: &Epr,
    notice: Notice,
) -> Result<(), AllocError>
    ensures { OnOk result (outs.new ≡ outs.old ++ out.Post (stranger_post base.now own.now to.now notice) ∷ []) }
{
    outs.push(Out::Post(stranger_post(alloc, base, own, to, notice)?))
}

/// Adds an answer to this endpoint.
pub fn push_reply(
    outs: &mut OutList,
    to: &Epr,
    id: &Option<Text>,
    message: Message,
) -> Result<(), AllocError>
    ensures { OnOk result (outs.new ≡ outs.old ++ out.Post (reply_post (Some to.now) id.now message) ∷ []) }
{
    outs.push(Out::Post(reply_post(Some(to.clone()?), id, message)?))
}

/// Adds a fault to this endpoint.
pub fn push_fault(
    alloc: Global,
    outs: &mut OutList,
    to: &Epr,
    id: &Option<Text>,
    fault: Fault,
) -> Result<(), AllocError>
    ensures { OnOk result (outs.new ≡ outs.old ++ out.Post (fault_post (Some to.now) id.now fault) ∷ []) }
{
    outs.push(Out::Post(fault_post(alloc, Some(to.clone()?), id, fault)?))
}

/// Adds a request.
pub fn push_request(
    alloc: Global,
    outs: &mut OutList,
    base: &Text,
    own: &Target,
    to: &Epr,
    id: Text,
    message: Message,
) -> Result<(), AllocError>
    ensures { OnOk result (outs.new ≡ outs.old ++ out.Post (request_post base.now own.now to.now id message) ∷ []) }
{
    outs.push(Out::Post(request_post(alloc, base, own, to, id, message)?))
}

/// Adds a Register.
pub fn push_register(
    alloc: Global,
    outs: &mut OutList,
    base: &Text,
    own: &Target,
    protocol: &str,
    to: &Epr,
) -> Result<(), AllocError>
    ensures { OnOk result (outs.new ≡ outs.old ++ out.Post (register_post base.now own.now protocol.now to.now) ∷ []) }
{
    outs.push(Out::Post(register_post(alloc, base, own, protocol, to)?))
}

/// The stored endpoint, or the message's From while there is none.
pub fn stored_or<'a>(stored: &'a Option<Epr>, from: &'a Option<Epr>) -> Option<&'a Epr>
    ensures { option_copied result ≡ stored_or stored.now from.now }
{
    match stored {
        Some(epr) => Some(epr),
        None => from.as_ref(),
    }
}
