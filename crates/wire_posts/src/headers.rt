//! The headers of a message that is sent (WS-Addressing 1.0 Core, section 3).

ghost use Rattle.std.specs.Prelude.{◌≡◌, IfOk};
ghost use Rattle.addressing.specs.StoredEndpoints.{IsEndpointOf};
ghost use Rattle.wire_posts.specs.Envelopes.{AreBoth, AreHeadersOf, IsContextOf, IsReplyOf, IsWorkContext, action_in, addressed, context_in};

use crate::fault::WrittenFault;
use addressing::endpoint::{ANONYMOUS, NONE};
use addressing::stored_endpoint::endpoint_of;
use addressing::writer::{Endpoint, OutgoingHeaders};
use at_base::epr::{Epr, Reply};
use at_base::message::{Context, Message, cloned_option};
use at_base::outs::Post;
use at_base::text::Text;
use context::writer::{OutgoingContext, write_context};
use endpoints::form::Form;
use soap_profile::build::qualified;
use std::alloc::{AllocError, Global};
use wire_msgs::form::action_of;
use xml_profile::names::COORDINATION;
use xml_profile::tree::Tree;

/// What the header blocks of a post say.
pub fn headers_of(alloc: Global, post: &Post) -> Result<OutgoingHeaders, AllocError>
    ensures { IfOk result (AreHeadersOf post.now) }
{
    let action = Text::copied(alloc, action_in(&post.message))?;
    let id = cloned_option(&post.id)?;
    let relates = cloned_option(&post.relates)?;
    let to = optional_endpoint(alloc, &post.to)?;
    let from = optional_endpoint(alloc, &post.from)?;
    let reply = reply_endpoint(alloc, &post.reply)?;
    let context = context_of(alloc, &post.message)?;
    Ok(OutgoingHeaders {
        to,
        action,
        id,
        relates,
        from,
        reply,
        context,
    })
}

fn action_in(message: &Message) -> &'static str
    ensures { result.now ≡ action_in message.now }
{
    match message {
        Message::Create(_) => action_of(Form::Create),
        Message::CreateResponse(_) => action_of(Form::CreateResponse),
        Message::Register(_) => action_of(Form::Register),
        Message::RegisterResponse(_) => action_of(Form::RegisterResponse),
        Message::Notice(notice) => action_of(Form::Notice(*notice)),
        Message::Work(_) => action_of(Form::Work),
        Message::WorkDone => action_of(Form::WorkDone),
        Message::WorkRefused => action_of(Form::WorkRefused),
        Message::Fault { name } => WrittenFault::named(name.as_str()).action(),
    }
}

fn optional_endpoint(alloc: Global, epr: &Option<Epr>) -> Result<Option<Endpoint>, AllocError>
    ensures { IfOk result (AreBoth IsEndpointOf epr.now) }
{
    match epr {
        Some(epr) => Ok(Some(endpoint_of(alloc, epr)?)),
        None => Ok(None),
    }
}

fn reply_endpoint(alloc: Global, reply: &Option<Reply>) -> Result<Option<Endpoint>, AllocError>
    ensures { IfOk result (AreBoth IsReplyOf reply.now) }
{
    let endpoint = match reply {
        None => return Ok(None),
        Some(Reply::Anonymous) => address_alone(alloc, ANONYMOUS)?,
        Some(Reply::Nobody) => address_alone(alloc, NONE)?,
        Some(Reply::At(epr)) => endpoint_of(alloc, epr)?,
    };
    Ok(Some(endpoint))
}

fn address_alone(alloc: Global, address: &str) -> Result<Endpoint, AllocError>
    ensures { IfOk result (IsEndpointOf (addressed address.now)) }
{
    Ok(Endpoint::new(Text::copied(alloc, address)?, None))
}

/// The context in the header of a Work (WS-Coordination 1.2, section 2).
fn context_of(alloc: Global, message: &Message) -> Result<Option<Tree>, AllocError>
    ensures { IfOk result (AreBoth IsWorkContext (context_in message.now)) }
{
    match message {
        Message::Work(work) => Ok(Some(context_header(alloc, &work.context)?)),
        _ => Ok(None),
    }
}

fn context_header(alloc: Global, context: &Context) -> Result<Tree, AllocError>
    ensures { IfOk result (IsWorkContext context.now) }
{
    let context = outgoing_context(alloc, context)?;
    let name = qualified(alloc, COORDINATION, "CoordinationContext")?;
    write_context(alloc, context, name)
}

/// A context to be written.
pub fn outgoing_context(alloc: Global, context: &Context) -> Result<OutgoingContext, AllocError>
    ensures { IfOk result (IsContextOf context.now) }
{
    let identifier = context.identifier.clone()?;
    let coordination = context.coordination.clone()?;
    let registration = endpoint_of(alloc, &context.registration)?;
    Ok(OutgoingContext {
        identifier,
        expires: context.expires,
        coordination,
        registration,
    })
}
