//! The element in the body of each message (WS-Coordination 1.2, section 3; WS-AtomicTransaction 1.2, section 3).

ghost use Rattle.std.specs.Prelude.{◌≡◌, IfOk};
ghost use Rattle.addressing.specs.StoredEndpoints.{IsEndpointOf};
ghost use Rattle.context.specs.BodyTrees.{create_response_tree, create_tree, register_response_tree, register_tree};
ghost use Rattle.wire_posts.specs.Envelopes.{AreBoth, IsBodyOf, IsContextOf, IsCreateOf, IsMadeOf, IsRegisterOf, empty_tree, work_part, work_tree};

use crate::fault::WrittenFault;
use crate::headers::outgoing_context;
use addressing::stored_endpoint::endpoint_of;
use at_base::epr::Epr;
use at_base::message::{Context, Create, Message, Register, Work};
use at_base::notice::{Kind, Vote};
use context::writer::{
    OutgoingContext, OutgoingCreate, OutgoingRegister, write_create, write_create_response,
    write_register, write_register_response,
};
use endpoints::form::Form;
use soap_profile::build::{children_of, element, qualified, text_children};
use std::alloc::{AllocError, Global};
use wire_msgs::form::{local_of, space_of};
use wire_msgs::part::Part;
use xml_profile::names::WORK;
use xml_profile::tree::{Children, Tree};

/// The element that says a message.
pub fn body_of(alloc: Global, message: &Message) -> Result<Tree, AllocError>
    ensures { IfOk result (IsBodyOf message.now) }
{
    match message {
        Message::Create(body) => create_body(alloc, body),
        Message::CreateResponse(context) => create_response_body(alloc, context),
        Message::Register(body) => register_body(alloc, body),
        Message::RegisterResponse(coordinator) => register_response_body(alloc, coordinator),
        Message::Notice(notice) => empty_body(alloc, Form::Notice(*notice)),
        Message::Work(body) => work_body(alloc, body),
        Message::WorkDone => empty_body(alloc, Form::WorkDone),
        Message::WorkRefused => empty_body(alloc, Form::WorkRefused),
        Message::Fault { name } => WrittenFault::named(name.as_str()).body(alloc),
    }
}

fn create_body(alloc: Global, body: &Create) -> Result<Tree, AllocError>
    ensures { IfOk result (IsMadeOf IsCreateOf create_tree body.now) }
{
    let create = outgoing_create(alloc, body)?;
    write_create(alloc, create)
}

fn outgoing_create(alloc: Global, body: &Create) -> Result<OutgoingCreate, AllocError>
    ensures { IfOk result (IsCreateOf body.now) }
{
    let current = optional_context(alloc, &body.current)?;
    let coordination = body.coordination.clone()?;
    Ok(OutgoingCreate {
        expires: body.expires,
        current,
        coordination,
    })
}

fn optional_context(
    alloc: Global,
    context: &Option<Context>,
) -> Result<Option<OutgoingContext>, AllocError>
    ensures { IfOk result (AreBoth IsContextOf context.now) }
{
    match context {
        Some(context) => Ok(Some(outgoing_context(alloc, context)?)),
        None => Ok(None),
    }
}

fn create_response_body(alloc: Global, context: &Context) -> Result<Tree, AllocError>
    ensures { IfOk result (IsMadeOf IsContextOf create_response_tree context.now) }
{
    let context = outgoing_context(alloc, context)?;
    write_create_response(alloc, context)
}

fn register_body(alloc: Global, body: &Register) -> Result<Tree, AllocError>
    ensures { IfOk result (IsMadeOf IsRegisterOf register_tree body.now) }
{
    let register = outgoing_register(alloc, body)?;
    write_register(alloc, register)
}

fn outgoing_register(alloc: Global, body: &Register) -> Result<OutgoingRegister, AllocError>
    ensures { IfOk result (IsRegisterOf body.now) }
{
    let protocol = body.protocol.clone()?;
    let participant = endpoint_of(alloc, &body.participant)?;
    Ok(OutgoingRegister {
        protocol,
        participant,
    })
}

fn register_response_body(alloc: Global, coordinator: &Epr) -> Result<Tree, AllocError>
    ensures { IfOk result (IsMadeOf IsEndpointOf register_response_tree coordinator.now) }
{
    let coordinator = endpoint_of(alloc, coordinator)?;
    write_register_response(alloc, coordinator)
}

fn empty_body(alloc: Global, form: Form) -> Result<Tree, AllocError>
    ensures { IfOk result (λ t. t ≡ empty_tree form) }
{
    let name = qualified(alloc, space_of(form), local_of(form))?;
    Ok(element(alloc, name, Children::new(alloc)))
}

fn work_body(alloc: Global, body: &Work) -> Result<Tree, AllocError>
    ensures { IfOk result (λ t. t ≡ work_tree body.now) }
{
    let key = work_part(alloc, Part::Key, body.key.as_str())?;
    let value = work_part(alloc, Part::Value, body.value.as_str())?;
    let kind = work_part(alloc, Part::Kind, body.kind.name())?;
    let vote = work_part(alloc, Part::Vote, body.vote.name())?;
    let children = children_of(alloc, vec![in alloc; key, value, kind, vote]?)?;
    let name = qualified(alloc, WORK, "Work")?;
    Ok(element(alloc, name, children))
}

fn work_part(alloc: Global, part: Part, text: &str) -> Result<Tree, AllocError>
    ensures { IfOk result (λ t. t ≡ work_part part text.now) }
{
    let name = qualified(alloc, WORK, part.local_name())?;
    let children = text_children(alloc, text)?;
    Ok(element(alloc, name, children))
}
