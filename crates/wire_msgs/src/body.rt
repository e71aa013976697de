//! What the body of each message but a fault says (WS-Coordination 1.2, section 3).

ghost use Rattle.std.specs.Prelude.{◌≡◌};
ghost use Rattle.std.specs.Option.{option_copied};
ghost use Rattle.wire_msgs.specs.Bodies.{body_of, kind_in, short_in, text_in, unreadable, vote_in, work_of};
ghost use Rattle.wire_msgs.specs.Refusals.{Answers};

use crate::part::{Part, child_in};
use crate::refusal::{ParameterName, Refusal};
use addressing::headers::Header;
use at_base::limits::MOST_FIELD;
use at_base::message::{Message, Work};
use at_base::notice::{Kind, Vote};
use at_base::text::Text;
use context::reader::{
    read_context, read_create, read_create_response, read_register, read_register_response,
};
use endpoints::form::Form;
use soap_profile::value::text_value;
use std::alloc::Global;
use xml_profile::tree::Tree;

/// The message that a body of this form says. The context of a Work stands in its header.
pub fn read_body(
    alloc: Global,
    form: Form,
    context: Option<&Tree>,
    body: &Tree,
) -> Result<Message, Refusal>
    ensures { Answers (body_of form (option_copied context.entry) body.now) result }
{
    match form {
        Form::Create => Ok(Message::Create(read_create(alloc, body)?)),
        Form::CreateResponse => Ok(Message::CreateResponse(read_create_response(alloc, body)?)),
        Form::Register => Ok(Message::Register(read_register(alloc, body)?)),
        Form::RegisterResponse => Ok(Message::RegisterResponse(read_register_response(
            alloc, body,
        )?)),
        Form::Notice(notice) => Ok(Message::Notice(notice)),
        Form::Work => Ok(Message::Work(read_work(alloc, context, body)?)),
        Form::WorkDone => Ok(Message::WorkDone),
        Form::WorkRefused => Ok(Message::WorkRefused),
    }
}

fn read_work(alloc: Global, context: Option<&Tree>, body: &Tree) -> Result<Work, Refusal>
    ensures { Answers (work_of (option_copied context.entry) body.now) result }
{
    let Some(context) = context else {
        return Err(Refusal::MissingHeader {
            name: Header::CoordinationContext,
        });
    };
    let context = read_context(alloc, context)?;
    let key = read_short(alloc, body, Part::Key)?;
    let value = read_short(alloc, body, Part::Value)?;
    let kind = read_kind(alloc, body)?;
    let vote = read_vote(alloc, body)?;
    Ok(Work {
        context,
        key,
        value,
        kind,
        vote,
    })
}

fn read_text(alloc: Global, body: &Tree, part: Part) -> Result<Text, Refusal>
    ensures { Answers (text_in body.now part) result }
{
    match child_in(body, part) {
        Some(Some(child)) => Ok(text_value(alloc, child)?),
        _ => Err(unreadable(part)),
    }
}

fn unreadable(part: Part) -> Refusal
    ensures { result ≡ unreadable part }
{
    Refusal::Parameters {
        name: ParameterName::Part(part),
    }
}

fn read_short(alloc: Global, body: &Tree, part: Part) -> Result<Text, Refusal>
    ensures { Answers (short_in body.now part) result }
{
    let text = read_text(alloc, body, part)?;
    if text.as_str().len() > MOST_FIELD {
        return Err(unreadable(part));
    }
    Ok(text)
}

fn read_kind(alloc: Global, body: &Tree) -> Result<Kind, Refusal>
    ensures { Answers (kind_in body.now) result }
{
    let name = read_text(alloc, body, Part::Kind)?;
    match Kind::named(name.as_str()) {
        Some(kind) => Ok(kind),
        None => Err(unreadable(Part::Kind)),
    }
}

fn read_vote(alloc: Global, body: &Tree) -> Result<Vote, Refusal>
    ensures { Answers (vote_in body.now) result }
{
    let name = read_text(alloc, body, Part::Vote)?;
    match Vote::named(name.as_str()) {
        Some(vote) => Ok(vote),
        None => Err(unreadable(Part::Vote)),
    }
}
