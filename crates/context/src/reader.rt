//! Bodies that are read (WS-Coordination 1.2, sections 2 and 3). The children stand in any order, others are skipped.

ghost use Rattle.std.specs.Prelude.{◌≡◌};
ghost use Rattle.context.specs.Bodies.{Answers, context_of, create_of, create_response_of, current_in, endpoint_in, expires_in, identifier_in, number_of, register_of, register_response_of, text_in};

use crate::children::{optional, required};
use crate::parameter::{ContextFault, Parameter};
use addressing::endpoint::read_epr;
use at_base::epr::Epr;
use at_base::limits::MOST_IDENTIFIER;
use at_base::message::{Context, Create, Register};
use at_base::text::Text;
use soap_profile::value::text_value;
use std::alloc::Global;
use xml_profile::tree::Tree;

/// A coordination context, whatever the name of its element (WS-Coordination 1.2, section 2).
pub fn read_context(alloc: Global, tree: &Tree) -> Result<Context, ContextFault>
    ensures { Answers (context_of tree.now) result }
{
    let identifier = read_identifier(alloc, tree)?;
    let expires = read_expires(alloc, tree)?;
    let coordination = read_text(alloc, tree, Parameter::CoordinationType)?;
    let registration = read_endpoint(alloc, tree, Parameter::RegistrationService)?;
    Ok(Context {
        identifier,
        expires,
        coordination,
        registration,
    })
}

/// The body of CreateCoordinationContext (WS-Coordination 1.2, section 3.1.1).
pub fn read_create(alloc: Global, tree: &Tree) -> Result<Create, ContextFault>
    ensures { Answers (create_of tree.now) result }
{
    let expires = read_expires(alloc, tree)?;
    let current = read_current(alloc, tree)?;
    let coordination = read_text(alloc, tree, Parameter::CoordinationType)?;
    Ok(Create {
        expires,
        current,
        coordination,
    })
}

/// The context in the body of CreateCoordinationContextResponse (WS-Coordination 1.2, section 3.1.2).
pub fn read_create_response(alloc: Global, tree: &Tree) -> Result<Context, ContextFault>
    ensures { Answers (create_response_of tree.now) result }
{
    read_context(alloc, required(tree, Parameter::CoordinationContext)?)
}

/// The body of Register (WS-Coordination 1.2, section 3.2.1).
pub fn read_register(alloc: Global, tree: &Tree) -> Result<Register, ContextFault>
    ensures { Answers (register_of tree.now) result }
{
    let protocol = read_text(alloc, tree, Parameter::ProtocolIdentifier)?;
    let participant = read_endpoint(alloc, tree, Parameter::ParticipantProtocolService)?;
    Ok(Register {
        protocol,
        participant,
    })
}

/// The coordinator's endpoint in the body of RegisterResponse (WS-Coordination 1.2, section 3.2.2).
pub fn read_register_response(alloc: Global, tree: &Tree) -> Result<Epr, ContextFault>
    ensures { Answers (register_response_of tree.now) result }
{
    read_endpoint(alloc, tree, Parameter::CoordinatorProtocolService)
}

fn read_text(alloc: Global, tree: &Tree, name: Parameter) -> Result<Text, ContextFault>
    ensures { Answers (text_in tree.now name) result }
{
    Ok(text_value(alloc, required(tree, name)?)?)
}

fn read_endpoint(alloc: Global, tree: &Tree, name: Parameter) -> Result<Epr, ContextFault>
    ensures { Answers (endpoint_in tree.now name) result }
{
    match read_epr(alloc, required(tree, name)?)? {
        Some(epr) => Ok(epr),
        None => Err(ContextFault::Parameters { name }),
    }
}

fn read_identifier(alloc: Global, tree: &Tree) -> Result<Text, ContextFault>
    ensures { Answers (identifier_in tree.now) result }
{
    let text = read_text(alloc, tree, Parameter::Identifier)?;
    let length = text.as_str().len();
    if length == 0 || length > MOST_IDENTIFIER {
        return Err(ContextFault::Parameters {
            name: Parameter::Identifier,
        });
    }
    Ok(text)
}

fn read_expires(alloc: Global, tree: &Tree) -> Result<Option<u32>, ContextFault>
    ensures { Answers (expires_in tree.now) result }
{
    let name = Parameter::Expires;
    let Some(child) = optional(tree, name)? else {
        return Ok(None);
    };
    let text = text_value(alloc, child)?;
    match read_number(text.as_str()) {
        Some(milliseconds) => Ok(Some(milliseconds)),
        None => Err(ContextFault::Parameters { name }),
    }
}

/// The number that a text spells in decimal: a plus and zeros may stand in front.
#[tactic(auto, using(crate::proofs::Numbers::parsed))]
fn read_number(text: &str) -> Option<u32>
    ensures { result ≡ number_of text.now }
{
    text.parse().ok()
}

fn read_current(alloc: Global, tree: &Tree) -> Result<Option<Context>, ContextFault>
    ensures { Answers (current_in tree.now) result }
{
    match optional(tree, Parameter::CurrentContext)? {
        Some(child) => Ok(Some(read_context(alloc, child)?)),
        None => Ok(None),
    }
}
