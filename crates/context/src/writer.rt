//! Bodies that are written (WS-Coordination 1.2, sections 2 and 3).

ghost use Rattle.std.specs.Prelude.{◌≡◌, ◌++◌, IfOk, Ok, OnOk, Some};
ghost use Rattle.addressing.specs.Endpoints.{epr_of};
ghost use Rattle.addressing.specs.OutgoingHeaders.{IsLegible, epr_in};
ghost use Rattle.context.specs.Bodies.{context_of, create_of, create_response_of, register_of, register_response_of};
ghost use Rattle.context.specs.BodyTrees.{IsLegibleContext, IsLegibleCreate, IsLegibleRegister, IsNarrow, CurrentReturns, body_tree, context_in, context_tree, create_in, create_response_tree, create_tree, current_parameter, endpoint_parameter, expires_parameter, parameter_name, register_in, register_response_tree, register_tree, text_parameter};

use crate::parameter::Parameter;
use addressing::writer::{Endpoint, endpoint_tree};
use at_base::text::Text;
use soap_profile::build::{children_of, element, qualified, text_children};
use std::alloc::{AllocError, Global};
use xml_profile::name::QName;
use xml_profile::names::COORDINATION;
use xml_profile::tree::Tree;

/// A coordination context to be written.
#[derive(Debug, Drop)]
pub struct OutgoingContext {
    pub identifier: Text,
    /// Milliseconds.
    pub expires: Option<u32>,
    pub coordination: Text,
    pub registration: Endpoint,
}

/// The body of a CreateCoordinationContext to be written.
#[derive(Debug, Drop)]
pub struct OutgoingCreate {
    /// Milliseconds.
    pub expires: Option<u32>,
    pub current: Option<OutgoingContext>,
    pub coordination: Text,
}

/// The body of a Register to be written.
#[derive(Debug, Drop)]
pub struct OutgoingRegister {
    pub protocol: Text,
    pub participant: Endpoint,
}

/// The element of a context under this name (WS-Coordination 1.2, section 2). It is read as what it was made of, where
/// that can be read.
pub fn write_context(
    alloc: Global,
    context: OutgoingContext,
    name: QName,
) -> Result<Tree, AllocError>
    ensures tree { IfOk result (λ t. t ≡ context_tree context name) }
    ensures reads { IfOk result (λ t. IsLegibleContext context → context_of t ≡ Ok (context_in context)) }
{
    let OutgoingContext {
        identifier,
        expires,
        coordination,
        registration,
    } = context;
    let mut parts = vec![in alloc; write_text(alloc, Parameter::Identifier, identifier.as_str())?]?;
    push_expires(alloc, &mut parts, expires)?;
    parts.push(write_text(alloc, Parameter::CoordinationType, coordination.as_str())?)?;
    parts.push(write_endpoint(alloc, Parameter::RegistrationService, registration)?)?;
    let children = children_of(alloc, parts)?;
    Ok(element(alloc, name, children))
}

/// The body of CreateCoordinationContext (WS-Coordination 1.2, section 3.1.1). It is read as what it was made of, where
/// that can be read.
pub fn write_create(alloc: Global, body: OutgoingCreate) -> Result<Tree, AllocError>
    ensures tree { IfOk result (λ t. t ≡ create_tree body) }
    ensures reads { IfOk result (λ t. IsLegibleCreate body → create_of t ≡ Ok (create_in body)) }
{
    let OutgoingCreate {
        expires,
        current,
        coordination,
    } = body;
    let mut parts = Vec::new(alloc);
    push_expires(alloc, &mut parts, expires)?;
    push_current(alloc, &mut parts, current)?;
    parts.push(write_text(alloc, Parameter::CoordinationType, coordination.as_str())?)?;
    body_of(alloc, "CreateCoordinationContext", parts)
}

/// The body of CreateCoordinationContextResponse (WS-Coordination 1.2, section 3.1.2). It is read as what it was made
/// of, where that can be read.
pub fn write_create_response(alloc: Global, context: OutgoingContext) -> Result<Tree, AllocError>
    ensures tree { IfOk result (λ t. t ≡ create_response_tree context) }
    ensures reads { IfOk result (λ t. IsLegibleContext context → create_response_of t ≡ Ok (context_in context)) }
{
    let name = parameter_name(alloc, Parameter::CoordinationContext)?;
    let context = write_context(alloc, context, name)?;
    body_of(
        alloc,
        "CreateCoordinationContextResponse",
        vec![in alloc; context]?,
    )
}

/// The body of Register (WS-Coordination 1.2, section 3.2.1). It is read as what it was made of, where that can be read.
pub fn write_register(alloc: Global, body: OutgoingRegister) -> Result<Tree, AllocError>
    ensures tree { IfOk result (λ t. t ≡ register_tree body) }
    ensures reads { IfOk result (λ t. IsLegibleRegister body → register_of t ≡ Ok (register_in body)) }
{
    let OutgoingRegister {
        protocol,
        participant,
    } = body;
    let mut parts = vec![in alloc;
        write_text(alloc, Parameter::ProtocolIdentifier, protocol.as_str())?,
    ]?;
    parts.push(write_endpoint(alloc, Parameter::ParticipantProtocolService, participant)?)?;
    body_of(alloc, "Register", parts)
}

/// The body of RegisterResponse (WS-Coordination 1.2, section 3.2.2). It is read as what it was made of, where that can
/// be read.
pub fn write_register_response(alloc: Global, coordinator: Endpoint) -> Result<Tree, AllocError>
    ensures tree { IfOk result (λ t. t ≡ register_response_tree coordinator) }
    ensures reads { IfOk result (λ t. IsLegible coordinator → register_response_of t ≡ Ok (epr_in coordinator)) }
{
    let endpoint = write_endpoint(alloc, Parameter::CoordinatorProtocolService, coordinator)?;
    body_of(alloc, "RegisterResponse", vec![in alloc; endpoint]?)
}

fn body_of(alloc: Global, local: &str, parts: Vec<Tree>) -> Result<Tree, AllocError>
    ensures { IfOk result (λ t. t ≡ body_tree local.now parts.items) }
{
    let name = qualified(alloc, COORDINATION, local)?;
    let children = children_of(alloc, parts)?;
    Ok(element(alloc, name, children))
}

fn parameter_name(alloc: Global, parameter: Parameter) -> Result<QName, AllocError>
    ensures { IfOk result (λ name. name ≡ parameter_name parameter) }
{
    qualified(alloc, COORDINATION, parameter.local_name())
}

fn write_text(alloc: Global, parameter: Parameter, text: &str) -> Result<Tree, AllocError>
    ensures { IfOk result (λ t. t ≡ text_parameter parameter text.now) }
{
    let name = parameter_name(alloc, parameter)?;
    let children = text_children(alloc, text)?;
    Ok(element(alloc, name, children))
}

fn write_endpoint(
    alloc: Global,
    parameter: Parameter,
    endpoint: Endpoint,
) -> Result<Tree, AllocError>
    ensures tree { IfOk result (λ t. t ≡ endpoint_parameter parameter endpoint) }
    ensures reads { IfOk result (λ t. IsLegible endpoint → epr_of t ≡ Some (epr_in endpoint)) }
{
    let name = parameter_name(alloc, parameter)?;
    endpoint_tree(alloc, endpoint, name)
}

fn push_expires(
    alloc: Global,
    parts: &mut Vec<Tree>,
    expires: Option<u32>,
) -> Result<(), AllocError>
    ensures tree { OnOk result (parts.new.items ≡ parts.old.items ++ expires_parameter expires) }
    ensures narrow { IsNarrow expires }
{
    let Some(milliseconds) = expires else {
        return Ok(());
    };
    let text = format!(in alloc; "{milliseconds}")?;
    parts.push(write_text(alloc, Parameter::Expires, text.as_str())?)?;
    Ok(())
}

fn push_current(
    alloc: Global,
    parts: &mut Vec<Tree>,
    current: Option<OutgoingContext>,
) -> Result<(), AllocError>
    ensures tree { OnOk result (parts.new.items ≡ parts.old.items ++ current_parameter current) }
    ensures reads { OnOk result (CurrentReturns current) }
{
    let Some(context) = current else {
        return Ok(());
    };
    let name = parameter_name(alloc, Parameter::CurrentContext)?;
    parts.push(write_context(alloc, context, name)?)?;
    Ok(())
}
