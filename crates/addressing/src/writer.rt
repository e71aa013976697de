//! The header blocks of a message that is sent (WS-Addressing 1.0 Core, sections 2.2 and 3.3, SOAP Binding section 3).

ghost use Rattle.std.specs.Prelude.{◌≡◌, ◌++◌, IfOk, IfSome, None, Ok, OnOk, Some};
ghost use Rattle.std.specs.List.{list_any};
ghost use Rattle.xml_profile.specs.Prefixes.{addressing};
ghost use Rattle.soap_profile.specs.BuiltElements.{qualified};
ghost use Rattle.soap_profile.specs.Envelopes.{not_understood};
ghost use Rattle.addressing.specs.Endpoints.{epr_of};
ghost use Rattle.addressing.specs.Headers.{headers_of};
ghost use Rattle.addressing.specs.OutgoingHeaders.{AreLegible, IsContext, IsLegible, IsParameters, added_mark, blocks_of, context_block, context_blocks, endpoint_blocks, endpoint_tree, endpoint_with, epr_in, headers_in, is_mark, kept_params, mark, marked, marked_attributes, message_blocks, parameters_in, parameters_of, text_blocks, text_element, to_blocks, with_mark};

use crate::endpoint::ANONYMOUS;
use at_base::text::Text;
use soap_profile::build::{children_of, element, qualified, text_children};
use soap_profile::trees::Trees;
use soap_profile::value::{into_elements, is_named};
use std::alloc::{AllocError, Global};
use xml_profile::name::{Attribute, Attributes, QName};
use xml_profile::names::{ADDRESSING, SOAP};
use xml_profile::tree::Tree;

/// An endpoint to be written: its address, and its reference parameters as the element that they are.
#[derive(Debug, Drop)]
pub struct Endpoint {
    pub address: Text,
    pub params: Option<Tree>,
}

impl Endpoint {
    /// The endpoint with this address, and with this element as its reference parameters where it is a
    /// `wsa:ReferenceParameters`; any other element is left out.
    #[tactic(auto, using(crate::proofs::ParameterNames::are_parameters))]
    pub fn new(address: Text, params: Option<Tree>) -> Endpoint
        ensures endpoint { result ≡ endpoint_with address params }
        ensures params { IsParameters result.params }
    {
        Endpoint {
            address,
            params: kept_params(params),
        }
    }
}

fn kept_params(params: Option<Tree>) -> Option<Tree>
    ensures { result ≡ kept_params params }
{
    let params = params?;
    if is_named(&params.name, ADDRESSING, "ReferenceParameters") {
        Some(params)
    } else {
        None
    }
}

/// What the header blocks of a message say.
#[derive(Debug, Drop)]
pub struct OutgoingHeaders {
    /// Where the message goes, or none where it is an answer on the connection.
    pub to: Option<Endpoint>,
    pub action: Text,
    pub id: Option<Text>,
    /// The id of the message that this one replies to.
    pub relates: Option<Text>,
    pub from: Option<Endpoint>,
    pub reply: Option<Endpoint>,
    /// The element of a coordination context. Its attributes aren't written.
    pub context: Option<Tree>,
}

/// The header blocks of a message: To, Action, MessageID, RelatesTo, From, ReplyTo, the reference parameters of where
/// it goes, and the context. They are read as what they were made of, where that can be read.
#[tactic(auto, using(crate::proofs::HeaderRoundtrip::headers_return, crate::proofs::UnderstoodBlocks::all_understood))]
pub fn header_blocks(alloc: Global, out: OutgoingHeaders) -> Result<Trees, AllocError>
    ensures blocks { IfOk result (λ blocks. blocks ≡ blocks_of out) }
    ensures reads { IfOk result (λ blocks. AreLegible out → headers_of blocks ≡ Ok (headers_in out)) }
    ensures understood { IfOk result (λ blocks. IfSome out.context IsContext → not_understood blocks ≡ None) }
{
    let OutgoingHeaders {
        to,
        action,
        id,
        relates,
        from,
        reply,
        context,
    } = out;
    let mut blocks = Trees::new(alloc);
    push_message(alloc, &mut blocks, &to, action.as_str(), &id, &relates)?;
    push_endpoint(alloc, &mut blocks, "From", from)?;
    push_endpoint(alloc, &mut blocks, "ReplyTo", reply)?;
    push_last(alloc, &mut blocks, to, context)?;
    Ok(blocks)
}

fn push_message(
    alloc: Global,
    blocks: &mut Trees,
    to: &Option<Endpoint>,
    action: &str,
    id: &Option<Text>,
    relates: &Option<Text>,
) -> Result<(), AllocError>
    ensures { OnOk result (blocks.new ≡ blocks.old ++ message_blocks to.now action.now id.now relates.now) }
{
    push_to(alloc, blocks, to)?;
    blocks.push(text_element(alloc, "Action", action)?)?;
    push_text(alloc, blocks, "MessageID", id)?;
    push_text(alloc, blocks, "RelatesTo", relates)
}

fn push_to(alloc: Global, blocks: &mut Trees, to: &Option<Endpoint>) -> Result<(), AllocError>
    ensures { OnOk result (blocks.new ≡ blocks.old ++ to_blocks to.now) }
{
    let Some(endpoint) = to else {
        return Ok(());
    };
    if endpoint.address.as_str() == ANONYMOUS {
        return Ok(());
    }
    blocks.push(text_element(alloc, "To", endpoint.address.as_str())?)
}

fn push_text(
    alloc: Global,
    blocks: &mut Trees,
    local: &str,
    text: &Option<Text>,
) -> Result<(), AllocError>
    ensures { OnOk result (blocks.new ≡ blocks.old ++ text_blocks local.now text.now) }
{
    match text {
        Some(text) => blocks.push(text_element(alloc, local, text.as_str())?),
        None => Ok(()),
    }
}

fn push_endpoint(
    alloc: Global,
    blocks: &mut Trees,
    local: &str,
    endpoint: Option<Endpoint>,
) -> Result<(), AllocError>
    ensures { OnOk result (blocks.new ≡ blocks.old ++ endpoint_blocks local.now endpoint) }
{
    match endpoint {
        Some(endpoint) => blocks.push(endpoint_block(alloc, local, endpoint)?),
        None => Ok(()),
    }
}

fn endpoint_block(alloc: Global, local: &str, endpoint: Endpoint) -> Result<Tree, AllocError>
    ensures { IfOk result (λ block. block ≡ endpoint_tree endpoint (qualified addressing local.now)) }
{
    let name = qualified(alloc, ADDRESSING, local)?;
    endpoint_tree(alloc, endpoint, name)
}

fn push_last(
    alloc: Global,
    blocks: &mut Trees,
    to: Option<Endpoint>,
    context: Option<Tree>,
) -> Result<(), AllocError>
    ensures { OnOk result (blocks.new ≡ blocks.old ++ parameters_of to ++ context_blocks context) }
{
    if let Some(endpoint) = to {
        push_parameters(alloc, blocks, endpoint.params)?;
    }
    match context {
        Some(context) => blocks.push(context_block(alloc, context)?),
        None => Ok(()),
    }
}

fn push_parameters(
    alloc: Global,
    blocks: &mut Trees,
    params: Option<Tree>,
) -> Result<(), AllocError>
    ensures { OnOk result (blocks.new ≡ blocks.old ++ parameters_in params) }
{
    let Some(params) = params else {
        return Ok(());
    };
    for block in into_elements(alloc, params.children)? {
        blocks.push(marked(alloc, block)?)?;
    }
    Ok(())
}

fn context_block(alloc: Global, context: Tree) -> Result<Tree, AllocError>
    ensures { IfOk result (λ block. block ≡ context_block context) }
{
    let name = qualified(alloc, SOAP, "mustUnderstand")?;
    let value = Text::copied(alloc, "1")?;
    let attributes = vec![in alloc; Attribute { name, value }]?;
    Ok(Tree {
        name: context.name,
        attributes: Attributes::from_vec(attributes),
        children: context.children,
    })
}

/// An element of addressing with a text.
fn text_element(alloc: Global, local: &str, text: &str) -> Result<Tree, AllocError>
    ensures { IfOk result (λ t. t ≡ text_element local.now text.now) }
{
    let name = qualified(alloc, ADDRESSING, local)?;
    let children = text_children(alloc, text)?;
    Ok(element(alloc, name, children))
}

/// The element of an endpoint (WS-Addressing 1.0 Core, section 2.2). It is read as what it was made of, where it can be
/// read.
#[tactic(auto, using(crate::proofs::EndpointRoundtrip::endpoint_returns))]
pub fn endpoint_tree(alloc: Global, endpoint: Endpoint, name: QName) -> Result<Tree, AllocError>
    ensures tree { IfOk result (λ t. t ≡ endpoint_tree endpoint name) }
    ensures reads { IfOk result (λ t. IsLegible endpoint → epr_of t ≡ Some (epr_in endpoint)) }
{
    let tree = endpoint_element(alloc, endpoint, name)?;
    Ok(tree)
}

fn endpoint_element(alloc: Global, endpoint: Endpoint, name: QName) -> Result<Tree, AllocError>
    ensures { IfOk result (λ t. t ≡ endpoint_tree endpoint name) }
{
    let Endpoint { address, params } = endpoint;
    let mut parts = vec![in alloc; text_element(alloc, "Address", address.as_str())?]?;
    if let Some(params) = params {
        parts.push(params)?;
    }
    let children = children_of(alloc, parts)?;
    Ok(element(alloc, name, children))
}

/// A reference parameter as a header block.
fn marked(alloc: Global, block: Tree) -> Result<Tree, AllocError>
    ensures { IfOk result (λ t. t ≡ marked block) }
{
    let Tree {
        name,
        attributes,
        children,
    } = block;
    Ok(Tree {
        name,
        attributes: marked_attributes(alloc, attributes)?,
        children,
    })
}

fn marked_attributes(alloc: Global, attributes: Attributes) -> Result<Attributes, AllocError>
    ensures { IfOk result (λ with. with ≡ marked_attributes attributes) }
{
    let mut marked = added_mark(alloc, attributes.as_slice())?;
    for attribute in attributes.into_vec() {
        marked.push(with_mark(alloc, attribute)?)?;
    }
    Ok(Attributes::from_vec(marked))
}

fn added_mark(alloc: Global, attributes: &[Attribute]) -> Result<Vec<Attribute>, AllocError>
    ensures { IfOk result (λ added. added.items ≡ added_mark attributes.now) }
{
    if has_mark(attributes) {
        Ok(Vec::new(alloc))
    } else {
        Ok(vec![in alloc; mark(alloc)?]?)
    }
}

fn has_mark(attributes: &[Attribute]) -> bool
    ensures { result ≡ list_any is_mark attributes.now }
{
    attributes.iter().any(is_mark)
}

fn is_mark(attribute: &Attribute) -> bool
    ensures { result ≡ is_mark attribute.now }
{
    is_named(&attribute.name, ADDRESSING, "IsReferenceParameter")
}

fn with_mark(alloc: Global, attribute: Attribute) -> Result<Attribute, AllocError>
    ensures { IfOk result (λ a. a ≡ with_mark attribute) }
{
    if is_mark(&attribute) {
        mark(alloc)
    } else {
        Ok(attribute)
    }
}

/// What marks a block as a reference parameter (WS-Addressing 1.0 SOAP Binding, section 3.3).
fn mark(alloc: Global) -> Result<Attribute, AllocError>
    ensures { IfOk result (λ a. a ≡ mark) }
{
    let name = qualified(alloc, ADDRESSING, "IsReferenceParameter")?;
    let value = Text::copied(alloc, "true")?;
    Ok(Attribute { name, value })
}
