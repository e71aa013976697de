//! Envelopes (SOAP 1.1, section 4).

ghost use Rattle.std.specs.Prelude.{◌≡◌, IfOk, Ok, None};
ghost use Rattle.std.specs.Option.{option_copied, option_map};
ghost use Rattle.soap_profile.specs.Envelopes.{Answers, envelope_of, envelope_tree, first_of, is_one, is_for_this_node, sole, is_message_header, is_endpoint_header, is_mandatory, is_obstacle, is_reference_parameter, is_understood_name, judged, not_understood, parts_of, root_refusal, with_body};
ghost use Rattle.soap_profile.specs.BuiltElements.{children_of, element, qualified};
ghost use Rattle.xml_profile.specs.Children.{forest_of};
ghost use Rattle.xml_profile.specs.Prefixes.{soap};
ghost use Rattle.soap_profile.specs.Values.{elements};

use crate::build::{children_of, element, qualified};
use crate::elements::{Elements, first_element};
use crate::trees::Trees;
use crate::value::{attribute, is_named};
use at_base::text::Text;
use std::alloc::{AllocError, AllocFailed, Global};
use std::marker::Model;
use thiserror::Error;
use xml_profile::name::QName;
use xml_profile::names::{ADDRESSING, COORDINATION, SOAP};
use xml_profile::tree::{Child, Children, Tree};

/// An envelope that is lent: its header blocks, and the one element in its body.
#[derive(Drop)]
pub struct Envelope<'a> {
    pub headers: Elements<'a>,
    pub body: &'a Tree,
}

impl<'a> Model for Envelope<'a> {
    ghost use Rattle.std.specs.Prelude.{List, refl};
    ghost use Rattle.std.specs.Coded.{coded×, code_by};
    ghost use Rattle.xml_profile.specs.declared.tree.Tree.{Tree};
    ghost use Rattle.xml_profile.specs.contracts.tree.Tree.{the_row};
    ghost use Rattle.soap_profile.specs.EnvelopeParts.{Envelope};
    ghost use base.Stored.{coded_list};

    ghost Value = { Envelope };

    ghost coded = { code_by (List Tree × Tree) (coded× (coded_list the_row.coded) the_row.coded) (λ e. (e.headers, e.body)) (λ p. record { headers = p.0; body = p.1 }) (λ _. refl) };

    ghost view = { λ e. record { headers = e.headers; body = e.body.now } };
}

/// Why a tree is no envelope that this node takes.
#[derive(Debug, PartialEq, Eq, Drop, Error)]
pub enum SoapRefusal {
    /// The root is an Envelope of another version (SOAP 1.1, section 4.1.2).
    #[error("wrong envelope version")]
    VersionMismatch,
    /// The root is no Envelope, or it doesn't hold a Header or none and then a Body of one element.
    #[error("not an envelope")]
    NotEnvelope,
    /// A header block that must be understood isn't; its local name (SOAP 1.1, section 4.2.3).
    #[error("header not understood")]
    MustUnderstand { name: Text },
    #[error("out of memory")]
    NoMemory,
}

impl From<AllocError> for SoapRefusal {
    ghost use Rattle.std.specs.Prelude.{◌≡◌};
    ghost use Rattle.soap_profile.specs.declared.envelope.SoapRefusal.TheVariants.{NoMemory};

    ghost from_gives = { λ _ e. e ≡ NoMemory };

    fn from(_error: AllocError) -> SoapRefusal {
        SoapRefusal::NoMemory
    }
}

/// The envelope that a tree is, or the first refusal that holds: VersionMismatch, NotEnvelope, MustUnderstand.
pub fn open_envelope(alloc: Global, tree: &Tree) -> Result<Envelope<'_>, SoapRefusal>
    ensures { Answers (envelope_of tree.now) result }
{
    if let Some(refusal) = root_refusal(&tree.name) {
        return Err(refusal);
    }
    match parts(alloc, &tree.children)? {
        Some(envelope) => judge(envelope),
        None => Err(SoapRefusal::NotEnvelope),
    }
}

fn root_refusal(name: &QName) -> Option<SoapRefusal>
    ensures { result ≡ root_refusal name.now }
{
    if is_named(name, SOAP, "Envelope") {
        None
    } else if name.local.as_str() == "Envelope" && name.space.is_some() {
        Some(SoapRefusal::VersionMismatch)
    } else {
        Some(SoapRefusal::NotEnvelope)
    }
}

fn parts(alloc: Global, children: &Children) -> Result<Option<Envelope<'_>>, AllocError>
    ensures { IfOk result (λ envelope. envelope ≡ parts_of (elements children.now)) }
{
    let Some((first, rest)) = first_element(children.as_slice()) else {
        return Ok(None);
    };
    if is_named(&first.name, SOAP, "Header") {
        let headers = Elements::within(alloc, &first.children)?;
        Ok(with_body(headers, next(rest)))
    } else {
        Ok(with_body(Elements::new(alloc), Some(first)))
    }
}

/// The first element of these children.
fn next(children: &[Child]) -> Option<&Tree>
    ensures { option_copied result ≡ first_of (elements (forest_of children.now)) }
{
    let (first, _) = first_element(children)?;
    Some(first)
}

fn with_body<'a>(headers: Elements<'a>, body: Option<&'a Tree>) -> Option<Envelope<'a>>
    ensures { result ≡ with_body headers.entry (option_copied body.entry) }
{
    let body = body?;
    if !is_named(&body.name, SOAP, "Body") {
        return None;
    }
    let body = sole(body.children.as_slice())?;
    Some(Envelope { headers, body })
}

/// The one element of children that have one.
fn sole(children: &[Child]) -> Option<&Tree>
    ensures { option_copied result ≡ sole (elements (forest_of children.now)) }
{
    let (first, rest) = first_element(children)?;
    match first_element(rest) {
        Some(_) => None,
        None => Some(first),
    }
}

fn judge(envelope: Envelope<'_>) -> Result<Envelope<'_>, SoapRefusal>
    ensures { Answers (judged envelope.entry (not_understood envelope.entry.headers)) result }
{
    match not_understood(&envelope.headers) {
        Some(block) => Err(SoapRefusal::MustUnderstand {
            name: block.name.local.clone()?,
        }),
        None => Ok(envelope),
    }
}

fn not_understood<'a>(blocks: &Elements<'a>) -> Option<&'a Tree>
    ensures { option_map (λ block. block.now.name.local) result ≡ not_understood blocks.now }
{
    for block in blocks.as_slice() {
        let block: &'a Tree = *block;
        if is_obstacle(block) {
            return Some(block);
        }
    }
    None
}

fn is_obstacle(block: &Tree) -> bool
    ensures { result ≡ is_obstacle block.now }
{
    is_mandatory(block) && !(is_understood_name(&block.name) || is_reference_parameter(block))
}

fn is_mandatory(block: &Tree) -> bool
    ensures { result ≡ is_mandatory block.now }
{
    let attributes = block.attributes.as_slice();
    is_one(attribute(attributes, SOAP, "mustUnderstand"))
        && is_for_this_node(attribute(attributes, SOAP, "actor"))
}

fn is_one(text: Option<&str>) -> bool
    ensures { result ≡ is_one (option_map (λ t. t.now) text.entry) }
{
    match text {
        Some(text) => text == "1",
        None => false,
    }
}

fn is_for_this_node(actor: Option<&str>) -> bool
    ensures { result ≡ is_for_this_node (option_map (λ a. a.now) actor.entry) }
{
    match actor {
        Some(actor) => actor.is_empty() || actor == NEXT,
        None => true,
    }
}

/// The actor that is every node (SOAP 1.1, section 4.2.2).
const NEXT: &str = "http://schemas.xmlsoap.org/soap/actor/next";

/// Whether a header block is a reference parameter (WS-Addressing 1.0 SOAP Binding, section 3.3).
pub fn is_reference_parameter(block: &Tree) -> bool
    ensures { result ≡ is_reference_parameter block.now }
{
    match attribute(
        block.attributes.as_slice(),
        ADDRESSING,
        "IsReferenceParameter",
    ) {
        Some(text) => text == "true" || text == "1",
        None => false,
    }
}

fn is_understood_name(name: &QName) -> bool
    ensures { result ≡ is_understood_name name.now }
{
    is_message_header(name)
        || is_endpoint_header(name)
        || is_named(name, COORDINATION, "CoordinationContext")
}

fn is_message_header(name: &QName) -> bool
    ensures { result ≡ is_message_header name.now }
{
    is_named(name, ADDRESSING, "To")
        || is_named(name, ADDRESSING, "Action")
        || is_named(name, ADDRESSING, "MessageID")
        || is_named(name, ADDRESSING, "RelatesTo")
}

fn is_endpoint_header(name: &QName) -> bool
    ensures { result ≡ is_endpoint_header name.now }
{
    is_named(name, ADDRESSING, "From")
        || is_named(name, ADDRESSING, "ReplyTo")
        || is_named(name, ADDRESSING, "FaultTo")
}

#[tactic(auto, using(crate::proofs::Lists::elements_of_children))]
/// The tree of an envelope: a Header of these blocks, and a Body of this element.
///
/// It opens again as what it was made of, unless a block must be understood and isn't.
pub fn envelope_tree(alloc: Global, headers: Trees, body: Tree) -> Result<Tree, AllocError>
    ensures tree { IfOk result (λ t. t ≡ envelope_tree headers body) }
    ensures opens { IfOk result (λ t. not_understood headers ≡ None → envelope_of t ≡ Ok (record { headers = headers; body = body })) }
{
    let header = soap_element(alloc, "Header", headers.into_vec())?;
    let body = soap_element(alloc, "Body", vec![in alloc; body]?)?;
    let tree = soap_element(alloc, "Envelope", vec![in alloc; header, body]?)?;
    Ok(tree)
}

/// An element of SOAP with these elements in it.
fn soap_element(alloc: Global, local: &str, inside: Vec<Tree>) -> Result<Tree, AllocError>
    ensures { IfOk result (λ t. t ≡ element (qualified soap local.now) (children_of inside.items)) }
{
    let name = qualified(alloc, SOAP, local)?;
    let children = children_of(alloc, inside)?;
    Ok(element(alloc, name, children))
}
