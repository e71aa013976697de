//! Message addressing headers (WS-Addressing 1.0 Core section 3.1, SOAP Binding section 3).

ghost use Rattle.std.specs.Prelude.{◌≡◌, IfOk, None};
ghost use Rattle.std.specs.List.{find};
ghost use Rattle.std.specs.Option.{option_copied, option_map};
ghost use Rattle.soap_profile.specs.Values.{text_value};
ghost use Rattle.addressing.specs.Headers.{Answers, action_of, destination, endpoint_of, header_in, headers_of, is_repeated, is_reply, is_reply_type, local_name, own_blocks, said_once, singles, source_of, to_of, unless_repeated, with_context};

use crate::destination::Destination;
use crate::endpoint::{ANONYMOUS, is_anonymous, is_nobody, read_epr};
use at_base::epr::Epr;
use at_base::text::Text;
use soap_profile::elements::Elements;
use soap_profile::envelope::is_reference_parameter;
use soap_profile::value::{is_named, text_value, unqualified_attribute};
use std::alloc::{AllocError, Global};
use std::marker::Model;
use thiserror::Error;
use xml_profile::names::{ADDRESSING, COORDINATION};
use xml_profile::tree::Tree;

/// A header that may be missing or invalid.
#[derive(Debug, Clone, Copy, PartialEq, Eq)]
pub enum Header {
    To,
    Action,
    MessageId,
    From,
    ReplyTo,
    FaultTo,
    CoordinationContext,
}

impl Header {
    /// The local name of its element.
    pub fn local_name(self) -> &'static str
        ensures { result.now ≡ local_name self }
    {
        match self {
            Header::To => "To",
            Header::Action => "Action",
            Header::MessageId => "MessageID",
            Header::From => "From",
            Header::ReplyTo => "ReplyTo",
            Header::FaultTo => "FaultTo",
            Header::CoordinationContext => "CoordinationContext",
        }
    }
}

/// What the header blocks of an envelope say.
#[derive(Drop)]
pub struct Headers<'a> {
    /// The destination, absent where it is anonymous.
    pub to: Option<Destination>,
    pub action: Text,
    /// It may be empty.
    pub id: Option<Text>,
    /// The id of the message that this one replies to. It may be empty.
    pub relates: Option<Text>,
    /// Absent where it is anonymous or none.
    pub from: Option<Epr>,
    pub reply: Option<Epr>,
    pub fault: Option<Epr>,
    /// The element of a coordination context (WS-Coordination 1.2, section 2).
    pub context: Option<&'a Tree>,
}

impl<'a> Model for Headers<'a> {
    ghost use Rattle.std.specs.Option.{option_copied};
    ghost use Rattle.addressing.specs.Message.{Headers, coded_headers};

    ghost Value = { Headers };

    ghost coded = { coded_headers };

    ghost view = { λ h. record { to = h.to; action = h.action; id = h.id; relates = h.relates; from = h.from; reply = h.reply; fault = h.fault; context = option_copied h.context } };
}

/// Why header blocks are refused (WS-Addressing 1.0 SOAP Binding, section 6.4).
#[derive(Debug, PartialEq, Eq, Drop, Error)]
pub enum AddressingRefusal {
    #[error("header required")]
    MissingHeader { name: Header },
    #[error("invalid header")]
    InvalidHeader { name: Header },
    #[error("out of memory")]
    NoMemory,
}

impl From<AllocError> for AddressingRefusal {
    ghost use Rattle.std.specs.Prelude.{◌≡◌};
    ghost use Rattle.addressing.specs.declared.headers.AddressingRefusal.TheVariants.{NoMemory};

    ghost from_gives = { λ _ e. e ≡ NoMemory };

    fn from(_error: AllocError) -> AddressingRefusal {
        AddressingRefusal::NoMemory
    }
}

/// The headers that stand at most once.
const SINGLES: [Header; 6] = [
    Header::To,
    Header::Action,
    Header::MessageId,
    Header::From,
    Header::ReplyTo,
    Header::FaultTo,
];

/// What header blocks say, or the first refusal that holds: a repeated header, then no Action, then an Action, To,
/// From, ReplyTo or FaultTo that says nothing.
pub fn read_headers<'a>(
    alloc: Global,
    blocks: &Elements<'a>,
) -> Result<Headers<'a>, AddressingRefusal>
    ensures { Answers (headers_of blocks.now) result }
{
    let own = own_blocks(alloc, blocks)?;
    let headers = read_own(alloc, &own)?;
    let context = own.first(COORDINATION, "CoordinationContext");
    Ok(with_context(headers, context))
}

fn with_context<'a>(headers: Headers<'a>, context: Option<&'a Tree>) -> Headers<'a>
    ensures { result ≡ with_context (option_copied context.entry) headers.entry }
{
    let mut headers = headers;
    headers.context = context;
    headers
}

/// The blocks that are no reference parameters.
fn own_blocks<'a>(alloc: Global, blocks: &Elements<'a>) -> Result<Elements<'a>, AllocError>
    ensures { IfOk result (λ own. own ≡ own_blocks blocks.now) }
{
    let mut own = Elements::new(alloc);
    for block in blocks.as_slice() {
        let block: &'a Tree = *block;
        if !is_reference_parameter(block) {
            own.push(block)?;
        }
    }
    Ok(own)
}

/// All but the context.
fn read_own<'a>(alloc: Global, headers: &Elements<'a>) -> Result<Headers<'a>, AddressingRefusal>
    ensures { Answers (unless_repeated (find (is_repeated headers.now) singles) (said_once headers.now)) result }
{
    match first_repeated(headers, &SINGLES) {
        Some(name) => Err(AddressingRefusal::InvalidHeader { name }),
        None => read_once(alloc, headers),
    }
}

/// The first of these headers that is repeated.
fn first_repeated(headers: &Elements<'_>, names: &[Header]) -> Option<Header>
    ensures { result ≡ find (is_repeated headers.now) names.now }
{
    for name in names {
        if is_repeated(headers, *name) {
            return Some(*name);
        }
    }
    None
}

fn is_repeated(headers: &Elements<'_>, header: Header) -> bool
    ensures { result ≡ is_repeated headers.now header }
{
    headers.one(ADDRESSING, header.local_name()).is_none()
}

fn read_once<'a>(alloc: Global, headers: &Elements<'a>) -> Result<Headers<'a>, AddressingRefusal>
    ensures { Answers (said_once headers.now) result }
{
    let action = read_action(alloc, header_in(headers, Header::Action))?;
    let to = read_to(alloc, header_in(headers, Header::To))?;
    let from = read_endpoint(alloc, header_in(headers, Header::From), Header::From)?;
    let reply = read_endpoint(alloc, header_in(headers, Header::ReplyTo), Header::ReplyTo)?;
    let fault = read_endpoint(alloc, header_in(headers, Header::FaultTo), Header::FaultTo)?;
    let id = read_text(alloc, header_in(headers, Header::MessageId))?;
    let relates = read_text(alloc, first_reply(headers))?;
    Ok(Headers {
        to,
        action,
        id,
        relates,
        from: source_of(from),
        reply,
        fault,
        context: None,
    })
}

fn header_in<'a>(headers: &Elements<'a>, header: Header) -> Option<&'a Tree>
    ensures { option_copied result ≡ header_in headers.now header }
{
    headers.first(ADDRESSING, header.local_name())
}

/// The first RelatesTo of a reply.
fn first_reply<'a>(headers: &Elements<'a>) -> Option<&'a Tree>
    ensures { option_copied result ≡ find is_reply headers.now }
{
    for block in headers.as_slice() {
        let block: &'a Tree = *block;
        if is_reply(block) {
            return Some(block);
        }
    }
    None
}

fn is_reply(block: &Tree) -> bool
    ensures { result ≡ is_reply block.now }
{
    is_named(&block.name, ADDRESSING, "RelatesTo")
        && is_reply_type(unqualified_attribute(block.attributes.as_slice(), "RelationshipType"))
}

fn is_reply_type(relationship: Option<&str>) -> bool
    ensures { result ≡ is_reply_type (option_map (λ t. t.now) relationship.entry) }
{
    match relationship {
        Some(relationship) => relationship == REPLY,
        None => true,
    }
}

/// The type of the relationship of a reply (WS-Addressing 1.0 Core, section 3.2).
const REPLY: &str = "http://www.w3.org/2005/08/addressing/reply";

fn read_text(alloc: Global, block: Option<&Tree>) -> Result<Option<Text>, AllocError>
    ensures { IfOk result (λ text. text ≡ option_map text_value (option_copied block.entry)) }
{
    match block {
        Some(block) => Ok(Some(text_value(alloc, block)?)),
        None => Ok(None),
    }
}

fn read_action(alloc: Global, block: Option<&Tree>) -> Result<Text, AddressingRefusal>
    ensures { Answers (action_of (option_copied block.entry)) result }
{
    let Some(block) = block else {
        return Err(AddressingRefusal::MissingHeader {
            name: Header::Action,
        });
    };
    let text = text_value(alloc, block)?;
    if text.as_str().is_empty() {
        return Err(AddressingRefusal::InvalidHeader {
            name: Header::Action,
        });
    }
    Ok(text)
}

fn read_to(alloc: Global, block: Option<&Tree>) -> Result<Option<Destination>, AddressingRefusal>
    ensures { Answers (to_of (option_copied block.entry)) result }
{
    match block {
        Some(block) => destination(alloc, text_value(alloc, block)?),
        None => Ok(None),
    }
}

fn destination(alloc: Global, text: Text) -> Result<Option<Destination>, AddressingRefusal>
    ensures { Answers (destination text) result }
{
    if text.as_str() == ANONYMOUS {
        return Ok(None);
    }
    match Destination::read(alloc, text)? {
        Some(destination) => Ok(Some(destination)),
        None => Err(AddressingRefusal::InvalidHeader { name: Header::To }),
    }
}

fn read_endpoint(
    alloc: Global,
    block: Option<&Tree>,
    name: Header,
) -> Result<Option<Epr>, AddressingRefusal>
    ensures { Answers (endpoint_of name (option_copied block.entry)) result }
{
    let Some(block) = block else {
        return Ok(None);
    };
    match read_epr(alloc, block)? {
        Some(epr) => Ok(Some(epr)),
        None => Err(AddressingRefusal::InvalidHeader { name }),
    }
}

fn source_of(from: Option<Epr>) -> Option<Epr>
    ensures { result ≡ source_of from }
{
    let from = from?;
    if is_anonymous(&from) || is_nobody(&from) {
        None
    } else {
        Some(from)
    }
}
