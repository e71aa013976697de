use crate::shared::{epr, optional, part};
use addressing::destination::Destination;
use addressing::endpoint::{read_epr, reply_to};
use addressing::headers::{AddressingRefusal, Headers, read_headers};
use addressing::post_to::{PostTo, post_to};
use addressing::request::check_request;
use at_base::epr::{Epr, Reply};
use at_base::text::Text;
use soap_profile::elements::Elements;
use std::alloc::{AllocError, Global};
use std::test::Fail;
use xml_grammar::reader::read_tree;
use xml_profile::name::QName;
use xml_profile::tree::Tree;

fn spelled(alloc: Global, parts: &str) -> Result<String, AllocError> {
    format!(in alloc;
        "<w:EndpointReference xmlns:w=\"http://www.w3.org/2005/08/addressing\">{parts}</w:EndpointReference>"
    )
}

/// The address and the reference parameters of the endpoint with these parts in it.
fn read(alloc: Global, parts: &str) -> Result<Option<Epr>, Fail> {
    let text = spelled(alloc, parts)?;
    let tree = read_tree(alloc, text.as_bytes())?;
    Ok(read_epr(alloc, &tree)?)
}

/// The parts of an endpoint, and what its address and reference parameters are.
const READABLE: &[(&str, &str, &str)] = &[
    (
        "<w:Address> http://n1.example/ </w:Address>",
        "http://n1.example/",
        "",
    ),
    (
        "text<w:Address>a<x/>b</w:Address><w:Metadata><y/></w:Metadata><z/>",
        "ab",
        "",
    ),
    (
        "<w:ReferenceParameters><k xmlns=\"urn:key\">7</k></w:ReferenceParameters><w:Address>http://n1.example/</w:Address>",
        "http://n1.example/",
        "<wsa:ReferenceParameters xmlns:wsa=\"http://www.w3.org/2005/08/addressing\" xmlns:n1=\"urn:key\"><n1:k>7</n1:k></wsa:ReferenceParameters>",
    ),
    (
        "<Address xmlns=\"\">b</Address><w:Address>a</w:Address>",
        "a",
        "",
    ),
];

const UNREADABLE: &[&str] = &[
    "",
    "<w:Address> </w:Address>",
    "<w:Address>a</w:Address><w:Address>a</w:Address>",
    "<w:Address>a</w:Address><w:ReferenceParameters/><w:ReferenceParameters/>",
    "<w:Metadata/><w:Address>a</w:Address><w:Metadata/>",
];

/// Whether the endpoint with these parts in it is read with this address and these reference parameters.
fn reads(alloc: Global, parts: &str, address: &str, params: &str) -> Result<bool, Fail> {
    match read(alloc, parts)? {
        Some(epr) => Ok(epr.address.as_str() == address && epr.params.as_str() == params),
        None => Ok(false),
    }
}

fn is_readable(alloc: Global, parts: &str) -> Result<bool, Fail> {
    Ok(read(alloc, parts)?.is_some())
}

#[test]
fn reads_endpoints(rt: HostRuntime) -> Result<(), Fail> {
    for (parts, address, params) in READABLE {
        let right = reads(rt.alloc(), parts, address, params)?;
        assert!(rt; right, "at {parts}");
    }
    Ok(())
}

#[test]
fn reads_no_other_endpoints(rt: HostRuntime) -> Result<(), Fail> {
    for parts in UNREADABLE {
        let readable = is_readable(rt.alloc(), parts)?;
        assert!(rt; !readable, "at {parts}");
    }
    Ok(())
}

/// Whether an endpoint with an address of so many bytes is read.
fn is_readable_at(alloc: Global, length: usize) -> Result<bool, Fail> {
    let address = "a".repeat(alloc, length)?;
    let parts = format!(in alloc; "<w:Address>{address}</w:Address>")?;
    is_readable(alloc, parts.as_str())
}

#[test]
fn bounds_an_address(rt: HostRuntime) -> Result<(), Fail> {
    let longest = is_readable_at(rt.alloc(), 2048)?;
    let longer = is_readable_at(rt.alloc(), 2049)?;
    assert!(rt; longest && !longer);
    Ok(())
}

/// Addresses, and the host, port and path that a post goes to, none where the port is 0.
const POSTS: &[(&str, &str, u16, &str)] = &[
    ("http://n1.example/p/d/1-1", "n1.example", 80, "/p/d/1-1"),
    (
        "http://n1.example:8080/a?b=c#d",
        "n1.example",
        8080,
        "/a?b=c",
    ),
    ("HTTP://N1.EXAMPLE:80", "n1.example", 80, "/"),
    ("http://[::1]:81/x", "[::1]", 81, "/x"),
    ("https://n1.example/", "", 0, ""),
    ("urn:uuid:1", "", 0, ""),
    ("n1.example", "", 0, ""),
    ("http://", "", 0, ""),
    ("", "", 0, ""),
];

fn goes_to(to: &PostTo, row: &(&str, &str, u16, &str)) -> bool {
    to.host.as_str() == row.1 && to.port == row.2 && to.path.as_str() == row.3
}

/// Whether a post goes where its row says.
fn posts(alloc: Global, row: &(&str, &str, u16, &str)) -> Result<bool, AllocError> {
    let epr = epr(alloc, row.0)?;
    match post_to(alloc, &epr)? {
        Some(to) => Ok(goes_to(&to, row)),
        None => Ok(row.2 == 0),
    }
}

#[test]
fn posts_to_http(rt: HostRuntime) -> Result<(), Fail> {
    for row in POSTS {
        let right = posts(rt.alloc(), row)?;
        assert!(rt; right, "at {}", row.0);
    }
    Ok(())
}

fn is_reply(reply: &Reply, word: &str) -> bool {
    match reply {
        Reply::Anonymous => word == "anonymous",
        Reply::Nobody => word == "nobody",
        Reply::At(_) => word == "at",
    }
}

fn replies(alloc: Global, address: &str, word: &str) -> Result<bool, AllocError> {
    let told = optional(alloc, address)?;
    let reply = reply_to(&told)?;
    Ok(is_reply(&reply, word))
}

/// The address of a ReplyTo, empty where there is none, and where answers go.
const REPLIES: &[(&str, &str)] = &[
    ("", "anonymous"),
    (
        "http://www.w3.org/2005/08/addressing/anonymous",
        "anonymous",
    ),
    ("http://www.w3.org/2005/08/addressing/none", "nobody"),
    ("http://n1.example/i/1-1", "at"),
];

#[test]
fn replies_where_told(rt: HostRuntime) -> Result<(), Fail> {
    for (address, word) in REPLIES {
        let right = replies(rt.alloc(), address, word)?;
        assert!(rt; right, "at {address}");
    }
    Ok(())
}

fn is_refusal(refusal: &AddressingRefusal, words: &str) -> bool {
    match refusal {
        AddressingRefusal::MissingHeader { name } => {
            part(words, ' ', 0) == "missing" && name.local_name() == part(words, ' ', 1)
        }
        AddressingRefusal::InvalidHeader { name } => {
            part(words, ' ', 0) == "invalid" && name.local_name() == part(words, ' ', 1)
        }
        AddressingRefusal::NoMemory => false,
    }
}

fn destination(to: &Option<Destination>) -> &str {
    match to {
        Some(to) => to.as_str(),
        None => "-",
    }
}

fn word(text: &Option<Text>) -> &str {
    match text {
        Some(text) => text.as_str(),
        None => "-",
    }
}

fn address(epr: &Option<Epr>) -> &str {
    match epr {
        Some(epr) => epr.address.as_str(),
        None => "-",
    }
}

/// Whether the context has so many attributes, no word where there is none.
fn has_attributes(headers: &Headers<'_>, word: &str) -> bool {
    match headers.context {
        Some(context) => word.parse() == Ok(context.attributes.as_slice().len()),
        None => word.is_empty(),
    }
}

fn has_ends(headers: &Headers<'_>, words: &str) -> bool {
    destination(&headers.to) == part(words, ' ', 0)
        && address(&headers.from) == part(words, ' ', 4)
        && address(&headers.reply) == part(words, ' ', 5)
        && address(&headers.fault) == part(words, ' ', 6)
}

/// Whether these are the texts and addresses of headers, `-` where there is none, in the order To, Action, MessageID,
/// RelatesTo, From, ReplyTo, FaultTo, and how many attributes the context has.
fn are_headers(headers: &Headers<'_>, words: &str) -> bool {
    has_ends(headers, words)
        && headers.action.as_str() == part(words, ' ', 1)
        && word(&headers.id) == part(words, ' ', 2)
        && word(&headers.relates) == part(words, ' ', 3)
        && has_attributes(headers, part(words, ' ', 7))
}

/// Whether headers say this to a message with a body of this name.
fn is_checked(alloc: Global, headers: &Headers<'_>, body: &QName, words: &str) -> bool {
    match check_request(alloc, headers, body) {
        Ok(()) => are_headers(headers, words),
        Err(refusal) => is_refusal(&refusal, words),
    }
}

/// Whether the header blocks in an element say this to a message whose body has the element's name.
fn is_outcome(alloc: Global, tree: &Tree, words: &str) -> Result<bool, AllocError> {
    let blocks = Elements::within(alloc, &tree.children)?;
    match read_headers(alloc, &blocks) {
        Ok(headers) => Ok(is_checked(alloc, &headers, &tree.name, words)),
        Err(refusal) => Ok(is_refusal(&refusal, words)),
    }
}

fn within(alloc: Global, blocks: &str) -> Result<String, AllocError> {
    format!(in alloc;
        "<h xmlns:w=\"http://www.w3.org/2005/08/addressing\" xmlns:c=\"http://docs.oasis-open.org/ws-tx/wscoor/2006/06\">{blocks}</h>"
    )
}

/// Whether these header blocks say this.
fn says(alloc: Global, blocks: &str, words: &str) -> Result<bool, Fail> {
    let text = within(alloc, blocks)?;
    let tree = read_tree(alloc, text.as_bytes())?;
    Ok(is_outcome(alloc, &tree, words)?)
}

/// Header blocks, and what they say.
const BLOCKS: &[(&str, &str)] = &[
    ("", "missing Action"),
    ("<Action>a</Action>", "missing Action"),
    ("<w:Action> a </w:Action>", "- a - - - - - "),
    // repeated headers, each before those behind it in the order and before a missing Action
    ("<w:FaultTo/><w:FaultTo/>", "invalid FaultTo"),
    (
        "<w:FaultTo/><w:FaultTo/><w:ReplyTo/><w:ReplyTo/>",
        "invalid ReplyTo",
    ),
    ("<w:ReplyTo/><w:ReplyTo/><w:From/><w:From/>", "invalid From"),
    (
        "<w:From/><w:From/><w:MessageID/><w:MessageID/>",
        "invalid MessageID",
    ),
    (
        "<w:MessageID/><w:MessageID/><w:Action>a</w:Action><w:Action>a</w:Action>",
        "invalid Action",
    ),
    (
        "<w:Action>a</w:Action><w:Action>a</w:Action><w:To/><w:To/>",
        "invalid To",
    ),
    // headers that say nothing
    ("<w:To/>", "missing Action"),
    ("<w:Action> </w:Action><w:To/>", "invalid Action"),
    ("<w:Action>a</w:Action><w:To/><w:From/>", "invalid To"),
    (
        "<w:ReplyTo/><w:From/><w:Action>a</w:Action>",
        "invalid From",
    ),
    (
        "<w:FaultTo/><w:ReplyTo/><w:Action>a</w:Action>",
        "invalid ReplyTo",
    ),
    ("<w:FaultTo/><w:Action>a</w:Action>", "invalid FaultTo"),
    // what is read
    (
        "<w:To> urn:x </w:To><w:Action>a</w:Action><w:MessageID/><w:RelatesTo/><w:From><w:Address>f</w:Address></w:From><w:ReplyTo><w:Address>r</w:Address></w:ReplyTo><w:FaultTo><w:Address>t</w:Address></w:FaultTo>",
        "urn:x a   f r t ",
    ),
    (
        "<w:To>http://www.w3.org/2005/08/addressing/anonymous</w:To><w:Action>a</w:Action><w:From><w:Address>http://www.w3.org/2005/08/addressing/anonymous</w:Address></w:From><w:ReplyTo><w:Address>http://www.w3.org/2005/08/addressing/none</w:Address></w:ReplyTo>",
        "- a - - - http://www.w3.org/2005/08/addressing/none - ",
    ),
    (
        "<w:Action>a</w:Action><w:From><w:Address>http://www.w3.org/2005/08/addressing/none</w:Address></w:From>",
        "- a - - - - - ",
    ),
    // a reference parameter is no header
    (
        "<w:Action w:IsReferenceParameter=\" true \">a</w:Action>",
        "missing Action",
    ),
    (
        "<w:Action w:IsReferenceParameter=\"1\">b</w:Action><w:Action w:IsReferenceParameter=\"yes\">a</w:Action><c:CoordinationContext w:IsReferenceParameter=\"true\"/>",
        "- a - - - - - ",
    ),
    // which relation and which context count
    (
        "<w:Action>a</w:Action><w:RelatesTo RelationshipType=\"urn:x\">1</w:RelatesTo><w:RelatesTo RelationshipType=\" http://www.w3.org/2005/08/addressing/reply \">2</w:RelatesTo><w:RelatesTo>3</w:RelatesTo>",
        "- a - 2 - - - ",
    ),
    (
        "<c:CoordinationContext w:IsReferenceParameter=\"true\" x=\"\"/><c:CoordinationContext y=\"\"/><c:CoordinationContext/><w:Action>a</w:Action>",
        "- a - - - - - 1",
    ),
    // what an action asks for
    (
        "<w:Action>http://docs.oasis-open.org/ws-tx/wscoor/2006/06/Register</w:Action><w:ReplyTo><w:Address>urn:x</w:Address></w:ReplyTo>",
        "missing MessageID",
    ),
    (
        "<w:Action>http://docs.oasis-open.org/ws-tx/wscoor/2006/06/CreateCoordinationContext</w:Action><w:MessageID/><w:ReplyTo><w:Address>urn:x</w:Address></w:ReplyTo><w:FaultTo><w:Address>urn:x</w:Address></w:FaultTo>",
        "invalid ReplyTo",
    ),
    (
        "<w:Action>http://example.org/atx/work/1/Work</w:Action><w:MessageID/><w:FaultTo><w:Address>urn:x</w:Address></w:FaultTo>",
        "invalid FaultTo",
    ),
    (
        "<w:Action>http://example.org/atx/work/1/Work</w:Action><w:MessageID>m</w:MessageID>",
        "missing CoordinationContext",
    ),
    (
        "<w:Action>http://example.org/atx/work/1/Work</w:Action><w:MessageID>m</w:MessageID><c:CoordinationContext/>",
        "- http://example.org/atx/work/1/Work m - - - - 0",
    ),
    (
        "<w:Action>http://docs.oasis-open.org/ws-tx/wscoor/2006/06/Register</w:Action><w:MessageID>m</w:MessageID><w:ReplyTo><w:Address>http://www.w3.org/2005/08/addressing/none</w:Address></w:ReplyTo><w:FaultTo><w:Address>http://n1.example/</w:Address></w:FaultTo>",
        "- http://docs.oasis-open.org/ws-tx/wscoor/2006/06/Register m - - http://www.w3.org/2005/08/addressing/none http://n1.example/ ",
    ),
];

#[test]
fn reads_headers_of_blocks(rt: HostRuntime) -> Result<(), Fail> {
    for (blocks, words) in BLOCKS {
        let right = says(rt.alloc(), blocks, words)?;
        assert!(rt; right, "at {blocks}");
    }
    Ok(())
}
