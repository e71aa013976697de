use crate::shared::part;
use at_base::epr::Epr;
use at_base::message::{Context, Create, Register};
use context::parameter::ContextFault;
use context::reader::{
    read_context, read_create, read_create_response, read_register, read_register_response,
};
use std::alloc::{AllocError, Global};
use std::test::Fail;
use xml_grammar::reader::read_tree;
use xml_profile::tree::Tree;

fn is_fault(fault: &ContextFault, words: &str) -> bool {
    match fault {
        ContextFault::Parameters { name } => {
            part(words, ' ', 0) == "parameters" && name.local_name() == part(words, ' ', 1)
        }
        ContextFault::NoMemory => false,
    }
}

fn is_expires(expires: Option<u32>, word: &str) -> bool {
    match expires {
        Some(milliseconds) => word.parse() == Ok(milliseconds),
        None => word == "-",
    }
}

/// Whether the words from this place on are an address, and how long the reference parameters are.
fn is_epr(epr: &Epr, words: &str, first: usize) -> bool {
    epr.address.as_str() == part(words, ' ', first)
        && part(words, ' ', first.saturating_add(1)).parse() == Ok(epr.params.as_str().len())
}

/// Identifier, Expires, CoordinationType, and the endpoint of the registration service.
fn is_context(context: &Context, words: &str, first: usize) -> bool {
    context.identifier.as_str() == part(words, ' ', first)
        && is_expires(context.expires, part(words, ' ', first.saturating_add(1)))
        && context.coordination.as_str() == part(words, ' ', first.saturating_add(2))
        && is_epr(&context.registration, words, first.saturating_add(3))
}

fn is_current(current: &Option<Context>, words: &str) -> bool {
    match current {
        Some(context) => is_context(context, words, 2),
        None => part(words, ' ', 2) == "-",
    }
}

/// Expires, CoordinationType, the current context.
fn is_create(body: &Create, words: &str) -> bool {
    is_expires(body.expires, part(words, ' ', 0))
        && body.coordination.as_str() == part(words, ' ', 1)
        && is_current(&body.current, words)
}

fn is_register(body: &Register, words: &str) -> bool {
    body.protocol.as_str() == part(words, ' ', 0) && is_epr(&body.participant, words, 1)
}

fn create_is(alloc: Global, tree: &Tree, words: &str) -> bool {
    match read_create(alloc, tree) {
        Ok(body) => is_create(&body, words),
        Err(fault) => is_fault(&fault, words),
    }
}

fn create_response_is(alloc: Global, tree: &Tree, words: &str) -> bool {
    match read_create_response(alloc, tree) {
        Ok(context) => is_context(&context, words, 0),
        Err(fault) => is_fault(&fault, words),
    }
}

fn register_is(alloc: Global, tree: &Tree, words: &str) -> bool {
    match read_register(alloc, tree) {
        Ok(body) => is_register(&body, words),
        Err(fault) => is_fault(&fault, words),
    }
}

fn register_response_is(alloc: Global, tree: &Tree, words: &str) -> bool {
    match read_register_response(alloc, tree) {
        Ok(epr) => is_epr(&epr, words, 0),
        Err(fault) => is_fault(&fault, words),
    }
}

fn context_is(alloc: Global, tree: &Tree, words: &str) -> bool {
    match read_context(alloc, tree) {
        Ok(context) => is_context(&context, words, 0),
        Err(fault) => is_fault(&fault, words),
    }
}

/// Whether a tree says this that is read as this message.
fn is_read(alloc: Global, message: &str, tree: &Tree, words: &str) -> bool {
    match message {
        "Create" => create_is(alloc, tree, words),
        "CreateResponse" => create_response_is(alloc, tree, words),
        "Register" => register_is(alloc, tree, words),
        "RegisterResponse" => register_response_is(alloc, tree, words),
        _ => context_is(alloc, tree, words),
    }
}

/// A body with these children.
fn spelled(alloc: Global, children: &str) -> Result<String, AllocError> {
    format!(in alloc;
        "<a xmlns:w=\"http://www.w3.org/2005/08/addressing\" xmlns:c=\"http://docs.oasis-open.org/ws-tx/wscoor/2006/06\">{children}</a>"
    )
}

/// Whether the body with these children that is read as this message says this.
fn says(alloc: Global, message: &str, children: &str, words: &str) -> Result<bool, Fail> {
    let text = spelled(alloc, children)?;
    let tree = read_tree(alloc, text.as_bytes())?;
    Ok(is_read(alloc, message, &tree, words))
}

/// Bodies, and what they say.
const BODIES: &[(&str, &str, &str)] = &[
    // in any order, beside texts and other elements
    (
        "Context",
        "a<c:RegistrationService><w:Address> urn:r </w:Address><w:ReferenceParameters/></c:RegistrationService><c:Other/><Identifier>j</Identifier><c:CoordinationType>urn<!-- -->:<x/>t</c:CoordinationType><c:Expires> +0060 </c:Expires>b<c:Identifier><![CDATA[ i]]>d </c:Identifier>",
        "id 60 urn:t urn:r 75",
    ),
    (
        "Context",
        "<c:Identifier>i</c:Identifier><c:CoordinationType/><c:RegistrationService><w:Address>r</w:Address></c:RegistrationService>",
        "i -  r 0",
    ),
    (
        "Create",
        "<c:CoordinationType>urn:t</c:CoordinationType>",
        "- urn:t -",
    ),
    (
        "Create",
        "<c:CoordinationType>urn:t</c:CoordinationType><c:CurrentContext><c:RegistrationService><w:Address>r</w:Address></c:RegistrationService><c:CoordinationType>urn:u</c:CoordinationType><c:Identifier>i</c:Identifier></c:CurrentContext><c:Expires>000</c:Expires>",
        "0 urn:t i - urn:u r 0",
    ),
    (
        "CreateResponse",
        "<x/><c:CoordinationContext><c:Expires>1</c:Expires><c:RegistrationService><w:Address>r</w:Address></c:RegistrationService><c:CoordinationType>t</c:CoordinationType><c:Identifier>i</c:Identifier></c:CoordinationContext>",
        "i 1 t r 0",
    ),
    (
        "Register",
        "<c:ParticipantProtocolService><w:Address>p</w:Address></c:ParticipantProtocolService><c:ProtocolIdentifier> urn:p </c:ProtocolIdentifier>",
        "urn:p p 0",
    ),
    (
        "RegisterResponse",
        "<CoordinatorProtocolService/><c:CoordinatorProtocolService><w:Metadata/><w:Address>s</w:Address></c:CoordinatorProtocolService>",
        "s 0",
    ),
    // the first of the order goes first
    ("Context", "", "parameters Identifier"),
    (
        "Context",
        "<c:Identifier>i</c:Identifier><c:Expires/><c:Expires/>",
        "parameters Expires",
    ),
    (
        "Context",
        "<c:Identifier>i</c:Identifier>",
        "parameters CoordinationType",
    ),
    (
        "Context",
        "<c:CoordinationType>t</c:CoordinationType><c:Identifier>i</c:Identifier>",
        "parameters RegistrationService",
    ),
    ("Create", "", "parameters CoordinationType"),
    ("CreateResponse", "", "parameters CoordinationContext"),
    ("Register", "", "parameters ProtocolIdentifier"),
    (
        "Register",
        "<c:ProtocolIdentifier/>",
        "parameters ParticipantProtocolService",
    ),
    (
        "RegisterResponse",
        "",
        "parameters CoordinatorProtocolService",
    ),
    // repeated
    (
        "Context",
        "<c:Identifier>i</c:Identifier><c:Identifier>i</c:Identifier>",
        "parameters Identifier",
    ),
    (
        "Create",
        "<c:CoordinationType>t</c:CoordinationType><c:CurrentContext/><c:CurrentContext/>",
        "parameters CurrentContext",
    ),
    (
        "Create",
        "<c:CoordinationType>t</c:CoordinationType><c:CoordinationType>t</c:CoordinationType>",
        "parameters CoordinationType",
    ),
    (
        "CreateResponse",
        "<c:CoordinationContext/><c:CoordinationContext/>",
        "parameters CoordinationContext",
    ),
    (
        "RegisterResponse",
        "<c:CoordinatorProtocolService/><c:CoordinatorProtocolService/>",
        "parameters CoordinatorProtocolService",
    ),
    // unreadable
    (
        "Context",
        "<c:Identifier> </c:Identifier>",
        "parameters Identifier",
    ),
    ("Create", "<c:Expires/>", "parameters Expires"),
    ("Create", "<c:Expires>-0</c:Expires>", "parameters Expires"),
    ("Create", "<c:Expires>+</c:Expires>", "parameters Expires"),
    ("Create", "<c:Expires>++1</c:Expires>", "parameters Expires"),
    ("Create", "<c:Expires>1 1</c:Expires>", "parameters Expires"),
    (
        "Create",
        "<c:Expires>&#x661;</c:Expires>",
        "parameters Expires",
    ),
    (
        "Create",
        "<c:Expires>4294967296</c:Expires>",
        "parameters Expires",
    ),
    (
        "Create",
        "<c:Expires>4294967295</c:Expires><c:CoordinationType/>",
        "4294967295  -",
    ),
    // the innermost one that fails
    (
        "Create",
        "<c:CoordinationType>t</c:CoordinationType><c:CurrentContext><c:CoordinationType>t</c:CoordinationType></c:CurrentContext>",
        "parameters Identifier",
    ),
    (
        "CreateResponse",
        "<c:CoordinationContext><c:Identifier>i</c:Identifier><c:CoordinationType>t</c:CoordinationType><c:RegistrationService/></c:CoordinationContext>",
        "parameters RegistrationService",
    ),
    (
        "Register",
        "<c:ProtocolIdentifier>p</c:ProtocolIdentifier><c:ParticipantProtocolService><w:Address/></c:ParticipantProtocolService>",
        "parameters ParticipantProtocolService",
    ),
];

#[test]
fn reads_bodies(rt: HostRuntime) -> Result<(), Fail> {
    for (message, children, wanted) in BODIES {
        let right = says(rt.alloc(), message, children, wanted)?;
        assert!(rt; right, "at {message} {children}");
    }
    Ok(())
}

/// Lengths of an identifier, and what the context says that has it alone.
const IDENTIFIERS: &[(usize, &str)] = &[
    (2048, "parameters CoordinationType"),
    (2049, "parameters Identifier"),
];

fn identified(alloc: Global, length: usize, wanted: &str) -> Result<bool, Fail> {
    let identifier = "i".repeat(alloc, length)?;
    let children = format!(in alloc; "<c:Identifier>{identifier}</c:Identifier>")?;
    says(alloc, "Context", children.as_str(), wanted)
}

#[test]
fn bounds_an_identifier(rt: HostRuntime) -> Result<(), Fail> {
    for (length, wanted) in IDENTIFIERS {
        let right = identified(rt.alloc(), *length, wanted)?;
        assert!(rt; right, "at {length}");
    }
    Ok(())
}
