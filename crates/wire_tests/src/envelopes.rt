use crate::shared::part;
use soap_profile::envelope::{Envelope, SoapRefusal, open_envelope};
use std::alloc::{AllocError, Global};
use std::test::Fail;
use xml_grammar::reader::read_tree;
use xml_profile::tree::Tree;

/// Whether an envelope has so many header blocks, and this local name in its body.
fn is_envelope(envelope: &Envelope<'_>, words: &str) -> bool {
    part(words, ' ', 0).parse() == Ok(envelope.headers.as_slice().len())
        && envelope.body.name.local.as_str() == part(words, ' ', 1)
}

fn is_refusal(refusal: &SoapRefusal, words: &str) -> bool {
    match refusal {
        SoapRefusal::VersionMismatch => words == "VersionMismatch",
        SoapRefusal::NotEnvelope => words == "NotEnvelope",
        SoapRefusal::MustUnderstand { name } => {
            part(words, ' ', 0) == "MustUnderstand" && name.as_str() == part(words, ' ', 1)
        }
        SoapRefusal::NoMemory => false,
    }
}

fn is_opened(alloc: Global, tree: &Tree, words: &str) -> bool {
    match open_envelope(alloc, tree) {
        Ok(envelope) => is_envelope(&envelope, words),
        Err(refusal) => is_refusal(&refusal, words),
    }
}

/// Whether a spelled envelope has this outcome.
fn opens(alloc: Global, spelled: &str, wanted: &str) -> Result<bool, Fail> {
    let tree = read_tree(alloc, spelled.as_bytes())?;
    Ok(is_opened(alloc, &tree, wanted))
}

fn enveloped(alloc: Global, inside: &str) -> Result<String, AllocError> {
    format!(in alloc;
        "<s:Envelope xmlns:s=\"http://schemas.xmlsoap.org/soap/envelope/\">{inside}</s:Envelope>"
    )
}

/// Whether the envelope with this between its tags has this outcome.
fn opens_inside(alloc: Global, inside: &str, wanted: &str) -> Result<bool, Fail> {
    let spelled = enveloped(alloc, inside)?;
    opens(alloc, spelled.as_str(), wanted)
}

/// What stands between the tags of an Envelope, and the outcome.
const INSIDE: &[(&str, &str)] = &[
    ("", "NotEnvelope"),
    ("<s:Header/>", "NotEnvelope"),
    ("<s:Body/>", "NotEnvelope"),
    ("<s:Body>text</s:Body>", "NotEnvelope"),
    ("<s:Body><a/><b/></s:Body>", "NotEnvelope"),
    ("<s:Body><a/></s:Body>", "0 a"),
    ("<s:Header/><s:Body> x<a/>x</s:Body><b/>x<s:Body/>", "0 a"),
    (
        "<s:Header><x/>y<z/></s:Header>y<s:Body><a/></s:Body>",
        "2 a",
    ),
    ("<s:Body><a/></s:Body><s:Header/>", "0 a"),
    ("<s:Header/><b/><s:Body><a/></s:Body>", "NotEnvelope"),
    ("<s:Header/><s:Header/><s:Body><a/></s:Body>", "NotEnvelope"),
    (
        "<s:Header><b/><x s:mustUnderstand=\" 1 \"/></s:Header><s:Body><a/></s:Body>",
        "MustUnderstand x",
    ),
    (
        "<s:Header><x s:mustUnderstand=\"true\"/><y mustUnderstand=\"1\"/></s:Header><s:Body><a/></s:Body>",
        "2 a",
    ),
    (
        "<s:Header><x s:mustUnderstand=\"1\" s:actor=\"urn:other\"/></s:Header><s:Body><a/></s:Body>",
        "1 a",
    ),
    (
        "<s:Header><x s:actor=\"http://schemas.xmlsoap.org/soap/actor/next\" s:mustUnderstand=\"1\"/></s:Header><s:Body><a/></s:Body>",
        "MustUnderstand x",
    ),
    (
        "<s:Header xmlns:w=\"http://www.w3.org/2005/08/addressing\"><w:Action s:mustUnderstand=\"1\"/><x s:mustUnderstand=\"1\" w:IsReferenceParameter=\"true\"/></s:Header><s:Body><a/></s:Body>",
        "2 a",
    ),
];

/// Whole documents, and the outcome.
const WHOLE: &[(&str, &str)] = &[
    ("<a/>", "NotEnvelope"),
    ("<Envelope/>", "NotEnvelope"),
    (
        "<Envelope xmlns=\"http://www.w3.org/2003/05/soap-envelope\"/>",
        "VersionMismatch",
    ),
    (
        "<soapenv:Envelope xmlns:soapenv=\"http://schemas.xmlsoap.org/soap/envelope/\"><soapenv:Header/><soapenv:Body><Prepare xmlns=\"http://docs.oasis-open.org/ws-tx/wsat/2006/06\"/></soapenv:Body></soapenv:Envelope>",
        "0 Prepare",
    ),
    (
        "<Envelope xmlns=\"http://schemas.xmlsoap.org/soap/envelope/\"><Body><Prepare xmlns=\"http://docs.oasis-open.org/ws-tx/wsat/2006/06\"/></Body></Envelope>",
        "0 Prepare",
    ),
    // as common SOAP stacks write them
    (
        "<?xml version='1.0' encoding='UTF-8'?>\r\n<soapenv:Envelope xmlns:soapenv='http://schemas.xmlsoap.org/soap/envelope/'>\r\n  <soapenv:Header xmlns:wsa='http://www.w3.org/2005/08/addressing'><wsa:To>http://n2.example/p/d/1-1</wsa:To></soapenv:Header>\r\n  <soapenv:Body><wsat:Prepare xmlns:wsat='http://docs.oasis-open.org/ws-tx/wsat/2006/06'/></soapenv:Body>\r\n</soapenv:Envelope>",
        "1 Prepare",
    ),
    (
        "<s:Envelope xmlns:a=\"http://www.w3.org/2005/08/addressing\" xmlns:s=\"http://schemas.xmlsoap.org/soap/envelope/\"><s:Header><a:Action s:mustUnderstand=\"1\">x</a:Action><a:MessageID>urn:uuid:1</a:MessageID><a:ReplyTo><a:Address>http://www.w3.org/2005/08/addressing/anonymous</a:Address></a:ReplyTo><a:To s:mustUnderstand=\"1\">http://n2.example/</a:To></s:Header><s:Body xmlns:xsi=\"http://www.w3.org/2001/XMLSchema-instance\"><Prepare xmlns=\"http://docs.oasis-open.org/ws-tx/wsat/2006/06\"/></s:Body></s:Envelope>",
        "4 Prepare",
    ),
    (
        "<?xml version=\"1.0\" ?><S:Envelope xmlns:S=\"http://schemas.xmlsoap.org/soap/envelope/\"><S:Header><Action xmlns=\"http://www.w3.org/2005/08/addressing\" S:mustUnderstand=\"1\">x</Action><x:trace xmlns:x=\"urn:x\">7</x:trace><To xmlns=\"http://www.w3.org/2005/08/addressing\">http://n2.example/</To></S:Header><S:Body><ns2:Prepare xmlns:ns2=\"http://docs.oasis-open.org/ws-tx/wsat/2006/06\" xmlns=\"urn:y\"/></S:Body></S:Envelope>",
        "3 Prepare",
    ),
];

#[test]
fn opens_what_is_inside(rt: HostRuntime) -> Result<(), Fail> {
    for (inside, wanted) in INSIDE {
        let right = opens_inside(rt.alloc(), inside, wanted)?;
        assert!(rt; right, "at {inside}");
    }
    Ok(())
}

#[test]
fn opens_whole_documents(rt: HostRuntime) -> Result<(), Fail> {
    for (spelled, wanted) in WHOLE {
        let right = opens(rt.alloc(), spelled, wanted)?;
        assert!(rt; right, "at {spelled}");
    }
    Ok(())
}
