//! What a request means: which spellings of each message are read, at which path, and the first cause for which one is
//! refused (Namespaces in XML 1.0; WS-Coordination 1.2 and WS-AtomicTransaction 1.2, section 3).

use crate::shared::part;
use at_base::epr::Epr;
use at_base::id::Id;
use at_base::message::{Message, Work};
use at_base::notice::{Kind, Vote};
use at_base::target::{Seat, Target};
use at_base::text::Text;
use std::alloc::{AllocError, Global};
use std::test::Fail;
use wire_msgs::decode::{Arrival, decode};
use wire_msgs::refusal::{ParameterName, Refusal};

/// The namespace of a prefix in the tables below.
fn space(prefix: &str) -> &'static str {
    match prefix {
        "c" => "http://docs.oasis-open.org/ws-tx/wscoor/2006/06",
        "t" => "http://docs.oasis-open.org/ws-tx/wsat/2006/06",
        _ => "http://example.org/atx/work/1",
    }
}

const HEAD: &str =
    "<?xml version='1.0'?><s:Envelope xmlns:s='http://schemas.xmlsoap.org/soap/envelope/' xmlns:e='http://schemas.xmlsoap.org/soap/envelope/' xmlns:a='http://www.w3.org/2005/08/addressing' xmlns:c='http://docs.oasis-open.org/ws-tx/wscoor/2006/06' xmlns:t='http://docs.oasis-open.org/ws-tx/wsat/2006/06' xmlns:w='http://example.org/atx/work/1' xmlns='";

/// An envelope with this action, these other header blocks, and this body. Its default namespace is that of the action.
fn envelope(alloc: Global, action: &str, headers: &str, body: &str) -> Result<String, AllocError> {
    let space = space(part(action, ':', 0));
    let local = part(action, ':', 1);
    format!(in alloc;
        "{}{space}'><s:Header><a:Action>{space}/{local}</a:Action>{headers}</s:Header><s:Body>{body}</s:Body></s:Envelope>",
        HEAD
    )
}

fn id_in(text: &str) -> Id {
    match Id::read(text.as_bytes()) {
        Some(id) => id,
        None => Id::new(9, 9),
    }
}

fn kind_in(word: &str) -> Kind {
    match word {
        "volatile" => Kind::Volatile,
        _ => Kind::Durable,
    }
}

fn seat_in(words: &str) -> Target {
    Target::Coordinator {
        id: id_in(part(words, ' ', 3)),
        seat: Seat {
            number: part(words, ' ', 4).parse().unwrap_or(0),
            kind: kind_in(part(words, ' ', 2)),
        },
    }
}

fn participant_in(words: &str) -> Target {
    Target::Participant {
        id: id_in(part(words, ' ', 3)),
        kind: kind_in(part(words, ' ', 2)),
    }
}

/// The target behind the first word.
fn target_in(words: &str) -> Target {
    match part(words, ' ', 1) {
        "activation" => Target::Activation,
        "registration" => Target::Registration(id_in(part(words, ' ', 2))),
        "completion" => Target::Completion(id_in(part(words, ' ', 2))),
        "initiator" => Target::Initiator(id_in(part(words, ' ', 2))),
        "coordinator" => seat_in(words),
        "participant" => participant_in(words),
        _ => Target::Work,
    }
}

fn message_name(message: &Message) -> &str {
    match message {
        Message::Create(_) => "Create",
        Message::CreateResponse(_) => "CreateResponse",
        Message::Register(_) => "Register",
        Message::RegisterResponse(_) => "RegisterResponse",
        Message::Notice(notice) => notice.name(),
        Message::Work(_) => "Work",
        Message::WorkDone => "WorkDone",
        Message::WorkRefused => "WorkRefused",
        Message::Fault { .. } => "Fault",
    }
}

/// The name of a fault stands behind a colon.
fn is_message(message: &Message, word: &str) -> bool {
    let named = match message {
        Message::Fault { name } => part(word, ':', 1) == name.as_str(),
        _ => true,
    };
    named && part(word, ':', 0) == message_name(message)
}

fn parameter_name(name: ParameterName) -> &'static str {
    match name {
        ParameterName::Body => "body",
        ParameterName::Coordination(parameter) => parameter.local_name(),
        ParameterName::Part(part) => part.local_name(),
        ParameterName::Fault(part) => part.local_name(),
    }
}

fn refusal_name(refusal: &Refusal) -> &'static str {
    match refusal {
        Refusal::TooLong => "TooLong",
        Refusal::NotUtf8 { .. } => "NotUtf8",
        Refusal::NotSpelled => "NotSpelled",
        Refusal::TooDeep => "TooDeep",
        Refusal::TooMany => "TooMany",
        Refusal::VersionMismatch => "VersionMismatch",
        Refusal::NotEnvelope => "NotEnvelope",
        Refusal::MustUnderstand { .. } => "MustUnderstand",
        Refusal::MissingHeader { .. } => "Missing",
        Refusal::InvalidHeader { .. } => "Invalid",
        Refusal::NoTarget => "NoTarget",
        Refusal::Action => "Action",
        Refusal::Parameters { .. } => "Parameters",
        Refusal::NoMemory => "NoMemory",
    }
}

/// What it is that is refused, a header or a parameter.
fn refused_name(refusal: &Refusal) -> &str {
    match refusal {
        Refusal::MustUnderstand { name } => name.as_str(),
        Refusal::MissingHeader { name } => name.local_name(),
        Refusal::InvalidHeader { name } => name.local_name(),
        Refusal::Parameters { name } => parameter_name(*name),
        _ => "",
    }
}

/// Whether bytes at a path are the message of the first word for the target behind it, or are refused so.
fn is_read(alloc: Global, bytes: &[u8], path: &str, words: &str) -> bool {
    match decode(alloc, bytes, path) {
        Ok(arrival) => {
            is_message(&arrival.message, part(words, ' ', 0)) && arrival.target == target_in(words)
        }
        Err(refusal) => {
            refusal_name(&refusal) == part(words, ' ', 0)
                && refused_name(&refusal) == part(words, ' ', 1)
        }
    }
}

/// The header blocks of a row; `WORK` stands for those of a Work.
fn headers_in(row: &str) -> &str {
    match part(row, '|', 2) {
        "WORK" => WORK_HEADERS,
        headers => headers,
    }
}

/// Whether a row's message is read as it says.
fn is_right(alloc: Global, row: &str) -> Result<bool, AllocError> {
    let text = envelope(alloc, part(row, '|', 1), headers_in(row), part(row, '|', 3))?;
    Ok(is_read(alloc, text.as_bytes(), part(row, '|', 0), part(row, '|', 4)))
}

/// The first row that isn't read as it says; empty where each is.
fn misread(alloc: Global, rows: &'static [&'static str]) -> Result<&'static str, AllocError> {
    for row in rows {
        let right = is_right(alloc, row)?;
        if !right {
            return Ok(row);
        }
    }
    Ok("")
}

/// Paths, actions, other header blocks and bodies of notifications, and what is read of them.
const NOTICES: &[&str] = &[
    "/p/d/1-2|t:Prepare||<t:Prepare/>|Prepare participant durable 1-2",
    "/completion/1-2|t:Commit||<t:Commit/>|Commit completion 1-2",
    "/work|t:Rollback|<a:To>https://n9.example:1/completion/1-2?q#f</a:To>|<t:Rollback/>|Rollback completion 1-2",
    "/c/d/1-2/65535|t:Prepared|<a:To>http://www.w3.org/2005/08/addressing/anonymous</a:To>|<t:Prepared/>|Prepared coordinator durable 1-2 65535",
    "/c/v/1-2/1|t:ReadOnly||<t:ReadOnly><x/>text</t:ReadOnly>|ReadOnly coordinator volatile 1-2 1",
    "/i/1-2|t:Aborted||<t:Aborted/>|Aborted initiator 1-2",
    "/c/d/1-2/3|t:Committed||<t:Committed/>|Committed coordinator durable 1-2 3",
    "/p/d/1-1|t:Prepare||<Prepare ></Prepare\n>|Prepare participant durable 1-1",
    "/p/d/1-1|t:Prepare||<Prepare xmlns=''/>|Parameters body",
    "/completion/1-1|t:Commit||<!-- - --><Commit><x/></Commit> |Commit completion 1-1",
    "/completion/1-1|t:Commit||<Rollback/>|Parameters body",
    "/p/v/1-1|t:Rollback||<z:Rollback xmlns:z='http://docs.oasis-open.org/ws-tx/wsat/2006/06'/>|Rollback participant volatile 1-1",
    "/p/v/1-1|t:Rollback||<c:Rollback/>|Parameters body",
    "/c/d/1-1/1|t:Prepared||<Prepared a = \"1\" e:b\n=\n'2' />|Prepared coordinator durable 1-1 1",
    "/c/d/1-1/1|t:Prepared||<prepared/>|Parameters body",
    "/c/v/1-1/9|t:ReadOnly||text<ReadOnly/>text|ReadOnly coordinator volatile 1-1 9",
    "/c/v/1-1/9|t:ReadOnly||<ReadOnly/><ReadOnly/>|NotEnvelope",
    "/i/1-1|t:Aborted||<Aborted>&#x61;<![CDATA[<]]></Aborted>|Aborted initiator 1-1",
    "/i/1-1|t:Aborted||&lt;Aborted/>|NotEnvelope",
    "/i/1-1|t:Committed||<Committed xmlns:p='urn:p' p:q='&apos;'/>|Committed initiator 1-1",
    "/p/d/1-1|t:Committed||<Committed/>|Action",
];

/// Likewise of WS-Coordination.
const COORDINATION: &[&str] = &[
    "/activation|c:CreateCoordinationContext|<a:MessageID/>|<c:CreateCoordinationContext><x/><c:CoordinationType> urn:t </c:CoordinationType></c:CreateCoordinationContext>|Create activation",
    "/i/4294967295-1|c:CreateCoordinationContextResponse||<c:CreateCoordinationContextResponse><c:CoordinationContext><c:Identifier>urn:1</c:Identifier><c:CoordinationType>urn:t</c:CoordinationType><c:RegistrationService><a:Address>u</a:Address></c:RegistrationService></c:CoordinationContext></c:CreateCoordinationContextResponse>|CreateResponse initiator 4294967295-1",
    "/registration/1-2?q=1|c:Register|<a:MessageID>m</a:MessageID>|<c:Register><c:ProtocolIdentifier>urn:p</c:ProtocolIdentifier><c:ParticipantProtocolService><a:Address>u</a:Address></c:ParticipantProtocolService></c:Register>|Register registration 1-2",
    "/p/v/1-2|c:RegisterResponse||<c:RegisterResponse><c:CoordinatorProtocolService><a:Address>u</a:Address></c:CoordinatorProtocolService></c:RegisterResponse>|RegisterResponse participant volatile 1-2",
    "/activation|c:CreateCoordinationContext|<a:MessageID>urn:a</a:MessageID>|<CreateCoordinationContext><x/><CoordinationType> urn:&#116;ype </CoordinationType><Expires>+007</Expires></CreateCoordinationContext>|Create activation",
    "/activation|c:CreateCoordinationContext|<a:MessageID>urn:a</a:MessageID>|<CreateCoordinationContext><CoordinationType>urn:t</CoordinationType><Expires>-1</Expires></CreateCoordinationContext>|Parameters Expires",
    "/i/1-1|c:CreateCoordinationContextResponse|<a:MessageID>urn:a</a:MessageID>|<CreateCoordinationContextResponse><CoordinationContext><RegistrationService><a:Metadata/><a:Address>urn:r</a:Address></RegistrationService><CoordinationType>urn:t</CoordinationType><Identifier><![CDATA[urn:]]>i</Identifier></CoordinationContext></CreateCoordinationContextResponse>|CreateResponse initiator 1-1",
    "/i/1-1|c:CreateCoordinationContextResponse|<a:MessageID>urn:a</a:MessageID>|<CreateCoordinationContextResponse><CoordinationContext><RegistrationService><a:Address/></RegistrationService><CoordinationType>urn:t</CoordinationType><Identifier>urn:i</Identifier></CoordinationContext></CreateCoordinationContextResponse>|Parameters RegistrationService",
    "/registration/1-1|c:Register|<a:MessageID>urn:a</a:MessageID>|<Register><ParticipantProtocolService><Address xmlns='http://www.w3.org/2005/08/addressing'>urn:p</Address></ParticipantProtocolService><!----><ProtocolIdentifier>urn:x</ProtocolIdentifier></Register>|Register registration 1-1",
    "/registration/1-1|c:Register|<a:MessageID>urn:a</a:MessageID>|<Register><ProtocolIdentifier>urn:x</ProtocolIdentifier><ProtocolIdentifier>urn:x</ProtocolIdentifier><ParticipantProtocolService><a:Address>urn:p</a:Address></ParticipantProtocolService></Register>|Parameters ProtocolIdentifier",
    "/p/d/1-1|c:RegisterResponse|<a:MessageID>urn:a</a:MessageID>|<RegisterResponse>\r\n<CoordinatorProtocolService>\r<a:Address>\turn:c\n</a:Address></CoordinatorProtocolService></RegisterResponse>|RegisterResponse participant durable 1-1",
    "/p/d/1-1|c:RegisterResponse|<a:MessageID>urn:a</a:MessageID>|<RegisterResponse><CoordinatorProtocolService><Address>urn:c</Address></CoordinatorProtocolService></RegisterResponse>|Parameters CoordinatorProtocolService",
];

const WORK_HEADERS: &str =
    "<a:MessageID>m</a:MessageID><c:CoordinationContext s:mustUnderstand=\"1\"><c:Identifier>urn:1</c:Identifier><c:CoordinationType>urn:t</c:CoordinationType><c:RegistrationService><a:Address>u</a:Address></c:RegistrationService></c:CoordinationContext>";

/// Likewise of this project's messages.
const WORK: &[&str] = &[
    "/work|w:Work|WORK|<w:Work><w:Value> v </w:Value><w:Key>k</w:Key><w:Vote>readonly</w:Vote><w:Kind>volatile</w:Kind></w:Work>|Work work",
    "/i/1-2|w:WorkDone||<w:WorkDone/>|WorkDone initiator 1-2",
    "/i/1-2|w:WorkRefused||<w:WorkRefused/>|WorkRefused initiator 1-2",
    "/work|w:Work|WORK|<Work><Vote> readonly </Vote><Kind>vol<x/>atile</Kind><Value/><Key>&amp;</Key></Work>|Work work",
    "/work|w:Work|WORK|<Work><Vote>Readonly</Vote><Kind>volatile</Kind><Value/><Key>k</Key></Work>|Parameters Vote",
    "/i/1-1|w:WorkDone||<WorkDone>done</WorkDone>|WorkDone initiator 1-1",
    "/work|w:WorkDone||<WorkDone/>|Action",
    "/i/1-1|w:WorkRefused||<WorkRefused\t></WorkRefused>|WorkRefused initiator 1-1",
    "/i/1-1|w:WorkRefused||<WorkDone/>|Parameters body",
];

/// Likewise of faults.
const FAULTS: &[&str] = &[
    "/i/1-2|w:Work||<s:Fault xmlns=''><faultstring/><faultcode>a:b:Code</faultcode></s:Fault>|Fault:Code initiator 1-2",
    "/completion/1-2|c:fault||<s:Fault xmlns=''><faultcode>a:</faultcode><faultstring/><detail><x/></detail><faultactor/></s:Fault>|Fault: completion 1-2",
    "/p/d/1-2|t:fault||<s:Fault xmlns=''><faultcode>Client</faultcode><faultstring/></s:Fault>|Fault:Client participant durable 1-2",
    "/i/1-1|t:fault||<e:Fault><faultstring xmlns=''>a</faultstring><faultcode xmlns=''> x:Unknown </faultcode></e:Fault>|Fault:Unknown initiator 1-1",
    "/i/1-1|t:fault||<e:Fault><faultstring>a</faultstring><faultcode>x:Unknown</faultcode></e:Fault>|Parameters faultcode",
];

/// Likewise what is refused, for the first cause that holds.
const REFUSALS: &[&str] = &[
    "/i/1-2|w:WorkDone||<w:WorkDone>|NotSpelled",
    "/i/1-2|w:WorkDone||<w:WorkDone/><x/>|NotEnvelope",
    "/i/1-2|w:WorkDone|<x s:mustUnderstand=\"1\"/>|<w:WorkDone/>|MustUnderstand x",
    "/activation|c:CreateCoordinationContext||<c:CreateCoordinationContext/>|Missing MessageID",
    "/none|w:Work|<a:MessageID/>|<w:Work/>|Missing CoordinationContext",
    "/none|w:WorkDone|<a:To>none</a:To>|<w:WorkDone/>|Invalid To",
    "/none|t:None||<t:None/>|NoTarget",
    "/activation/|t:None||<t:None/>|NoTarget",
    "/p/d/1-02|t:Prepare||<t:Prepare/>|NoTarget",
    "/p/d/0-2|t:Prepare||<t:Prepare/>|NoTarget",
    "/p/d/1-4294967296|t:Prepare||<t:Prepare/>|NoTarget",
    "/c/d/1-2/65536|t:Prepared||<t:Prepared/>|NoTarget",
    "/c/d/1-2/0|t:Prepared||<t:Prepared/>|NoTarget",
    "/c/d/1-2/03|t:Prepared||<t:Prepared/>|NoTarget",
    "/p/d/1-2|t:None||<t:None/>|Action",
    "/p/d/1-2|t:Prepared||<t:Prepared/>|Action",
    "/activation|t:fault||<s:Fault xmlns=''/>|Action",
    "/p/d/1-2|t:Prepare||<t:Commit/>|Parameters body",
    "/i/1-2|t:fault||<s:Fault xmlns=''/>|Parameters faultcode",
    "/i/1-2|t:fault||<s:Fault xmlns=''><faultcode/><faultstring/><detail/><detail/></s:Fault>|Parameters detail",
    "/work|w:Work|<a:MessageID/><c:CoordinationContext/>|<w:Work/>|Parameters Identifier",
    "/work|w:Work|WORK|<w:Work><w:Value> v </w:Value><w:Key>k</w:Key><w:Kind>Durable</w:Kind></w:Work>|Parameters Kind",
    "/work|w:Work|WORK|<w:Work><w:Value> v </w:Value><w:Key>k</w:Key><w:Key/></w:Work>|Parameters Key",
    "/registration/1-2|c:Register|<a:MessageID/>|<c:Register><c:ProtocolIdentifier/></c:Register>|Parameters ParticipantProtocolService",
];

#[test]
fn notifications(rt: HostRuntime) -> Result<(), Fail> {
    let wrong = misread(rt.alloc(), NOTICES)?;
    assert!(rt; wrong.is_empty(), "at {wrong}");
    Ok(())
}

#[test]
fn bodies_of_coordination(rt: HostRuntime) -> Result<(), Fail> {
    let wrong = misread(rt.alloc(), COORDINATION)?;
    assert!(rt; wrong.is_empty(), "at {wrong}");
    Ok(())
}

#[test]
fn bodies_of_work(rt: HostRuntime) -> Result<(), Fail> {
    let wrong = misread(rt.alloc(), WORK)?;
    assert!(rt; wrong.is_empty(), "at {wrong}");
    Ok(())
}

#[test]
fn faults(rt: HostRuntime) -> Result<(), Fail> {
    let wrong = misread(rt.alloc(), FAULTS)?;
    assert!(rt; wrong.is_empty(), "at {wrong}");
    Ok(())
}

#[test]
fn refuses_for_the_first_cause(rt: HostRuntime) -> Result<(), Fail> {
    let wrong = misread(rt.alloc(), REFUSALS)?;
    assert!(rt; wrong.is_empty(), "at {wrong}");
    Ok(())
}

fn is_work(work: &Work) -> bool {
    work.context.identifier.as_str() == "urn:1"
        && work.key.as_str() == "k"
        && work.value.as_str() == "v"
        && work.kind == Kind::Volatile
        && work.vote == Vote::ReadOnly
}

fn says_work(alloc: Global, body: &str) -> Result<bool, AllocError> {
    let text = envelope(alloc, "w:Work", WORK_HEADERS, body)?;
    match decode(alloc, text.as_bytes(), "/work") {
        Ok(arrival) => match &arrival.message {
            Message::Work(work) => Ok(is_work(work)),
            _ => Ok(false),
        },
        Err(_) => Ok(false),
    }
}

#[test]
fn tells_a_work(rt: HostRuntime) -> Result<(), Fail> {
    let body =
        "<Work><Value> v </Value><Key>k</Key><Vote>readonly</Vote><Kind>volatile</Kind></Work>";
    let right = says_work(rt.alloc(), body)?;
    assert!(rt; right);
    Ok(())
}

/// In how many elements how many of which text stand, and the refusal.
const BOUNDS: &[(usize, usize, &str, &str)] = &[
    (0, 65_537, " ", "TooLong"),
    (32, 1, "<a/>", "TooDeep"),
    (1, 4_096, "<a/>", "TooMany"),
];

fn nested(alloc: Global, depth: usize, count: usize, inner: &str) -> Result<String, AllocError> {
    let open = "<a>".repeat(alloc, depth)?;
    let inner = inner.repeat(alloc, count)?;
    let close = "</a>".repeat(alloc, depth)?;
    format!(in alloc; "{open}{inner}{close}")
}

fn is_bounded(alloc: Global, row: &(usize, usize, &str, &str)) -> Result<bool, AllocError> {
    let text = nested(alloc, row.0, row.1, row.2)?;
    Ok(is_read(alloc, text.as_bytes(), "/work", row.3))
}

#[test]
fn refuses_what_is_too_much(rt: HostRuntime) -> Result<(), Fail> {
    for row in BOUNDS {
        let right = is_bounded(rt.alloc(), row)?;
        assert!(rt; right, "at {}", row.3);
    }
    let torn = is_read(rt.alloc(), b"<a>\xFF</a>", "/work", "NotUtf8");
    assert!(rt; torn);
    Ok(())
}

/// Lengths of a Work's key, and what is read.
const KEYS: &[(usize, &str)] = &[(256, "Work work"), (257, "Parameters Key")];

fn keyed(alloc: Global, length: usize) -> Result<String, AllocError> {
    let key = "k".repeat(alloc, length)?;
    format!(in alloc;
        "<w:Work><w:Key> {key} </w:Key><w:Value/><w:Kind>durable</w:Kind><w:Vote>aborted</w:Vote></w:Work>"
    )
}

fn is_key(alloc: Global, length: usize, words: &str) -> Result<bool, AllocError> {
    let body = keyed(alloc, length)?;
    let text = envelope(alloc, "w:Work", WORK_HEADERS, body.as_str())?;
    Ok(is_read(alloc, text.as_bytes(), "/work", words))
}

#[test]
fn bounds_a_key(rt: HostRuntime) -> Result<(), Fail> {
    for (length, words) in KEYS {
        let right = is_key(rt.alloc(), *length, words)?;
        assert!(rt; right, "at {length}");
    }
    Ok(())
}

fn word(text: &Option<Text>) -> &str {
    match text {
        Some(text) => text.as_str(),
        None => "-",
    }
}

fn address(epr: &Option<Epr>) -> &str {
    match epr {
        Some(epr) => epr.address.as_str(),
        None => "-",
    }
}

/// Whether these are To, MessageID and RelatesTo, and the addresses of From, ReplyTo and FaultTo.
fn has_headers(arrival: &Arrival, words: &str) -> bool {
    word(&arrival.to) == part(words, ' ', 0)
        && word(&arrival.id) == part(words, ' ', 1)
        && word(&arrival.relates) == part(words, ' ', 2)
        && address(&arrival.from) == part(words, ' ', 3)
        && address(&arrival.reply) == part(words, ' ', 4)
        && address(&arrival.fault) == part(words, ' ', 5)
}

/// Whether a WorkDone with these header blocks has these headers.
fn tells(alloc: Global, headers: &str, words: &str) -> Result<bool, AllocError> {
    let text = envelope(alloc, "w:WorkDone", headers, "<WorkDone/>")?;
    match decode(alloc, text.as_bytes(), "/") {
        Ok(arrival) => Ok(has_headers(&arrival, words)),
        Err(_) => Ok(false),
    }
}

#[test]
fn tells_headers(rt: HostRuntime) -> Result<(), Fail> {
    let headers =
        "<a:To>http://n1.example/i/1-2</a:To><a:MessageID> m </a:MessageID><a:RelatesTo>r</a:RelatesTo><a:From><a:Address>f</a:Address></a:From><a:ReplyTo><a:Address>p</a:Address></a:ReplyTo><a:FaultTo><a:Address>t</a:Address></a:FaultTo>";
    let right = tells(rt.alloc(), headers, "http://n1.example/i/1-2 m r f p t")?;
    assert!(rt; right);
    Ok(())
}
