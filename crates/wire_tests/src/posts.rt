use crate::shared::{epr, optional};
use at_base::epr::{Epr, Reply};
use at_base::message::{Context, Create, Message, Register, Work};
use at_base::notice::{Kind, Notice, Vote};
use at_base::outs::Post;
use at_base::text::Text;
use std::alloc::{AllocError, Global};
use std::test::Fail;
use wire_msgs::decode::{Arrival, decode};
use wire_msgs::refusal::Refusal;
use wire_posts::encode::{Encoded, Outgoing, encode, encode_post};

/// The endpoint of an address, with reference parameters, of which one has a mark.
fn with_params(alloc: Global, address: &str) -> Result<Epr, AllocError> {
    let address = Text::copied(alloc, address)?;
    let params = Text::copied(
        alloc,
        "<wsa:ReferenceParameters xmlns:wsa=\"http://www.w3.org/2005/08/addressing\"><k a=\"1\">7</k><l wsa:IsReferenceParameter=\"0\" b=\"2\"/></wsa:ReferenceParameters>",
    )?;
    Ok(Epr { address, params })
}

fn context(alloc: Global) -> Result<Context, AllocError> {
    let identifier = Text::copied(alloc, "urn:i")?;
    let coordination = Text::copied(alloc, "http://docs.oasis-open.org/ws-tx/wsat/2006/06")?;
    let registration = with_params(alloc, "http://n2.example/registration/1-1")?;
    Ok(Context {
        identifier,
        expires: Some(60_000),
        coordination,
        registration,
    })
}

fn create(alloc: Global) -> Result<Create, AllocError> {
    let coordination = Text::copied(alloc, "http://docs.oasis-open.org/ws-tx/wsat/2006/06")?;
    let current = context(alloc)?;
    Ok(Create {
        expires: None,
        current: Some(current),
        coordination,
    })
}

fn register(alloc: Global) -> Result<Register, AllocError> {
    let protocol = Text::copied(
        alloc,
        "http://docs.oasis-open.org/ws-tx/wsat/2006/06/Durable2PC",
    )?;
    let participant = epr(alloc, "http://n3.example/p/d/1-1")?;
    Ok(Register {
        protocol,
        participant,
    })
}

fn work(alloc: Global) -> Result<Work, AllocError> {
    let key = Text::copied(alloc, "k")?;
    let value = Text::copied(alloc, "")?;
    let context = context(alloc)?;
    Ok(Work {
        context,
        key,
        value,
        kind: Kind::Volatile,
        vote: Vote::ReadOnly,
    })
}

fn fault(alloc: Global, name: &str) -> Result<Message, AllocError> {
    let name = Text::copied(alloc, name)?;
    Ok(Message::Fault { name })
}

/// The message of a row.
fn message(alloc: Global, name: &str) -> Result<Message, AllocError> {
    match name {
        "Create" => Ok(Message::Create(create(alloc)?)),
        "CreateResponse" => Ok(Message::CreateResponse(context(alloc)?)),
        "Register" => Ok(Message::Register(register(alloc)?)),
        "RegisterResponse" => Ok(Message::RegisterResponse(with_params(
            alloc,
            "http://n2.example/c/d/1-1/1",
        )?)),
        "Work" => Ok(Message::Work(work(alloc)?)),
        "WorkDone" => Ok(Message::WorkDone),
        "WorkRefused" => Ok(Message::WorkRefused),
        _ => notice_or_fault(alloc, name),
    }
}

fn notice_or_fault(alloc: Global, name: &str) -> Result<Message, AllocError> {
    let notice = match name {
        "Prepare" => Notice::Prepare,
        "Commit" => Notice::Commit,
        "Rollback" => Notice::Rollback,
        "Prepared" => Notice::Prepared,
        "ReadOnly" => Notice::ReadOnly,
        "Aborted" => Notice::Aborted,
        "Committed" => Notice::Committed,
        _ => return fault(alloc, name),
    };
    Ok(Message::Notice(notice))
}

fn text(alloc: Global, text: &str) -> Result<Option<Text>, AllocError> {
    if text.is_empty() {
        return Ok(None);
    }
    Ok(Some(Text::copied(alloc, text)?))
}

fn reply(alloc: Global, name: &str) -> Result<Option<Reply>, AllocError> {
    match name {
        "" => Ok(None),
        "none" => Ok(Some(Reply::Nobody)),
        "anonymous" => Ok(Some(Reply::Anonymous)),
        address => Ok(Some(Reply::At(epr(alloc, address)?))),
    }
}

/// The endpoint of an address, with reference parameters where a `+` stands behind it; none where it is empty.
fn end(alloc: Global, address: &str) -> Result<Option<Epr>, AllocError> {
    match address.strip_suffix("+") {
        Some(address) => Ok(Some(with_params(alloc, address)?)),
        None => optional(alloc, address),
    }
}

/// Where a post goes, where it comes from, and where its answer goes.
struct Ends {
    to: Option<Epr>,
    from: Option<Epr>,
    reply: Option<Reply>,
}

impl Drop for Ends {
    fn drop(self) {
        let Ends {
            to: _to,
            from: _from,
            reply: _reply,
        } = self;
    }
}

fn ends_of(alloc: Global, to: &str, from: &str, reply_to: &str) -> Result<Ends, AllocError> {
    let to = end(alloc, to)?;
    let from = end(alloc, from)?;
    let reply = reply(alloc, reply_to)?;
    Ok(Ends { to, from, reply })
}

impl Ends {
    fn post(self, message: Message, id: Option<Text>, relates: Option<Text>) -> Post {
        let Ends { to, from, reply } = self;
        Post {
            own: None,
            to,
            id,
            relates,
            from,
            reply,
            message,
        }
    }
}

/// The post of a row: the message, To, MessageID, RelatesTo, From and ReplyTo, an empty one absent.
fn post(alloc: Global, row: &[&str; 6]) -> Result<Post, AllocError> {
    let message = message(alloc, row[0])?;
    let ends = ends_of(alloc, row[1], row[4], row[5])?;
    let id = text(alloc, row[2])?;
    let relates = text(alloc, row[3])?;
    Ok(ends.post(message, id, relates))
}

fn same_reply(arrived: &Option<Epr>, sent: &Option<Reply>) -> bool {
    match (arrived, sent) {
        (None, None) => true,
        (Some(epr), Some(Reply::Nobody)) => {
            epr.address.as_str() == "http://www.w3.org/2005/08/addressing/none"
        }
        (Some(epr), Some(Reply::Anonymous)) => {
            epr.address.as_str() == "http://www.w3.org/2005/08/addressing/anonymous"
        }
        (Some(epr), Some(Reply::At(own))) => epr == own,
        _ => false,
    }
}

fn is_of(arrival: &Arrival, post: &Post) -> bool {
    arrival.message == post.message
        && arrival.id == post.id
        && arrival.relates == post.relates
        && arrival.from == post.from
        && same_reply(&arrival.reply, &post.reply)
}

/// Whether a post, written and read at the path of a participant, is what it was.
fn returns(alloc: Global, row: &[&str; 6]) -> Result<bool, AllocError> {
    let post = post(alloc, row)?;
    let bytes = encode_post(alloc, &post)?;
    match decode(alloc, bytes.as_slice(), "/p/d/1-1") {
        Ok(arrival) => Ok(is_of(&arrival, &post)),
        Err(_) => Ok(false),
    }
}

const INITIATOR: &str = "http://n1.example/i/1-1";

const PARTICIPANT: &str = "http://n3.example/p/d/1-1";

const SEAT: &str = "http://n2.example/c/d/1-1/1";

/// Each message as a row of [`post`].
const POSTS: &[[&str; 6]] = &[
    [
        "Create",
        "http://n2.example/activation",
        "urn:1",
        "",
        "",
        INITIATOR,
    ],
    ["CreateResponse", INITIATOR, "", "urn:1", "", ""],
    [
        "Register",
        "http://n2.example/registration/1-1",
        "urn:2",
        "",
        "",
        PARTICIPANT,
    ],
    ["RegisterResponse", PARTICIPANT, "", "urn:2", "", ""],
    [
        "Prepare",
        PARTICIPANT,
        "",
        "",
        "http://n2.example/c/d/1-1/1+",
        "none",
    ],
    ["Commit", PARTICIPANT, "", "", SEAT, "none"],
    ["Rollback", PARTICIPANT, "", "", SEAT, "none"],
    ["Prepared", SEAT, "", "", PARTICIPANT, "none"],
    ["ReadOnly", SEAT, "", "", "", "none"],
    ["Aborted", SEAT, "", "", "", "none"],
    ["Committed", SEAT, "", "", "", "none"],
    [
        "Work",
        "http://n3.example/work+",
        "urn:3",
        "",
        "",
        INITIATOR,
    ],
    ["RegisterResponse", "", "", "urn:2", "", ""],
    ["WorkDone", INITIATOR, "", "urn:3", "", ""],
    ["WorkRefused", INITIATOR, "", "urn:3", "", ""],
    ["InvalidState", SEAT, "", "", "", ""],
    ["InvalidProtocol", PARTICIPANT, "", "urn:2", "", ""],
    ["InvalidParameters", PARTICIPANT, "", "urn:2", "", ""],
    ["CannotCreateContext", INITIATOR, "", "urn:1", "", ""],
    [
        "CannotRegisterParticipant",
        PARTICIPANT,
        "",
        "urn:2",
        "",
        "",
    ],
    ["UnknownTransaction", PARTICIPANT, "", "", "", ""],
];

#[test]
fn each_message_returns(rt: HostRuntime) -> Result<(), Fail> {
    for row in POSTS {
        let same = returns(rt.alloc(), row)?;
        assert!(rt; same, "at {}", row[0]);
    }
    Ok(())
}

/// The text of a notification, of 528 bytes.
const PREPARE: &str =
    "<s:Envelope xmlns:s=\"http://schemas.xmlsoap.org/soap/envelope/\" xmlns:wsa=\"http://www.w3.org/2005/08/addressing\" xmlns:wsat=\"http://docs.oasis-open.org/ws-tx/wsat/2006/06\"><s:Header><wsa:To>http://n3.example/p/d/1-1</wsa:To><wsa:Action>http://docs.oasis-open.org/ws-tx/wsat/2006/06/Prepare</wsa:Action><wsa:From><wsa:Address>http://n2.example/c/d/1-1/1</wsa:Address></wsa:From><wsa:ReplyTo><wsa:Address>http://www.w3.org/2005/08/addressing/none</wsa:Address></wsa:ReplyTo></s:Header><s:Body><wsat:Prepare/></s:Body></s:Envelope>";

/// Posts, and their texts.
const WRITTEN: &[([&str; 6], &str)] = &[
    (["Prepare", PARTICIPANT, "", "", SEAT, "none"], PREPARE),
    (
        [
            "Create",
            "http://n2.example/activation",
            "urn:1",
            "",
            "",
            INITIATOR,
        ],
        "<s:Envelope xmlns:s=\"http://schemas.xmlsoap.org/soap/envelope/\" xmlns:wsa=\"http://www.w3.org/2005/08/addressing\" xmlns:wscoor=\"http://docs.oasis-open.org/ws-tx/wscoor/2006/06\"><s:Header><wsa:To>http://n2.example/activation</wsa:To><wsa:Action>http://docs.oasis-open.org/ws-tx/wscoor/2006/06/CreateCoordinationContext</wsa:Action><wsa:MessageID>urn:1</wsa:MessageID><wsa:ReplyTo><wsa:Address>http://n1.example/i/1-1</wsa:Address></wsa:ReplyTo></s:Header><s:Body><wscoor:CreateCoordinationContext><wscoor:CurrentContext><wscoor:Identifier>urn:i</wscoor:Identifier><wscoor:Expires>60000</wscoor:Expires><wscoor:CoordinationType>http://docs.oasis-open.org/ws-tx/wsat/2006/06</wscoor:CoordinationType><wscoor:RegistrationService><wsa:Address>http://n2.example/registration/1-1</wsa:Address><wsa:ReferenceParameters><k a=\"1\">7</k><l wsa:IsReferenceParameter=\"0\" b=\"2\"/></wsa:ReferenceParameters></wscoor:RegistrationService></wscoor:CurrentContext><wscoor:CoordinationType>http://docs.oasis-open.org/ws-tx/wsat/2006/06</wscoor:CoordinationType></wscoor:CreateCoordinationContext></s:Body></s:Envelope>",
    ),
    (
        ["CreateResponse", INITIATOR, "", "urn:1", "", ""],
        "<s:Envelope xmlns:s=\"http://schemas.xmlsoap.org/soap/envelope/\" xmlns:wsa=\"http://www.w3.org/2005/08/addressing\" xmlns:wscoor=\"http://docs.oasis-open.org/ws-tx/wscoor/2006/06\"><s:Header><wsa:To>http://n1.example/i/1-1</wsa:To><wsa:Action>http://docs.oasis-open.org/ws-tx/wscoor/2006/06/CreateCoordinationContextResponse</wsa:Action><wsa:RelatesTo>urn:1</wsa:RelatesTo></s:Header><s:Body><wscoor:CreateCoordinationContextResponse><wscoor:CoordinationContext><wscoor:Identifier>urn:i</wscoor:Identifier><wscoor:Expires>60000</wscoor:Expires><wscoor:CoordinationType>http://docs.oasis-open.org/ws-tx/wsat/2006/06</wscoor:CoordinationType><wscoor:RegistrationService><wsa:Address>http://n2.example/registration/1-1</wsa:Address><wsa:ReferenceParameters><k a=\"1\">7</k><l wsa:IsReferenceParameter=\"0\" b=\"2\"/></wsa:ReferenceParameters></wscoor:RegistrationService></wscoor:CoordinationContext></wscoor:CreateCoordinationContextResponse></s:Body></s:Envelope>",
    ),
    (
        [
            "Register",
            "http://n2.example/registration/1-1",
            "urn:2",
            "",
            "",
            PARTICIPANT,
        ],
        "<s:Envelope xmlns:s=\"http://schemas.xmlsoap.org/soap/envelope/\" xmlns:wsa=\"http://www.w3.org/2005/08/addressing\" xmlns:wscoor=\"http://docs.oasis-open.org/ws-tx/wscoor/2006/06\"><s:Header><wsa:To>http://n2.example/registration/1-1</wsa:To><wsa:Action>http://docs.oasis-open.org/ws-tx/wscoor/2006/06/Register</wsa:Action><wsa:MessageID>urn:2</wsa:MessageID><wsa:ReplyTo><wsa:Address>http://n3.example/p/d/1-1</wsa:Address></wsa:ReplyTo></s:Header><s:Body><wscoor:Register><wscoor:ProtocolIdentifier>http://docs.oasis-open.org/ws-tx/wsat/2006/06/Durable2PC</wscoor:ProtocolIdentifier><wscoor:ParticipantProtocolService><wsa:Address>http://n3.example/p/d/1-1</wsa:Address></wscoor:ParticipantProtocolService></wscoor:Register></s:Body></s:Envelope>",
    ),
    (
        ["RegisterResponse", "", "", "urn:2", "", ""],
        "<s:Envelope xmlns:s=\"http://schemas.xmlsoap.org/soap/envelope/\" xmlns:wsa=\"http://www.w3.org/2005/08/addressing\" xmlns:wscoor=\"http://docs.oasis-open.org/ws-tx/wscoor/2006/06\"><s:Header><wsa:Action>http://docs.oasis-open.org/ws-tx/wscoor/2006/06/RegisterResponse</wsa:Action><wsa:RelatesTo>urn:2</wsa:RelatesTo></s:Header><s:Body><wscoor:RegisterResponse><wscoor:CoordinatorProtocolService><wsa:Address>http://n2.example/c/d/1-1/1</wsa:Address><wsa:ReferenceParameters><k a=\"1\">7</k><l wsa:IsReferenceParameter=\"0\" b=\"2\"/></wsa:ReferenceParameters></wscoor:CoordinatorProtocolService></wscoor:RegisterResponse></s:Body></s:Envelope>",
    ),
    (
        [
            "Work",
            "http://n3.example/work+",
            "urn:3",
            "",
            "",
            INITIATOR,
        ],
        "<s:Envelope xmlns:s=\"http://schemas.xmlsoap.org/soap/envelope/\" xmlns:wsa=\"http://www.w3.org/2005/08/addressing\" xmlns:wscoor=\"http://docs.oasis-open.org/ws-tx/wscoor/2006/06\" xmlns:work=\"http://example.org/atx/work/1\"><s:Header><wsa:To>http://n3.example/work</wsa:To><wsa:Action>http://example.org/atx/work/1/Work</wsa:Action><wsa:MessageID>urn:3</wsa:MessageID><wsa:ReplyTo><wsa:Address>http://n1.example/i/1-1</wsa:Address></wsa:ReplyTo><k wsa:IsReferenceParameter=\"true\" a=\"1\">7</k><l wsa:IsReferenceParameter=\"true\" b=\"2\"/><wscoor:CoordinationContext s:mustUnderstand=\"1\"><wscoor:Identifier>urn:i</wscoor:Identifier><wscoor:Expires>60000</wscoor:Expires><wscoor:CoordinationType>http://docs.oasis-open.org/ws-tx/wsat/2006/06</wscoor:CoordinationType><wscoor:RegistrationService><wsa:Address>http://n2.example/registration/1-1</wsa:Address><wsa:ReferenceParameters><k a=\"1\">7</k><l wsa:IsReferenceParameter=\"0\" b=\"2\"/></wsa:ReferenceParameters></wscoor:RegistrationService></wscoor:CoordinationContext></s:Header><s:Body><work:Work><work:Key>k</work:Key><work:Value/><work:Kind>volatile</work:Kind><work:Vote>readonly</work:Vote></work:Work></s:Body></s:Envelope>",
    ),
    (
        ["UnknownTransaction", "", "", "urn:2", "", ""],
        "<s:Envelope xmlns:s=\"http://schemas.xmlsoap.org/soap/envelope/\" xmlns:wsa=\"http://www.w3.org/2005/08/addressing\" xmlns:wsat=\"http://docs.oasis-open.org/ws-tx/wsat/2006/06\"><s:Header><wsa:Action>http://docs.oasis-open.org/ws-tx/wsat/2006/06/fault</wsa:Action><wsa:RelatesTo>urn:2</wsa:RelatesTo></s:Header><s:Body><s:Fault><faultcode>wsat:UnknownTransaction</faultcode><faultstring>unknown transaction</faultstring><detail><wsat:UnknownTransaction/></detail></s:Fault></s:Body></s:Envelope>",
    ),
];

fn is_written(alloc: Global, row: &[&str; 6], expected: &str) -> Result<bool, AllocError> {
    let post = post(alloc, row)?;
    let bytes = encode_post(alloc, &post)?;
    Ok(bytes.as_slice() == expected.as_bytes())
}

#[test]
fn a_request_and_a_fault_are_written(rt: HostRuntime) -> Result<(), Fail> {
    assert!(rt; PREPARE.len() == 528);
    for (row, expected) in WRITTEN {
        let same = is_written(rt.alloc(), row, expected)?;
        assert!(rt; same, "at {}", row[0]);
    }
    Ok(())
}

fn is_body(body: &Option<Vec<u8>>, text: &str) -> bool {
    match body {
        Some(bytes) => bytes.as_slice() == text.as_bytes(),
        None => text.is_empty(),
    }
}

/// Whether the answer to a refusal has this status, and this body, none where that is empty.
fn is_answered(
    alloc: Global,
    refusal: Refusal,
    status: u16,
    body: &str,
) -> Result<bool, AllocError> {
    match encode(alloc, &Outgoing::Refusal(refusal))? {
        Encoded::Answer(answer) => Ok(answer.status == status && is_body(&answer.body, body)),
        Encoded::Request(_) => Ok(false),
    }
}

#[test]
fn a_refusal_is_written(rt: HostRuntime) -> Result<(), Fail> {
    let expected =
        "<s:Envelope xmlns:s=\"http://schemas.xmlsoap.org/soap/envelope/\" xmlns:wsa=\"http://www.w3.org/2005/08/addressing\"><s:Header><wsa:Action>http://www.w3.org/2005/08/addressing/fault</wsa:Action></s:Header><s:Body><s:Fault><faultcode>wsa:ActionNotSupported</faultcode><faultstring>action not supported</faultstring></s:Fault></s:Body></s:Envelope>";
    let written = is_answered(rt.alloc(), Refusal::Action, 500, expected)?;
    assert!(rt; written);
    Ok(())
}

#[test]
fn a_refusal_without_a_body(rt: HostRuntime) -> Result<(), Fail> {
    let too_long = is_answered(rt.alloc(), Refusal::TooLong, 413, "")?;
    let no_target = is_answered(rt.alloc(), Refusal::NoTarget, 404, "")?;
    let no_memory = is_answered(rt.alloc(), Refusal::NoMemory, 503, "")?;
    assert!(rt; too_long && no_target && no_memory);
    Ok(())
}
