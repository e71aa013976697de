//! Worked envelopes through the top call, and words that are no job.

use crate::reports::NO_NUMBERS;
use crate::top_call::prints;
use std::alloc::{AllocError, Global};
use std::test::Fail;

const ROLLBACK: &str = "send Rollback -> None\n\
<s:Envelope xmlns:s=\"http://schemas.xmlsoap.org/soap/envelope/\" \
xmlns:wsa=\"http://www.w3.org/2005/08/addressing\" \
xmlns:wsat=\"http://docs.oasis-open.org/ws-tx/wsat/2006/06\">\
<s:Header><wsa:To>http://n3.example/p/d/1-1</wsa:To>\
<wsa:Action>http://docs.oasis-open.org/ws-tx/wsat/2006/06/Rollback</wsa:Action>\
<wsa:From><wsa:Address>http://n2.example/c/d/1-1/1</wsa:Address></wsa:From>\
<wsa:ReplyTo><wsa:Address>http://www.w3.org/2005/08/addressing/none</wsa:Address></wsa:ReplyTo></s:Header>\
<s:Body><wsat:Rollback/></s:Body></s:Envelope>\n";

const UNKNOWN: &str = "fault UnknownTransaction -> None\n\
<s:Envelope xmlns:s=\"http://schemas.xmlsoap.org/soap/envelope/\" \
xmlns:wsa=\"http://www.w3.org/2005/08/addressing\" \
xmlns:wsat=\"http://docs.oasis-open.org/ws-tx/wsat/2006/06\">\
<s:Header><wsa:To>http://n3.example/p/v/1-1</wsa:To>\
<wsa:Action>http://docs.oasis-open.org/ws-tx/wsat/2006/06/fault</wsa:Action></s:Header>\
<s:Body><s:Fault><faultcode>wsat:UnknownTransaction</faultcode><faultstring>unknown transaction</faultstring>\
<detail><wsat:UnknownTransaction/></detail></s:Fault></s:Body></s:Envelope>\n";

const UNKNOWN_NAMED: &str = "fault UnknownTransaction -> None\n\
<s:Envelope xmlns:s=\"http://schemas.xmlsoap.org/soap/envelope/\" \
xmlns:wsa=\"http://www.w3.org/2005/08/addressing\" \
xmlns:wsat=\"http://docs.oasis-open.org/ws-tx/wsat/2006/06\">\
<s:Header><wsa:To>http://n3.example/p/v/1-1</wsa:To>\
<wsa:Action>http://docs.oasis-open.org/ws-tx/wsat/2006/06/fault</wsa:Action><wsa:RelatesTo>urn:a</wsa:RelatesTo></s:Header>\
<s:Body><s:Fault><faultcode>wsat:UnknownTransaction</faultcode><faultstring>unknown transaction</faultstring>\
<detail><wsat:UnknownTransaction/></detail></s:Fault></s:Body></s:Envelope>\n";

const UNKNOWN_UNNAMED: &str = "fault UnknownTransaction -> None\n\
<s:Envelope xmlns:s=\"http://schemas.xmlsoap.org/soap/envelope/\" \
xmlns:wsa=\"http://www.w3.org/2005/08/addressing\" \
xmlns:wsat=\"http://docs.oasis-open.org/ws-tx/wsat/2006/06\">\
<s:Header><wsa:To>http://n3.example/p/v/1-1</wsa:To>\
<wsa:Action>http://docs.oasis-open.org/ws-tx/wsat/2006/06/fault</wsa:Action><wsa:RelatesTo/></s:Header>\
<s:Body><s:Fault><faultcode>wsat:UnknownTransaction</faultcode><faultstring>unknown transaction</faultstring>\
<detail><wsat:UnknownTransaction/></detail></s:Fault></s:Body></s:Envelope>\n";

/// An envelope with these header blocks, in the namespace of addressing, and this body.
fn sealed(alloc: Global, headers: &str, body: &str) -> Result<String, AllocError> {
    format!(in alloc;
        "<e:Envelope xmlns:e=\"http://schemas.xmlsoap.org/soap/envelope/\" xmlns:c=\"http://docs.oasis-open.org/ws-tx/wscoor/2006/06\" \
xmlns:t=\"http://docs.oasis-open.org/ws-tx/wsat/2006/06\" xmlns:w=\"http://example.org/atx/work/1\" \
xmlns=\"http://www.w3.org/2005/08/addressing\"><e:Header>{headers}</e:Header><e:Body>{body}</e:Body></e:Envelope>"
    )
}

/// A notification to a path from an address, with more header blocks behind the From.
pub fn notice(
    alloc: Global,
    to: &str,
    from: &str,
    name: &str,
    more: &str,
) -> Result<String, AllocError> {
    let headers = format!(in alloc;
        "<To>http://n2.example{to}</To><Action>http://docs.oasis-open.org/ws-tx/wsat/2006/06/{name}</Action>\
<From><Address>{from}</Address></From>{more}"
    )?;
    let body = format!(in alloc; "<t:{name}/>")?;
    sealed(alloc, headers.as_str(), body.as_str())
}

const COMMITTED: &str = "send Committed -> Done\n\
<s:Envelope xmlns:s=\"http://schemas.xmlsoap.org/soap/envelope/\" \
xmlns:wsa=\"http://www.w3.org/2005/08/addressing\" \
xmlns:wsat=\"http://docs.oasis-open.org/ws-tx/wsat/2006/06\">\
<s:Header><wsa:To>http://n1.example/i/1-1</wsa:To>\
<wsa:Action>http://docs.oasis-open.org/ws-tx/wsat/2006/06/Committed</wsa:Action>\
<wsa:ReplyTo><wsa:Address>http://www.w3.org/2005/08/addressing/none</wsa:Address></wsa:ReplyTo></s:Header>\
<s:Body><wsat:Committed/></s:Body></s:Envelope>\n";

const INVALID_STATE: &str = "fault InvalidState -> Done\n\
<s:Envelope xmlns:s=\"http://schemas.xmlsoap.org/soap/envelope/\" \
xmlns:wsa=\"http://www.w3.org/2005/08/addressing\" \
xmlns:wscoor=\"http://docs.oasis-open.org/ws-tx/wscoor/2006/06\">\
<s:Header><wsa:To>http://n1.example/i/1-1</wsa:To>\
<wsa:Action>http://docs.oasis-open.org/ws-tx/wscoor/2006/06/fault</wsa:Action></s:Header>\
<s:Body><s:Fault><faultcode>wscoor:InvalidState</faultcode><faultstring>invalid state</faultstring>\
<detail><wscoor:InvalidState/></detail></s:Fault></s:Body></s:Envelope>\n";

/// Commands, notifications (the path that they go to, their sender, their name, more header blocks), the status, and what is
/// printed.
const NOTICES: &[(&str, [&str; 4], u8, &str)] = &[
    (
        "cell --state None",
        ["/c/d/1-1/1", "http://n3.example/p/d/1-1", "Prepared", ""],
        0,
        ROLLBACK,
    ),
    (
        "cell --state None",
        ["/c/v/1-1/1", "http://n3.example/p/v/1-1", "Prepared", ""],
        0,
        UNKNOWN,
    ),
    (
        "cell --state None",
        [
            "/c/v/1-1/1",
            "http://n3.example/p/v/1-1",
            "Prepared",
            "<MessageID> urn:a </MessageID>",
        ],
        0,
        UNKNOWN_NAMED,
    ),
    (
        "cell --state None",
        [
            "/c/v/1-1/1",
            "http://n3.example/p/v/1-1",
            "Prepared",
            "<MessageID> </MessageID>",
        ],
        0,
        UNKNOWN_UNNAMED,
    ),
    (
        "cell --state Preparing",
        ["/c/d/1-1/1", "http://n3.example/p/d/1-1", "Prepared", ""],
        0,
        "vote -> Prepared\n",
    ),
    (
        "cell --state Registering",
        ["/c/d/1-1/1", "http://n3.example/p/d/1-1", "Prepared", ""],
        3,
        "refused 15 NoState\n",
    ),
    // a transaction that committed says so again, and can't be rolled back
    (
        "cell --state Done",
        ["/completion/1-1", "http://n1.example/i/1-1", "Commit", ""],
        0,
        COMMITTED,
    ),
    (
        "cell --state Done",
        ["/completion/1-1", "http://n1.example/i/1-1", "Rollback", ""],
        0,
        INVALID_STATE,
    ),
    // each table
    (
        "cell --state Committing",
        ["/c/d/1-1/65535", "http://n3.example/", "Committed", ""],
        0,
        "leave -> None\n",
    ),
    (
        "cell --state Active",
        ["/p/v/1-1", "http://n3.example/", "Prepare", ""],
        0,
        "gather -> Preparing\n",
    ),
    (
        "cell --state PreparedSuccess",
        ["/p/d/1-1", "http://n3.example/", "Commit", ""],
        0,
        "commit -> Committing\n",
    ),
    (
        "cell --state Active",
        ["/completion/1-1", "http://n3.example/", "Commit", ""],
        0,
        "complete -> Completing\n",
    ),
    (
        "cell --state Completing",
        ["/i/1-1", "http://n3.example/", "Committed", ""],
        0,
        "told committed -> None\n",
    ),
    // senders to whom nothing can be posted
    (
        "cell --state None",
        ["/c/d/1-1/1", "https://n3.example/p/d/1-1", "Prepared", ""],
        0,
        "send Rollback -> None\n",
    ),
    (
        "cell --state None",
        ["/c/d/1-1/1", "n3.example", "Prepared", ""],
        0,
        "send Rollback -> None\n",
    ),
    (
        "cell --state None",
        [
            "/c/d/1-1/1",
            "http://www.w3.org/2005/08/addressing/anonymous",
            "Prepared",
            "",
        ],
        0,
        "send Rollback -> None\n",
    ),
    // refusals
    (
        "cell --state Completing",
        [
            "/c/d/1-1/1",
            "http://n3.example/",
            "Prepared",
            "<Action>a</Action>",
        ],
        3,
        "refused 10 InvalidHeader\n",
    ),
    (
        "cell --state Completing",
        ["/c/d/1-1/1", "http://n3.example/", "Prepared", "<ReplyTo/>"],
        3,
        "refused 10 InvalidHeader\n",
    ),
    (
        "cell --state Completing",
        ["/c/d/1-1/0", "http://n3.example/", "Prepared", ""],
        3,
        "refused 11 NoTarget\n",
    ),
    (
        "cell --state Completing",
        ["/c/d/1-1/1", "http://n3.example/", "Prepare", ""],
        3,
        "refused 12 Action\n",
    ),
    (
        "cell --state Completing",
        ["/c/d/1-1/1", "http://n3.example/", "Prepared", ""],
        3,
        "refused 15 NoState\n",
    ),
    // what each notification says
    (
        "check --path /work",
        ["/p/v/1-1", "http://n3.example/", "Prepare", ""],
        0,
        "message Prepare\ntarget participant volatile 1-1\nfrom http://n3.example/\n",
    ),
    (
        "check --path /work",
        [
            "/completion/4294967295-1",
            "http://n3.example/",
            "Commit",
            "",
        ],
        0,
        "message Commit\ntarget completion 4294967295-1\nfrom http://n3.example/\n",
    ),
    (
        "check --path /work",
        ["/p/d/1-1", "http://n3.example/", "Rollback", ""],
        0,
        "message Rollback\ntarget participant durable 1-1\nfrom http://n3.example/\n",
    ),
    (
        "check --path /work",
        ["/c/d/1-1/1", "http://n3.example/", "Prepared", ""],
        0,
        "message Prepared\ntarget coordinator durable 1-1 1\nfrom http://n3.example/\n",
    ),
    (
        "check --path /work",
        ["/c/v/1-1/65535", "http://n3.example/", "ReadOnly", ""],
        0,
        "message ReadOnly\ntarget coordinator volatile 1-1 65535\nfrom http://n3.example/\n",
    ),
    (
        "check --path /work",
        ["/i/1-1", "http://n3.example/", "Aborted", ""],
        0,
        "message Aborted\ntarget initiator 1-1\nfrom http://n3.example/\n",
    ),
    (
        "check --path /work",
        ["/c/d/1-1/1", "http://n3.example/", "Committed", ""],
        0,
        "message Committed\ntarget coordinator durable 1-1 1\nfrom http://n3.example/\n",
    ),
];

/// What a command makes of a notification.
fn notice_prints(
    rt: HostRuntime,
    line: &str,
    parts: [&str; 4],
    printed: &str,
) -> Result<(u8, bool), Fail> {
    let [to, from, name, more] = parts;
    let input = notice(rt.alloc(), to, from, name, more)?;
    prints(rt, line, input.as_bytes(), printed)
}

#[test]
fn worked_notifications(rt: HostRuntime) -> Result<(), Fail> {
    for (line, parts, status, printed) in NOTICES {
        let found = notice_prints(rt, line, *parts, printed)?;
        assert!(rt; found == (*status, true), "{line}: {}", parts[2]);
    }
    Ok(())
}

/// Words that are no job, and what clap says of them.
const FAULTY: &[(&str, &str)] = &[
    (
        "",
        "error: unrecognized subcommand ''\n\nUsage: atx <COMMAND>\n",
    ),
    (
        "help check cell",
        "error: unrecognized subcommand 'help'\n\nUsage: atx <COMMAND>\n",
    ),
    (
        "cell",
        "error: the following required arguments were not provided:\n  --state <STATE>\n\nUsage: atx cell --state <STATE>\n",
    ),
    (
        "cell --state",
        "error: a value is required for '--state <STATE>' but none was supplied\n",
    ),
    (
        "cell --path /",
        "error: unexpected argument '--path' found\n\nUsage: atx cell --state <STATE>\n",
    ),
    (
        "check /",
        "error: unexpected argument '/' found\n\nUsage: atx check [OPTIONS]\n",
    ),
    (
        "check --path / --path /",
        "error: the argument '--path <PATH>' cannot be used multiple times\n\nUsage: atx check [OPTIONS]\n",
    ),
    (
        "replay --settle --settle",
        "error: the argument '--settle' cannot be used multiple times\n\nUsage: atx replay [OPTIONS]\n",
    ),
    (
        "replay --bytes --bytes",
        "error: the argument '--bytes' cannot be used multiple times\n\nUsage: atx replay [OPTIONS]\n",
    ),
    (
        "make --steps 1",
        "error: the following required arguments were not provided:\n  --seed <SEED>\n\nUsage: atx make --seed <SEED> --steps <N>\n",
    ),
    (
        "tick",
        "error: the following required arguments were not provided:\n  --to <URL>\n\nUsage: atx tick --to <URL>\n",
    ),
    (
        "coordinator --listen a --turns 1",
        "error: the following required arguments were not provided:\n  --journal <F>\n\nUsage: atx coordinator --listen <ADDR> --journal <F> --turns <N>\n",
    ),
    (
        "check --version",
        "error: unexpected argument '--version' found\n\nUsage: atx check [OPTIONS]\n",
    ),
];

/// Where the answer to a fault ends.
const TRY: &str = "\nFor more information, try '--help'.\n";

const UNKNOWN_STATE: &str = "error: invalid value for '--state <STATE>'\n  \
[possible values: None, Registering, Active, Preparing, Prepared, PreparedSuccess, Committing, Aborting, Completing, Done]\n\n\
For more information, try '--help'.\n";

const HELP: &str =
    "Atomic transactions between web services (WS-AtomicTransaction 1.2)\n\nUsage: atx <COMMAND>\n\nCommands:\n  \
cell         Print the cell that an envelope meets in a state, and the envelope that it posts\n  \
check        Print what an envelope says, line by line\n  \
replay       Print what the lines of a schedule bring about, line by line\n  \
audit        Print whether the outcomes that nodes' journals record agree, whatever the transactions\n  \
journal      Print what a node's journal stands for, which is left as it is\n  \
make         Print how a schedule that is made of a seed comes out\n  \
tick         Ask a node to do what is due\n  \
coordinator  Serve as a coordinator\n  \
participant  Serve as a participant\n  \
initiator    Do the lines of the input as an initiator, and serve\n\nOptions:\n  \
-h, --help     Print help\n  -V, --version  Print version\n";

const CHECK_HELP: &str =
    "Print what an envelope says, line by line\n\nUsage: atx check [OPTIONS]\n\nOptions:\n      \
--path <PATH>  The path of the request that brought the envelope [default: /]\n  \
-h, --help         Print help\n";

/// What a command without an input prints, where this ends it.
fn ends(rt: HostRuntime, line: &str, said: &str, end: &str) -> Result<(u8, bool), Fail> {
    let text = format!(in rt.alloc(); "{said}{end}")?;
    prints(rt, line, b"", text.as_str())
}

#[test]
fn words_that_are_no_job(rt: HostRuntime) -> Result<(), Fail> {
    for (line, said) in FAULTY {
        let outcome = ends(rt, line, said, TRY)?;
        assert!(rt; outcome == (2, true));
    }
    let outcome = prints(rt, "cell --state none", b"", UNKNOWN_STATE)?;
    assert!(rt; outcome == (2, true));
    Ok(())
}

/// Questions, and the answers.
const QUESTIONS: &[(&str, &str)] = &[
    (
        "--version",
        "atx 0.1.0 (proved by rattle-kit-13f logic dac8208d650f15bf)\n",
    ),
    ("--help", HELP),
    ("-h cell", HELP),
    ("check --help", CHECK_HELP),
    ("help", HELP),
    ("help check", CHECK_HELP),
];

#[test]
fn questions(rt: HostRuntime) -> Result<(), Fail> {
    for (line, printed) in QUESTIONS {
        let outcome = prints(rt, line, b"", printed)?;
        assert!(rt; outcome == (0, true));
    }
    Ok(())
}

/// Commands, header blocks, bodies, the status, and what is printed.
const MESSAGES: &[(&str, &str, &str, u8, &str)] = &[
    // the sender is answered with its reference parameters
    (
        "cell --state None",
        "<Action>http://docs.oasis-open.org/ws-tx/wsat/2006/06/Commit</Action><To>http://n2.example/p/d/1-1</To><From><Address>http://n3.example/</Address>\
<ReferenceParameters><x:a xmlns:x=\"urn:x\">1</x:a></ReferenceParameters></From>",
        "<t:Commit/>",
        0,
        "send Committed -> None\n\
<s:Envelope xmlns:s=\"http://schemas.xmlsoap.org/soap/envelope/\" xmlns:wsa=\"http://www.w3.org/2005/08/addressing\" \
xmlns:n1=\"urn:x\" xmlns:wsat=\"http://docs.oasis-open.org/ws-tx/wsat/2006/06\"><s:Header>\
<wsa:To>http://n3.example/</wsa:To><wsa:Action>http://docs.oasis-open.org/ws-tx/wsat/2006/06/Committed</wsa:Action>\
<wsa:ReplyTo><wsa:Address>http://www.w3.org/2005/08/addressing/none</wsa:Address></wsa:ReplyTo>\
<n1:a wsa:IsReferenceParameter=\"true\">1</n1:a></s:Header><s:Body><wsat:Committed/></s:Body></s:Envelope>\n",
    ),
    (
        "cell --state None",
        "<Action>http://docs.oasis-open.org/ws-tx/wsat/2006/06/Prepare</Action><To>http://n2.example/p/d/1-1</To>",
        "<t:Commit/>",
        3,
        "refused 13 Parameters\n",
    ),
    // no cell comes before no state
    (
        "cell --state Completing",
        "<Action>http://docs.oasis-open.org/ws-tx/wsat/2006/06/fault</Action><To>http://n2.example/c/d/1-1/1</To>",
        "<e:Fault><faultcode xmlns=\"\">a</faultcode><faultstring xmlns=\"\">b</faultstring></e:Fault>",
        3,
        "refused 14 NoCell\n",
    ),
    // what each other message says
    (
        "check --path /activation",
        "<Action>http://docs.oasis-open.org/ws-tx/wscoor/2006/06/CreateCoordinationContext</Action>\
<MessageID>urn:a&amp;b</MessageID><ReplyTo><Address>http://n1.example/i/1-1</Address></ReplyTo>\
<FaultTo><Address>http://www.w3.org/2005/08/addressing/none</Address></FaultTo>",
        "<c:CreateCoordinationContext><c:CurrentContext><c:Identifier>urn:i</c:Identifier><c:Expires>+07</c:Expires>\
<c:CoordinationType>urn:type</c:CoordinationType>\
<c:RegistrationService><Address>http://n2.example/registration/1-1</Address></c:RegistrationService></c:CurrentContext>\
<c:Expires>60000</c:Expires><c:CoordinationType>urn:&quot;&#10;own</c:CoordinationType></c:CreateCoordinationContext>",
        0,
        "message CreateCoordinationContext\ntarget activation\nid urn:a&amp;b\nreply http://n1.example/i/1-1\n\
fault http://www.w3.org/2005/08/addressing/none\nexpires 60000\nidentifier urn:i\ntype urn:&quot;&#10;own\n\
registration http://n2.example/registration/1-1\n",
    ),
    (
        "check --path /i/1-1",
        "<Action>http://docs.oasis-open.org/ws-tx/wscoor/2006/06/CreateCoordinationContextResponse</Action><RelatesTo>urn:a</RelatesTo>",
        "<c:CreateCoordinationContextResponse><c:CoordinationContext><c:Identifier>urn:i</c:Identifier><c:Expires>+07</c:Expires>\
<c:CoordinationType>urn:type</c:CoordinationType>\
<c:RegistrationService><Address>http://n2.example/registration/1-1</Address></c:RegistrationService></c:CoordinationContext>\
</c:CreateCoordinationContextResponse>",
        0,
        "message CreateCoordinationContextResponse\ntarget initiator 1-1\nrelates urn:a\nexpires 7\n\
identifier urn:i\ntype urn:type\nregistration http://n2.example/registration/1-1\n",
    ),
    (
        "check --path /registration/1-1",
        "<Action>http://docs.oasis-open.org/ws-tx/wscoor/2006/06/Register</Action><MessageID>urn:a</MessageID>",
        "<c:Register><c:ProtocolIdentifier>urn:p</c:ProtocolIdentifier>\
<c:ParticipantProtocolService><Address>http://n3.example/p/d/1-1</Address></c:ParticipantProtocolService></c:Register>",
        0,
        "message Register\ntarget registration 1-1\nid urn:a\nprotocol urn:p\nservice http://n3.example/p/d/1-1\n",
    ),
    (
        "check --path /p/v/1-1",
        "<Action>http://docs.oasis-open.org/ws-tx/wscoor/2006/06/RegisterResponse</Action><RelatesTo>urn:a</RelatesTo>",
        "<c:RegisterResponse><c:CoordinatorProtocolService><Address>http://n2.example/c/d/1-1/1</Address>\
</c:CoordinatorProtocolService></c:RegisterResponse>",
        0,
        "message RegisterResponse\ntarget participant volatile 1-1\nrelates urn:a\nservice http://n2.example/c/d/1-1/1\n",
    ),
    (
        "check --path /work",
        "<Action>http://example.org/atx/work/1/Work</Action><MessageID>urn:a</MessageID>\
<c:CoordinationContext e:mustUnderstand=\"1\"><c:Identifier>urn:i</c:Identifier><c:Expires>+07</c:Expires>\
<c:CoordinationType>urn:type</c:CoordinationType>\
<c:RegistrationService><Address>http://n2.example/registration/1-1</Address></c:RegistrationService></c:CoordinationContext>",
        "<w:Work><w:Key>k</w:Key><w:Value>a&#9;b</w:Value><w:Kind>volatile</w:Kind><w:Vote>readonly</w:Vote></w:Work>",
        0,
        "message Work\ntarget work\nid urn:a\nexpires 7\n\
identifier urn:i\ntype urn:type\nregistration http://n2.example/registration/1-1\n\
key k\nvalue a&#9;b\nkind volatile\nvote readonly\n",
    ),
    (
        "check --path /i/1-1?q",
        "<Action>http://example.org/atx/work/1/WorkDone</Action><RelatesTo>urn:a</RelatesTo>",
        "<w:WorkDone/>",
        0,
        "message WorkDone\ntarget initiator 1-1\nrelates urn:a\n",
    ),
    (
        "check --path /i/1-1?q",
        "<Action>http://example.org/atx/work/1/WorkRefused</Action><RelatesTo>urn:a</RelatesTo>",
        "<w:WorkRefused/>",
        0,
        "message WorkRefused\ntarget initiator 1-1\nrelates urn:a\n",
    ),
];

/// What a command makes of a message.
fn message_prints(
    rt: HostRuntime,
    line: &str,
    headers: &str,
    body: &str,
    printed: &str,
) -> Result<(u8, bool), Fail> {
    let input = sealed(rt.alloc(), headers, body)?;
    prints(rt, line, input.as_bytes(), printed)
}

#[test]
fn worked_messages(rt: HostRuntime) -> Result<(), Fail> {
    for (line, headers, body, status, printed) in MESSAGES {
        let found = message_prints(rt, line, headers, body, printed)?;
        assert!(rt; found == (*status, true), "{line}: {body}");
    }
    Ok(())
}

const FAULT: &str = "<s:Envelope xmlns:s=\"http://schemas.xmlsoap.org/soap/envelope/\"><s:Header>\
<Action xmlns=\"http://www.w3.org/2005/08/addressing\">http://docs.oasis-open.org/ws-tx/wscoor/2006/06/fault</Action>\
</s:Header><s:Body><s:Fault><faultcode>x:InvalidState</faultcode><faultstring>a</faultstring></s:Fault></s:Body>\
</s:Envelope>";

const FAULT_WITHOUT_HEADER: &str =
    "<s:Envelope xmlns:s=\"http://schemas.xmlsoap.org/soap/envelope/\">\
<s:Body><s:Fault><faultcode>x:InvalidState</faultcode><faultstring>a</faultstring></s:Fault></s:Body></s:Envelope>";

/// Commands, inputs, the status, and what is printed.
const TEXTS: &[(&str, &str, u8, &str)] = &[
    // an envelope that is spelled otherwise
    (
        "check",
        "<e:Envelope xmlns:e='http://schemas.xmlsoap.org/soap/envelope/'>\
<e:Header xmlns:w='http://www.w3.org/2005/08/addressing'>\
<w:Action><![CDATA[http://docs.oasis-open.org/ws-tx/wsat/2006/06/Prepare]]></w:Action>\
<w:To>http://n2.example/p/d/1-1</w:To></e:Header><!-- x -->\
<e:Body><Prepare xmlns='http://docs.oasis-open.org/ws-tx/wsat/2006/06'/></e:Body></e:Envelope>",
        0,
        "message Prepare\ntarget participant durable 1-1\n",
    ),
    // a fault at a path
    (
        "check --path /i/1-1",
        FAULT,
        0,
        "message Fault\ntarget initiator 1-1\nname InvalidState\n",
    ),
    (
        "check --path /i/1-1",
        FAULT_WITHOUT_HEADER,
        3,
        "refused 9 MissingHeader\n",
    ),
    ("check", FAULT, 3, "refused 11 NoTarget\n"),
    ("cell --state None", FAULT, 3, "refused 11 NoTarget\n"),
    // refusals
    ("check", "", 3, "refused 3 NotSpelled\n"),
    ("check", "<a>", 3, "refused 3 NotSpelled\n"),
    ("check", "<!DOCTYPE a><a/>", 3, "refused 3 NotSpelled\n"),
    ("check", "<s:Envelope/>", 3, "refused 3 NotSpelled\n"),
    ("check", "<a/>", 3, "refused 7 NotEnvelope\n"),
    (
        "check",
        "<Envelope xmlns=\"http://www.w3.org/2003/05/soap-envelope\"/>",
        3,
        "refused 6 VersionMismatch\n",
    ),
    (
        "check",
        "<s:Envelope xmlns:s=\"http://schemas.xmlsoap.org/soap/envelope/\"><s:Body><x/></s:Body></s:Envelope>",
        3,
        "refused 9 MissingHeader\n",
    ),
    (
        "check",
        "<s:Envelope xmlns:s=\"http://schemas.xmlsoap.org/soap/envelope/\"><s:Header><x s:mustUnderstand=\"1\"/></s:Header><s:Body><x/></s:Body></s:Envelope>",
        3,
        "refused 8 MustUnderstand\n",
    ),
];

#[test]
fn worked_texts(rt: HostRuntime) -> Result<(), Fail> {
    for (line, input, status, printed) in TEXTS {
        let found = prints(rt, line, input.as_bytes(), printed)?;
        assert!(rt; found == (*status, true), "{line}: {input}");
    }
    let found = prints(rt, "check", b"\xff", "refused 2 NotUtf8\n")?;
    assert!(rt; found == (3, true));
    Ok(())
}

/// So many elements, one in another or one behind the other in one.
fn elements(alloc: Global, count: usize, nested: bool) -> Result<String, AllocError> {
    let mut text = String::from_str(alloc, "<a>")?;
    for _ in 1..count {
        text.push_str(if nested { "<a>" } else { "<a/>" })?;
    }
    for _ in 1..count {
        text.push_str(if nested { "</a>" } else { "" })?;
    }
    text.push_str("</a>")?;
    Ok(text)
}

/// How many elements, whether one stands in another, and what is printed.
const LIMITS: &[(usize, bool, &str)] = &[
    (32, true, "refused 7 NotEnvelope\n"),
    (33, true, "refused 4 TooDeep\n"),
    (4096, false, "refused 7 NotEnvelope\n"),
    (4097, false, "refused 5 TooMany\n"),
];

fn elements_print(
    rt: HostRuntime,
    count: usize,
    nested: bool,
    printed: &str,
) -> Result<(u8, bool), Fail> {
    let input = elements(rt.alloc(), count, nested)?;
    prints(rt, "check", input.as_bytes(), printed)
}

#[test]
fn refusals_at_limits(rt: HostRuntime) -> Result<(), Fail> {
    for (count, nested, printed) in LIMITS {
        let found = elements_print(rt, *count, *nested, printed)?;
        assert!(rt; found == (3, true), "{count}");
    }
    Ok(())
}
