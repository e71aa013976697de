//! The lines of an initiator that wait for messages, and how serving ends behind refusals and outcomes.

use node_at::role::Role;
use schedules::initiator_reader::read_initiator_lines;
use serving::serve::serve;
use serving::service::Service;
use serving::service_end::Ended;
use site_memory::machine::MemSite;
use site_model::memory::MemSink;
use std::alloc::Global;
use std::test::Fail;

/// The context of the first activity.
const CREATED: &[u8] =
    b"POST /i/1-1 HTTP/1.0\r\nContent-Length: 854\r\n\r\n<s:Envelope xmlns:s='http://schemas.xmlsoap.org/soap/envelope/' xmlns:a='http://www.w3.org/2005/08/addressing' xmlns:c='http://docs.oasis-open.org/ws-tx/wscoor/2006/06' xmlns:t='http://docs.oasis-open.org/ws-tx/wsat/2006/06'><s:Header><a:To>http://127.0.0.1:9001/i/1-1</a:To><a:Action>http://docs.oasis-open.org/ws-tx/wscoor/2006/06/CreateCoordinationContextResponse</a:Action><a:RelatesTo>urn:uuid:04957d07-6707-5cc8-8b9e-5611190e3b3e</a:RelatesTo></s:Header><s:Body><c:CreateCoordinationContextResponse><c:CoordinationContext><c:Identifier>http://n2.example/t/1-1</c:Identifier><c:CoordinationType>http://docs.oasis-open.org/ws-tx/wsat/2006/06</c:CoordinationType><c:RegistrationService><a:Address>http://n2.example/registration/1-1</a:Address></c:RegistrationService></c:CoordinationContext></c:CreateCoordinationContextResponse></s:Body></s:Envelope>";

/// Its registration for Completion.
const REGISTERED: &[u8] =
    b"POST /i/1-1 HTTP/1.0\r\nContent-Length: 630\r\n\r\n<s:Envelope xmlns:s='http://schemas.xmlsoap.org/soap/envelope/' xmlns:a='http://www.w3.org/2005/08/addressing' xmlns:c='http://docs.oasis-open.org/ws-tx/wscoor/2006/06' xmlns:t='http://docs.oasis-open.org/ws-tx/wsat/2006/06'><s:Header><a:To>http://127.0.0.1:9001/i/1-1</a:To><a:Action>http://docs.oasis-open.org/ws-tx/wscoor/2006/06/RegisterResponse</a:Action><a:RelatesTo>urn:uuid:b39a6436-b0b5-516d-b4a6-75567c75c04a</a:RelatesTo></s:Header><s:Body><c:RegisterResponse><c:CoordinatorProtocolService><a:Address>http://n2.example/completion/1-1</a:Address></c:CoordinatorProtocolService></c:RegisterResponse></s:Body></s:Envelope>";

/// Its outcome.
const COMMITTED: &[u8] =
    b"POST /i/1-1 HTTP/1.0\r\nContent-Length: 493\r\n\r\n<s:Envelope xmlns:s='http://schemas.xmlsoap.org/soap/envelope/' xmlns:a='http://www.w3.org/2005/08/addressing' xmlns:c='http://docs.oasis-open.org/ws-tx/wscoor/2006/06' xmlns:t='http://docs.oasis-open.org/ws-tx/wsat/2006/06'><s:Header><a:To>http://127.0.0.1:9001/i/1-1</a:To><a:Action>http://docs.oasis-open.org/ws-tx/wsat/2006/06/Committed</a:Action><a:ReplyTo><a:Address>http://www.w3.org/2005/08/addressing/none</a:Address></a:ReplyTo></s:Header><s:Body><t:Committed/></s:Body></s:Envelope>";

/// Another outcome.
const ABORTED: &[u8] =
    b"POST /i/1-1 HTTP/1.0\r\nContent-Length: 489\r\n\r\n<s:Envelope xmlns:s='http://schemas.xmlsoap.org/soap/envelope/' xmlns:a='http://www.w3.org/2005/08/addressing' xmlns:c='http://docs.oasis-open.org/ws-tx/wscoor/2006/06' xmlns:t='http://docs.oasis-open.org/ws-tx/wsat/2006/06'><s:Header><a:To>http://127.0.0.1:9001/i/1-1</a:To><a:Action>http://docs.oasis-open.org/ws-tx/wsat/2006/06/Aborted</a:Action><a:ReplyTo><a:Address>http://www.w3.org/2005/08/addressing/none</a:Address></a:ReplyTo></s:Header><s:Body><t:Aborted/></s:Body></s:Envelope>";

/// What a letter brings: a connection of nothing, of a GET, of a tick, or of a message for the first activity.
fn brought(letter: u8) -> &'static [u8] {
    match letter {
        b'g' => b"GET / HTTP/1.0\r\n\r\n",
        b't' => b"POST /tick HTTP/1.0\r\nContent-Length: 0\r\n\r\n",
        b'C' => CREATED,
        b'R' => REGISTERED,
        b'K' => COMMITTED,
        b'A' => ABORTED,
        _ => b"",
    }
}

/// A machine to which these connect.
fn visited(alloc: Global, letters: &str) -> Option<MemSite> {
    let mut site = MemSite::new(alloc);
    for letter in letters.as_bytes() {
        site.connect(brought(*letter)).ok()?;
    }
    Some(site)
}

/// What an initiator prints, and how it ended.
fn served(alloc: Global, input: &str, letters: &str) -> Option<(Ended, MemSink)> {
    if input.len() > 1000 {
        return None;
    }
    let mut site = visited(alloc, letters)?;
    let lines = read_initiator_lines(alloc, input.as_bytes()).ok()?;
    let service = Service {
        role: Role::Initiator,
        listen: "127.0.0.1:9001",
        base: None,
        journal: "j",
        limit: u32::MAX,
        lines: lines.as_slice(),
        turns: 0,
    };
    let mut sink = MemSink::new(alloc);
    let ended = serve(alloc, &service, &mut sink, &mut site);
    Some((ended, sink))
}

fn serves(alloc: Global, input: &str, letters: &str, ended: Ended, printed: &str) -> bool {
    match served(alloc, input, letters) {
        Some((end, sink)) => end == ended && sink.as_slice() == printed.as_bytes(),
        None => false,
    }
}

/// Lines, what connects, how it ends, and what is printed.
const ROWS: &[(&str, &str, Ended, &str)] = &[
    // what brings no message ends no `wait`
    (
        "begin http://n2.example 0\nwait\nwait\nwork 1 http://n3.example d prepared k v\n",
        "CR",
        Ended::Done,
        "up 1\n",
    ),
    (
        "begin http://n2.example 0\nwait\nwait\nwork 1 http://n3.example d prepared k v\n",
        "-gtC-gtR",
        Ended::Done,
        "up 1\n",
    ),
    // one that nobody ends
    (
        "begin http://n2.example 0\nwait\nwait\nrollback 1\n",
        "Ct",
        Ended::Done,
        "up 1\n",
    ),
    // a commit behind a refused work
    (
        "begin http://n2.example 0\nwait\nwork 1 http://n3.example d prepared k v\nwait\ncommit 1\nwait\n",
        "CRK",
        Ended::Unmet,
        "up 1\nrefused state\nrefused state\n",
    ),
    (
        "begin http://n2.example 0\nwait\nwork 1 http://n3.example d prepared k v\nwait\ncommit 1 anyway\nwait\n",
        "CRK",
        Ended::Unmet,
        "up 1\nrefused state\ntold 1-1 committed\n",
    ),
    (
        "begin http://n2.example 0\nwait\nwork 1 http://n3.example d prepared k v\nwait\nrollback 1\nwait\n",
        "CRA",
        Ended::Unmet,
        "up 1\nrefused state\ntold 1-1 aborted\n",
    ),
    // outcomes
    (
        "begin http://n2.example 0\nwait\nwait\ncommit 1\nwait\n",
        "CRK",
        Ended::Done,
        "up 1\ntold 1-1 committed\n",
    ),
    (
        "begin http://n2.example 0\nwait\nwait\ncommit 1\nwait\n",
        "CRtA",
        Ended::Unmet,
        "up 1\ntold 1-1 aborted\n",
    ),
];

#[test]
fn lines_wait_for_messages(rt: HostRuntime) -> Result<(), Fail> {
    for (input, letters, ended, printed) in ROWS {
        let right = serves(rt.alloc(), input, letters, *ended, printed);
        assert!(rt; right, "{letters}: {input}");
    }
    Ok(())
}
