//! What a node sends back, byte by byte.

use crate::peer::Peer;
use std::alloc::{AllocError, Global};
use std::test::Fail;

/// A durable participant of which nothing is known says that it is prepared, in two chunks, and waits for the interim line.
const PREPARED: &[u8] =
    b"POST /c/d/1-1/1 HTTP/1.1\r\nHost: n2.example\r\nExpect: 100-continue\r\nTransfer-Encoding: chunked\r\n\r\nbc\r\n<s:Envelope xmlns:s=\"http://schemas.xmlsoap.org/soap/envelope/\" xmlns:wsa=\"http://www.w3.org/2005/08/addressing\" xmlns:wsat=\"http://docs.oasis-open.org/ws-tx/wsat/2006/06\"><s:Header><wsa:T\r\n156\r\no>http://n2.example/c/d/1-1/1</wsa:To><wsa:Action>http://docs.oasis-open.org/ws-tx/wsat/2006/06/Prepared</wsa:Action><wsa:From><wsa:Address>http://n3.example/p/d/1-1</wsa:Address></wsa:From><wsa:ReplyTo><wsa:Address>http://www.w3.org/2005/08/addressing/none</wsa:Address></wsa:ReplyTo></s:Header><s:Body><wsat:Prepared/></s:Body></s:Envelope>\r\n0\r\n\r\n";

const CONTINUE: &[u8] = b"HTTP/1.1 100 Continue\r\n\r\n";

const ACCEPTED: &[u8] = b"HTTP/1.1 202 Accepted\r\nContent-Length: 0\r\nConnection: close\r\n\r\n";

/// It is told to roll back.
const ROLLBACK: &[u8] =
    b"POST /p/d/1-1 HTTP/1.1\r\nHost: n3.example\r\nContent-Type: text/xml; charset=utf-8\r\nSOAPAction: \"http://docs.oasis-open.org/ws-tx/wsat/2006/06/Rollback\"\r\nContent-Length: 530\r\nConnection: close\r\n\r\n<s:Envelope xmlns:s=\"http://schemas.xmlsoap.org/soap/envelope/\" xmlns:wsa=\"http://www.w3.org/2005/08/addressing\" xmlns:wsat=\"http://docs.oasis-open.org/ws-tx/wsat/2006/06\"><s:Header><wsa:To>http://n3.example/p/d/1-1</wsa:To><wsa:Action>http://docs.oasis-open.org/ws-tx/wsat/2006/06/Rollback</wsa:Action><wsa:From><wsa:Address>http://n2.example/c/d/1-1/1</wsa:Address></wsa:From><wsa:ReplyTo><wsa:Address>http://www.w3.org/2005/08/addressing/none</wsa:Address></wsa:ReplyTo></s:Header><s:Body><wsat:Rollback/></s:Body></s:Envelope>";

fn rolls_back(alloc: Global) -> Result<bool, AllocError> {
    let mut peer = Peer::new(alloc, "http://n2.example")?;
    let status = peer.take(alloc, PREPARED);
    let answered = peer.answers() == 2
        && peer.has_answered(1, CONTINUE)
        && peer.has_answered(2, ACCEPTED);
    let posted = peer.posts() == 1 && peer.has_posted(1, "n3.example", ROLLBACK);
    Ok(status == 202 && answered && posted)
}

#[test]
fn a_stranger_that_is_prepared_is_rolled_back(rt: HostRuntime) -> Result<(), Fail> {
    let right = rolls_back(rt.alloc())?;
    assert!(rt; right, "interim line, answer, post");
    Ok(())
}

/// A body that is no XML, one that is no envelope, and the fault that each draws; a method that isn't taken.
const REFUSED: &[(&[u8], u16, &[u8])] = &[
    (
        b"POST /work HTTP/1.1\r\nHost: n1.example\r\nContent-Length: 3\r\n\r\n<a>",
        500,
        b"HTTP/1.1 500 Internal Server Error\r\nContent-Type: text/xml; charset=utf-8\r\nContent-Length: 335\r\nConnection: close\r\n\r\n<s:Envelope xmlns:s=\"http://schemas.xmlsoap.org/soap/envelope/\" xmlns:wsa=\"http://www.w3.org/2005/08/addressing\"><s:Header><wsa:Action>http://www.w3.org/2005/08/addressing/soap/fault</wsa:Action></s:Header><s:Body><s:Fault><faultcode>s:Client</faultcode><faultstring>not a profile document</faultstring></s:Fault></s:Body></s:Envelope>",
    ),
    (
        b"POST /work HTTP/1.1\r\nHost: n1.example\r\nContent-Length: 4\r\n\r\n<a/>",
        500,
        b"HTTP/1.1 500 Internal Server Error\r\nContent-Type: text/xml; charset=utf-8\r\nContent-Length: 328\r\nConnection: close\r\n\r\n<s:Envelope xmlns:s=\"http://schemas.xmlsoap.org/soap/envelope/\" xmlns:wsa=\"http://www.w3.org/2005/08/addressing\"><s:Header><wsa:Action>http://www.w3.org/2005/08/addressing/soap/fault</wsa:Action></s:Header><s:Body><s:Fault><faultcode>s:Client</faultcode><faultstring>not an envelope</faultstring></s:Fault></s:Body></s:Envelope>",
    ),
    (
        b"GET / HTTP/1.1\r\nHost: n1.example\r\n\r\n",
        405,
        b"HTTP/1.1 405 Method Not Allowed\r\nAllow: POST\r\nContent-Length: 0\r\nConnection: close\r\n\r\n",
    ),
];

/// Whether these bytes draw this one answer, and no post.
fn is_refused(alloc: Global, bytes: &[u8], status: u16, answer: &[u8]) -> Result<bool, AllocError> {
    let mut peer = Peer::new(alloc, "http://n1.example")?;
    let given = peer.take(alloc, bytes);
    let answered = peer.answers() == 1 && peer.has_answered(1, answer);
    Ok(given == status && answered && peer.posts() == 0)
}

#[test]
fn a_refusal_says_why(rt: HostRuntime) -> Result<(), Fail> {
    for (bytes, status, answer) in REFUSED {
        let right = is_refused(rt.alloc(), bytes, *status, answer)?;
        assert!(rt; right, "{status}");
    }
    Ok(())
}
