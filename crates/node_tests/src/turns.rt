//! What a turn answers: each answer once, and requests that are refused beside their neighbours that aren't.

use crate::nodes::{number, up};
use node_at::role::Role;
use site_memory::machine::MemSite;
use std::alloc::Global;
use std::test::Fail;

/// What the turn of a connection with these bytes answers, and how many answers and posts it sent.
fn turn(alloc: Global, role: Role, bytes: &[u8]) -> Option<(u16, usize, usize)> {
    let mut site = MemSite::new(alloc);
    let mut node = up(alloc, &mut site, "http://n1.example", role)?;
    site.connect(bytes).ok()?;
    let turned = node.turn(alloc, &mut site);
    Some((number(turned), site.answers().len(), site.posts().len()))
}

/// The bytes of a connection, the role, what the turn answers, how many answers were sent, and how many posts.
const ROWS: &[(&[u8], Role, u16, usize, usize)] = &[
    (
        b"POST /tick HTTP/1.1\r\nHost: a\r\nContent-Length: 0\r\n\r\n",
        Role::Coordinator,
        1,
        1,
        0,
    ),
    (
        b"POST /tick?a HTTP/1.0\r\nContent-Length: 3\r\n\r\n<a>",
        Role::Participant,
        1,
        1,
        0,
    ),
    (
        b"POST /ticks HTTP/1.0\r\nContent-Length: 3\r\n\r\n<a>",
        Role::All,
        500,
        1,
        0,
    ),
    (b"", Role::All, 400, 1, 0),
    (
        b"GET /tick HTTP/1.1\r\nHost: a\r\n\r\n",
        Role::All,
        405,
        1,
        0,
    ),
    (
        b"POST /tick HTTP/1.1\r\nHost: a\r\n\r\n",
        Role::All,
        411,
        1,
        0,
    ),
    (
        b"POST /tick HTTP/1.1\r\nHost: a\r\nContent-Length: 65537\r\n\r\n",
        Role::All,
        413,
        1,
        0,
    ),
    (
        b"POST /tick HTTP/1.1\r\nHost: a\r\nContent-Encoding: gzip\r\n\r\n",
        Role::All,
        415,
        1,
        0,
    ),
    (
        b"POST /work HTTP/1.1\r\nHost: n1.example\r\nContent-Length: 3\r\n\r\n<a>",
        Role::All,
        500,
        1,
        0,
    ),
    // the interim line is sent once more
    (
        b"POST /work HTTP/1.1\r\nHost: a\r\nExpect: 100-continue\r\nContent-Length: 3\r\n\r\n<a>",
        Role::All,
        500,
        2,
        0,
    ),
    (
        b"POST /c/d/1-1/1 HTTP/1.0\r\nContent-Length: 361\r\n\r\n<s:Envelope xmlns:s='http://schemas.xmlsoap.org/soap/envelope/' xmlns:a='http://www.w3.org/2005/08/addressing'><s:Header><a:Action>http://docs.oasis-open.org/ws-tx/wsat/2006/06/Prepared</a:Action><a:From><a:Address>http://n3.example/p</a:Address></a:From></s:Header><s:Body><Prepared xmlns='http://docs.oasis-open.org/ws-tx/wsat/2006/06'/></s:Body></s:Envelope>",
        Role::All,
        202,
        1,
        1,
    ),
    // where the role lacks the path, and where no item has it
    (
        b"POST /c/d/1-1/1 HTTP/1.0\r\nContent-Length: 361\r\n\r\n<s:Envelope xmlns:s='http://schemas.xmlsoap.org/soap/envelope/' xmlns:a='http://www.w3.org/2005/08/addressing'><s:Header><a:Action>http://docs.oasis-open.org/ws-tx/wsat/2006/06/Prepared</a:Action><a:From><a:Address>http://n3.example/p</a:Address></a:From></s:Header><s:Body><Prepared xmlns='http://docs.oasis-open.org/ws-tx/wsat/2006/06'/></s:Body></s:Envelope>",
        Role::Participant,
        404,
        1,
        0,
    ),
    (
        b"POST /c/d/1-1/0 HTTP/1.0\r\nContent-Length: 361\r\n\r\n<s:Envelope xmlns:s='http://schemas.xmlsoap.org/soap/envelope/' xmlns:a='http://www.w3.org/2005/08/addressing'><s:Header><a:Action>http://docs.oasis-open.org/ws-tx/wsat/2006/06/Prepared</a:Action><a:From><a:Address>http://n3.example/p</a:Address></a:From></s:Header><s:Body><Prepared xmlns='http://docs.oasis-open.org/ws-tx/wsat/2006/06'/></s:Body></s:Envelope>",
        Role::All,
        404,
        1,
        0,
    ),
];

#[test]
fn each_turn_has_its_answer(rt: HostRuntime) -> Result<(), Fail> {
    for (bytes, role, answer, answers, posts) in ROWS {
        let given = turn(rt.alloc(), *role, bytes);
        let same = given == Some((*answer, *answers, *posts));
        assert!(rt; same, "{answer}: {given:?}");
    }
    Ok(())
}

/// What a turn answers whose k-th call of the listener and the connection fails, on a connection or on none.
fn failing(alloc: Global, k: u32, connected: bool) -> Option<(u16, usize)> {
    let mut site = MemSite::new(alloc);
    let mut node = up(alloc, &mut site, "http://n1.example", Role::All)?;
    if connected {
        site.connect(b"POST /tick HTTP/1.0\r\nContent-Length: 0\r\n\r\n")
            .ok()?;
    }
    site.fail_link(k);
    let turned = node.turn(alloc, &mut site);
    Some((number(turned), site.answers().len()))
}

#[test]
fn a_failure_is_of_the_link(rt: HostRuntime) -> Result<(), Fail> {
    let none = failing(rt.alloc(), 0, false) == Some((2, 0));
    assert!(rt; none);
    let down = failing(rt.alloc(), 1, true) == Some((5, 0));
    assert!(rt; down);
    let lost = failing(rt.alloc(), 2, true) == Some((0, 0));
    assert!(rt; lost);
    let well = failing(rt.alloc(), 9, true) == Some((1, 1));
    assert!(rt; well);
    Ok(())
}
