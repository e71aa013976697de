//! What the bytes of a connection ask: each refusal and its neighbour, both sides of each limit, chunks and trailers.

use http_post::refusal::HttpRefusal;
use http_post::request::take_request;
use site_memory::machine::MemSite;
use site_model::site::Site;
use std::alloc::{AllocError, Global};
use std::test::Fail;

/// Bytes of connections, and what they ask: a path and a body, or the status of a refusal.
const ROWS: &[(&str, &str)] = &[
    (
        "POST /work HTTP/1.1\r\nHost: a\r\nContent-Length: 2\r\n\r\nhello",
        "/work he",
    ),
    (
        "POST /work?a=b HTTP/1.0\r\nContent-Length: 0\r\n\r\n",
        "/work ",
    ),
    (
        "POST http://a.example/x/../y?z HTTP/1.1\r\nhOsT: a\r\ncontent-length: 000\r\n\r\n",
        "/y ",
    ),
    ("\r\n\r\nPOST * HTTP/1.0\nContent-Length: 1\n\nx", "* x"),
    // as posts are written
    (
        "POST /p/d/1-1?a HTTP/1.1\r\nHost: n3.example:8080\r\nContent-Type: text/xml; charset=utf-8\r\nSOAPAction: \"http://docs.oasis-open.org/ws-tx/wsat/2006/06/Prepare\"\r\nContent-Length: 4\r\nConnection: close\r\n\r\n<a/>",
        "/p/d/1-1 <a/>",
    ),
    (
        "POST /tick HTTP/1.1\r\nHost: n3.example\r\nContent-Length: 0\r\nConnection: close\r\n\r\n",
        "/tick ",
    ),
    // 400 by the head
    ("", "400"),
    (
        "POST /work HTTP/1.1\r\nHost: a\r\nContent-Length: 2\r\n",
        "400",
    ),
    ("POST /work HTTP/2.0\r\n\r\n", "400"),
    ("POST /wo rk HTTP/1.1\r\nHost: a\r\n\r\n", "400"),
    ("GET / HTTP/1.1\r\n\r\n", "400"),
    (
        "POST / HTTP/1.1\r\nHost: a\r\nHost: a\r\nContent-Length: 0\r\n\r\n",
        "400",
    ),
    // 405 behind Host, 415 behind 405, 400 and 411 behind 415
    ("GET / HTTP/1.1\r\nHost: a\r\n\r\n", "405"),
    ("post / HTTP/1.0\r\nContent-Length: 0\r\n\r\n", "405"),
    ("GET / HTTP/1.0\r\nContent-Encoding: gzip\r\n\r\n", "405"),
    ("POST / HTTP/1.0\r\nContent-Encoding: gzip\r\n\r\n", "415"),
    (
        "POST / HTTP/1.0\r\nContent-Encoding: identity, identity\r\nContent-Length: 0\r\n\r\n",
        "415",
    ),
    (
        "POST / HTTP/1.0\r\nContent-Encoding: IDENTITY\r\nContent-Length: 0\r\n\r\n",
        "/ ",
    ),
    ("POST / HTTP/1.0\r\nTransfer-Encoding: gzip\r\n\r\n", "400"),
    (
        "POST / HTTP/1.0\r\nTransfer-Encoding: chunked\r\nContent-Length: 0\r\n\r\n",
        "400",
    ),
    (
        "POST / HTTP/1.0\r\nContent-Length: 1\r\nContent-Length: 2\r\n\r\nab",
        "400",
    ),
    (
        "POST / HTTP/1.0\r\nContent-Length: 1\r\nContent-Length: 01\r\n\r\nab",
        "/ a",
    ),
    ("POST / HTTP/1.0\r\nContent-Length: +1\r\n\r\na", "400"),
    ("POST / HTTP/1.0\r\nContent-Length:\r\n\r\na", "400"),
    ("POST / HTTP/1.0\r\n\r\na", "411"),
    ("POST / HTTP/1.0\r\nContent-Length: 65537\r\n\r\na", "413"),
    (
        "POST / HTTP/1.0\r\nContent-Length: 99999999999999999999999\r\n\r\na",
        "413",
    ),
    (
        "POST / HTTP/1.0\r\nContent-Length: 99999999999999999999999\r\nContent-Length: 99999999999999999999998\r\n\r\na",
        "400",
    ),
    ("POST / HTTP/1.0\r\nContent-Length: 65536\r\n\r\na", "400"),
    // the interim line, where it is expected, no refusal by the head stands, and the version is 1.1
    (
        "POST / HTTP/1.1\r\nHost: a\r\nExpect: 100-continue\r\nContent-Length: 2\r\n\r\nhe",
        "100 / he",
    ),
    (
        "POST / HTTP/1.1\r\nHost: a\r\nexpect: 100-Continue\r\nTransfer-Encoding: chunked\r\n\r\n1\r\na\r\n0\r\n\r\n",
        "100 / a",
    ),
    (
        "POST / HTTP/1.1\r\nHost: a\r\nExpect: 100-continue\r\nExpect: 100-continue\r\nContent-Length: 0\r\n\r\n",
        "100 / ",
    ),
    (
        "POST / HTTP/1.1\r\nHost: a\r\nExpect: 100-continue\r\nContent-Length: 2\r\n\r\nh",
        "100 400",
    ),
    (
        "POST / HTTP/1.1\r\nHost: a\r\nExpect: 101-continue\r\nContent-Length: 2\r\n\r\nhe",
        "/ he",
    ),
    (
        "POST / HTTP/1.0\r\nExpect: 100-continue\r\nContent-Length: 2\r\n\r\nhe",
        "/ he",
    ),
    (
        "POST / HTTP/1.1\r\nExpect: 100-continue\r\nContent-Length: 2\r\n\r\nhe",
        "400",
    ),
    (
        "GET / HTTP/1.1\r\nHost: a\r\nExpect: 100-continue\r\n\r\n",
        "405",
    ),
    (
        "POST / HTTP/1.1\r\nHost: a\r\nExpect: 100-continue\r\n\r\nhe",
        "411",
    ),
    (
        "POST / HTTP/1.1\r\nHost: a\r\nExpect: 100-continue\r\nContent-Length: 65537\r\n\r\n",
        "413",
    ),
    // chunks
    (
        "POST / HTTP/1.0\r\nTransfer-Encoding: chunked\r\n\r\n0\r\n\r\n",
        "/ ",
    ),
    (
        "POST / HTTP/1.0\r\nTransfer-Encoding: Chunked\r\nTransfer-Encoding: chunked\r\n\r\n2;a=b\r\nhe\r\n00003 \r\nllo\r\n0\r\na: b\r\n\r\nmore",
        "/ hello",
    ),
    (
        "POST / HTTP/1.0\r\nTransfer-Encoding: chunked\r\n\r\n1\r\na\r\n0\r\n\r\r\n\n",
        "/ a",
    ),
    (
        "POST / HTTP/1.0\r\nTransfer-Encoding: chunked\r\n\r\n1\r\na\n0\r\n\r\n",
        "400",
    ),
    (
        "POST / HTTP/1.0\r\nTransfer-Encoding: chunked\r\n\r\n1\r\nab\r\n0\r\n\r\n",
        "400",
    ),
    (
        "POST / HTTP/1.0\r\nTransfer-Encoding: chunked\r\n\r\n1\r\na\r",
        "400",
    ),
    (
        "POST / HTTP/1.0\r\nTransfer-Encoding: chunked\r\n\r\n1\r\n",
        "400",
    ),
    (
        "POST / HTTP/1.0\r\nTransfer-Encoding: chunked\r\n\r\n1",
        "400",
    ),
    (
        "POST / HTTP/1.0\r\nTransfer-Encoding: chunked\r\n\r\nx\r\n",
        "400",
    ),
    (
        "POST / HTTP/1.0\r\nTransfer-Encoding: chunked\r\n\r\n0\r\na: b\r\n",
        "400",
    ),
    (
        "POST / HTTP/1.0\r\nTransfer-Encoding: chunked\r\n\r\n10001\r\n",
        "413",
    ),
    (
        "POST / HTTP/1.0\r\nTransfer-Encoding: chunked\r\n\r\nffffffffffffffff\r\n",
        "413",
    ),
    (
        "POST / HTTP/1.0\r\nTransfer-Encoding: chunked\r\n\r\n1ffffffffffffffff\r\n",
        "400",
    ),
];

fn status(refusal: HttpRefusal) -> &'static str {
    match refusal {
        HttpRefusal::BadRequest => "400",
        HttpRefusal::MethodNotAllowed => "405",
        HttpRefusal::LengthRequired => "411",
        HttpRefusal::ContentTooLarge => "413",
        HttpRefusal::UnsupportedMediaType => "415",
        HttpRefusal::Link => "link",
        HttpRefusal::NoMemory => "memory",
    }
}

/// The bytes of the interim line, and of the empty line behind it.
const INTERIM: &[u8] = b"HTTP/1.1 100 Continue\r\n\r\n";

/// What was said on the connection.
fn lines(site: &MemSite) -> &'static str {
    match site.answers() {
        [] => "",
        [line] if line.as_slice() == INTERIM => "100 ",
        _ => "other ",
    }
}

fn said(alloc: Global, lines: &str, path: &str, body: &[u8]) -> Result<String, AllocError> {
    let mut text = String::from_str(alloc, lines)?;
    text.push_str(path)?;
    text.push(' ')?;
    for byte in body {
        text.push(*byte as char)?;
    }
    Ok(text)
}

fn refused(alloc: Global, lines: &str, refusal: HttpRefusal) -> Result<String, AllocError> {
    let mut text = String::from_str(alloc, lines)?;
    text.push_str(status(refusal))?;
    Ok(text)
}

/// What is taken of the connection that comes next.
fn taken(alloc: Global, site: &mut MemSite) -> Result<String, AllocError> {
    let _opened = site.take();
    match take_request(alloc, site) {
        Ok(request) => said(
            alloc,
            lines(site),
            request.path.as_str(),
            request.body.as_slice(),
        ),
        Err(refusal) => refused(alloc, lines(site), refusal),
    }
}

/// What is taken of these bytes, which come at most so many at once, or all at once where that is 0.
fn answer(alloc: Global, input: &[u8], most: usize) -> Result<String, AllocError> {
    let mut site = MemSite::new(alloc);
    site.give_at_most(most);
    site.connect(input)?;
    taken(alloc, &mut site)
}

#[test]
fn each_request_is_judged(rt: HostRuntime) -> Result<(), Fail> {
    for (input, wanted) in ROWS {
        let text = answer(rt.alloc(), input.as_bytes(), 0)?;
        let same = text.as_str() == *wanted;
        assert!(rt; same, "{text} for {wanted}: {input}");
    }
    Ok(())
}

#[test]
fn pieces_change_nothing(rt: HostRuntime) -> Result<(), Fail> {
    for (input, wanted) in ROWS {
        let text = answer(rt.alloc(), input.as_bytes(), 1)?;
        let same = text.as_str() == *wanted;
        assert!(rt; same, "{text} for {wanted}, byte by byte: {input}");
    }
    Ok(())
}

/// A request whose client waits.
const WAITING: &[u8] =
    b"POST / HTTP/1.1\r\nHost: a\r\nExpect: 100-continue\r\nContent-Length: 2\r\n\r\nhe";

/// What is taken where the k-th call of the connection fails, of which opening it is the first.
fn faulty(alloc: Global, k: u32, most: usize) -> Result<String, AllocError> {
    let mut site = MemSite::new(alloc);
    site.give_at_most(most);
    site.connect(WAITING)?;
    site.fail_link(k);
    taken(alloc, &mut site)
}

/// What is taken where the interim line isn't sent, and then the k-th call of the connection fails, or none where that is 0.
fn unheard(alloc: Global, k: u32) -> Result<String, AllocError> {
    let mut site = MemSite::new(alloc);
    site.give_at_most(23);
    site.connect(WAITING)?;
    site.fail(1);
    site.fail_link(k);
    taken(alloc, &mut site)
}

#[test]
fn a_failure_is_of_the_link(rt: HostRuntime) -> Result<(), Fail> {
    let alloc = rt.alloc();
    let first = faulty(alloc, 2, 0)?;
    assert_eq!(rt; first.as_str(), "link");
    let in_head = faulty(alloc, 3, 20)?;
    assert_eq!(rt; in_head.as_str(), "link");
    let in_body = faulty(alloc, 5, 23)?;
    assert_eq!(rt; in_body.as_str(), "100 link");
    let behind_it = unheard(alloc, 5)?;
    assert_eq!(rt; behind_it.as_str(), "link");
    Ok(())
}

#[test]
fn a_body_is_read_without_the_interim_line(rt: HostRuntime) -> Result<(), Fail> {
    let text = unheard(rt.alloc(), 0)?;
    assert_eq!(rt; text.as_str(), "/ he");
    Ok(())
}

/// A request whose content comes right behind its head.
const SHORT: &[u8] = b"\r\nPOST / HTTP/1.0\r\nContent-Length: 2\r\n\r\nhe";

/// What is taken of it, where it comes at most so many bytes at once and reading on behind it fails.
fn taken_in_time(alloc: Global, most: usize) -> Result<String, AllocError> {
    let mut site = MemSite::new(alloc);
    site.give_at_most(most);
    site.connect(SHORT)?;
    site.fail_link((2 + SHORT.len().div_ceil(most.max(1))) as u32);
    taken(alloc, &mut site)
}

#[test]
fn nothing_is_read_behind_a_whole_request(rt: HostRuntime) -> Result<(), Fail> {
    for most in 1..=SHORT.len() {
        let text = taken_in_time(rt.alloc(), most)?;
        let same = text.as_str() == "/ he";
        assert!(rt; same, "{text}, {most} bytes at once");
    }
    Ok(())
}

/// A head of so many bytes, and its body.
fn long_head(alloc: Global, bytes: usize) -> Result<Vec<u8>, AllocError> {
    let mut head = Vec::from_slice(alloc, b"POST / HTTP/1.0\r\nContent-Length: 1\r\na: ")?;
    for _ in head.len()..bytes.saturating_sub(4) {
        head.push(b'b')?;
    }
    head.extend_from_slice(b"\r\n\r\nx")?;
    Ok(head)
}

#[test]
fn a_head_has_8192_bytes(rt: HostRuntime) -> Result<(), Fail> {
    let alloc = rt.alloc();
    let last = answer(alloc, long_head(alloc, 8192)?.as_slice(), 1000)?;
    assert_eq!(rt; last.as_str(), "/ x");
    let over = answer(alloc, long_head(alloc, 8193)?.as_slice(), 1000)?;
    assert_eq!(rt; over.as_str(), "400");
    Ok(())
}

/// A body in one chunk behind a line with so many bytes of an extension.
fn long_line(alloc: Global, extension: usize) -> Result<Vec<u8>, AllocError> {
    let mut bytes = Vec::from_slice(
        alloc,
        b"POST / HTTP/1.0\r\nTransfer-Encoding: chunked\r\n\r\n0;",
    )?;
    for _ in 0..extension {
        bytes.push(b'e')?;
    }
    bytes.extend_from_slice(b"\r\n\r\n")?;
    Ok(bytes)
}

#[test]
fn chunks_have_131072_raw_bytes(rt: HostRuntime) -> Result<(), Fail> {
    let alloc = rt.alloc();
    let last = answer(alloc, long_line(alloc, 131066)?.as_slice(), 0)?;
    assert_eq!(rt; last.as_str(), "/ ");
    let over = answer(alloc, long_line(alloc, 131067)?.as_slice(), 0)?;
    assert_eq!(rt; over.as_str(), "413");
    Ok(())
}

/// A chunk of 32,768 bytes, and the size of the next one, of which nothing comes.
fn chunk_and_size(alloc: Global, size: &[u8]) -> Result<Vec<u8>, AllocError> {
    let mut bytes = Vec::from_slice(
        alloc,
        b"POST / HTTP/1.1\r\nHost: h\r\nTransfer-Encoding: chunked\r\n\r\n8000\r\n",
    )?;
    for _ in 0u32..32768 {
        bytes.push(b'b')?;
    }
    bytes.extend_from_slice(b"\r\n")?;
    bytes.extend_from_slice(size)?;
    Ok(bytes)
}

#[test]
fn chunks_have_65536_bytes_in_all(rt: HostRuntime) -> Result<(), Fail> {
    let alloc = rt.alloc();
    let last = answer(alloc, chunk_and_size(alloc, b"8000\r\n")?.as_slice(), 0)?;
    assert_eq!(rt; last.as_str(), "400");
    let over = answer(alloc, chunk_and_size(alloc, b"8001\r\n")?.as_slice(), 0)?;
    assert_eq!(rt; over.as_str(), "413");
    Ok(())
}

/// A body of so many bytes, of which the last is missing if it is cut.
fn long_body(alloc: Global, bytes: u32, cut: bool) -> Result<Vec<u8>, AllocError> {
    let mut post = Vec::from_slice(alloc, b"POST / HTTP/1.0\r\nContent-Length: ")?;
    if bytes == 65536 {
        post.extend_from_slice(b"65536\r\n\r\n")?;
    } else {
        post.extend_from_slice(b"65537\r\n\r\n")?;
    }
    for _ in u32::from(cut)..bytes {
        post.push(b'b')?;
    }
    Ok(post)
}

#[test]
fn content_has_65536_bytes(rt: HostRuntime) -> Result<(), Fail> {
    let alloc = rt.alloc();
    let last = answer(alloc, long_body(alloc, 65536, false)?.as_slice(), 0)?;
    assert_eq!(rt; last.len(), 65538);
    let short = answer(alloc, long_body(alloc, 65536, true)?.as_slice(), 0)?;
    assert_eq!(rt; short.as_str(), "400");
    let over = answer(alloc, long_body(alloc, 65537, false)?.as_slice(), 0)?;
    assert_eq!(rt; over.as_str(), "413");
    Ok(())
}
