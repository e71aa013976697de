//! The bytes of answers and posts, beside bytes written by hand.

use addressing::post_to::PostTo;
use at_base::text::Text;
use http_post::writer::{answer_bytes, busy_bytes, post_bytes, tick_bytes};
use std::alloc::{AllocError, Global};
use std::test::Fail;

const FULL: &str =
    "HTTP/1.1 500 Internal Server Error\r\nContent-Type: text/xml; charset=utf-8\r\nContent-Length: 4\r\nConnection: close\r\n\r\n<a/>";

const BARE: &str =
    "HTTP/1.1 405 Method Not Allowed\r\nAllow: POST\r\nContent-Length: 0\r\nConnection: close\r\n\r\n";

const POST: &str =
    "POST /p/d/1-1?a HTTP/1.1\r\nHost: n3.example:8080\r\nContent-Type: text/xml; charset=utf-8\r\nSOAPAction: \"http://docs.oasis-open.org/ws-tx/wsat/2006/06/Prepare\"\r\nContent-Length: 4\r\nConnection: close\r\n\r\n<a/>";

const TICK: &str =
    "POST /tick HTTP/1.1\r\nHost: n3.example\r\nContent-Length: 0\r\nConnection: close\r\n\r\n";

fn place(alloc: Global, port: u16, path: &str) -> Result<PostTo, AllocError> {
    let host = Text::copied(alloc, "n3.example")?;
    let path = Text::copied(alloc, path)?;
    Ok(PostTo { host, port, path })
}

fn full(alloc: Global) -> Result<bool, AllocError> {
    let bytes = answer_bytes(alloc, 500, Some(b"<a/>"))?;
    Ok(bytes.as_slice() == FULL.as_bytes())
}

fn bare(alloc: Global) -> Result<bool, AllocError> {
    let bytes = answer_bytes(alloc, 405, None)?;
    Ok(bytes.as_slice() == BARE.as_bytes())
}

fn post(alloc: Global) -> Result<bool, AllocError> {
    let to = place(alloc, 8080, "/p/d/1-1?a")?;
    let action = "http://docs.oasis-open.org/ws-tx/wsat/2006/06/Prepare";
    let bytes = post_bytes(alloc, &to, action, b"<a/>")?;
    Ok(bytes.as_slice() == POST.as_bytes())
}

fn tick(alloc: Global) -> Result<bool, AllocError> {
    let to = place(alloc, 80, "/tick")?;
    let bytes = tick_bytes(alloc, &to)?;
    Ok(bytes.as_slice() == TICK.as_bytes())
}

#[test]
fn answers_are_written(rt: HostRuntime) -> Result<(), Fail> {
    let full = full(rt.alloc())?;
    assert!(rt; full);
    let bare = bare(rt.alloc())?;
    assert!(rt; bare);
    let busy = busy_bytes();
    assert!(rt; busy.starts_with(b"HTTP/1.1 503 Service Unavailable\r\n"));
    Ok(())
}

#[test]
fn posts_are_written(rt: HostRuntime) -> Result<(), Fail> {
    let post = post(rt.alloc())?;
    assert!(rt; post);
    let tick = tick(rt.alloc())?;
    assert!(rt; tick);
    Ok(())
}
