//! The bytes of answers and posts (RFC 9112, sections 2 to 6).

ghost use Rattle.std.specs.Prelude.{◌≡◌, ◌++◌, IfOk, IsTrue, OnOk, Some, None, codes, decimal, length};
ghost use Rattle.std.specs.Option.{option_map};
ghost use Rattle.http_post.specs.OutBytes.{action_field, allow_field, answer_of, authority, field, has_reason, head_end, line, post_of, reason_of, request_line, status_line, tick_of, type_field};

use addressing::post_to::PostTo;
use itoa::Buffer;
use std::alloc::{AllocError, Global};

/// An answer with a status and, where there is one, an envelope. The connection ends behind it.
///
/// The statuses are 200, 202, 400, 404, 405, 411, 413, 415, 500 and 503 (RFC 9110, section 15).
pub fn answer_bytes(alloc: Global, status: u16, body: Option<&[u8]>) -> Result<Vec<u8>, AllocError>
    requires { IsTrue (has_reason status) }
    ensures { IfOk result (λ bytes. bytes.items ≡ answer_of status (option_map (λ b. b.now) body.entry)) }
{
    match body {
        Some(body) => full_answer(alloc, status, body),
        None => bare_answer(alloc, status),
    }
}

/// A post of an envelope: its SOAPAction is the envelope's wsa:Action (SOAP 1.1, section 6.1.1).
pub fn post_bytes(
    alloc: Global,
    to: &PostTo,
    action: &str,
    body: &[u8],
) -> Result<Vec<u8>, AllocError>
    ensures { IfOk result (λ bytes. bytes.items ≡ post_of to.now action.now body.now) }
{
    let mut out = Vec::new(alloc);
    push_request_line(to.path.as_str(), &mut out)?;
    push_host(to, &mut out)?;
    push_type(&mut out)?;
    push_envelope(action, body, &mut out)?;
    Ok(out)
}

/// A post without content to the path of `to`, which asks a node for what is due.
pub fn tick_bytes(alloc: Global, to: &PostTo) -> Result<Vec<u8>, AllocError>
    ensures { IfOk result (λ bytes. bytes.items ≡ tick_of to.now) }
{
    let mut out = Vec::new(alloc);
    push_request_line(to.path.as_str(), &mut out)?;
    push_host(to, &mut out)?;
    push_head_end(0, &mut out)?;
    Ok(out)
}

/// The answer 503, for which no memory is wanted.
pub fn busy_bytes() -> &'static [u8]
    ensures { result.now ≡ answer_of 503 None }
{
    b"HTTP/1.1 503 Service Unavailable\r\nContent-Length: 0\r\nConnection: close\r\n\r\n"
}

fn full_answer(alloc: Global, status: u16, body: &[u8]) -> Result<Vec<u8>, AllocError>
    requires { IsTrue (has_reason status) }
    ensures { IfOk result (λ bytes. bytes.items ≡ answer_of status (Some body.now)) }
{
    let mut out = Vec::new(alloc);
    push_status_line(status, &mut out)?;
    push_type(&mut out)?;
    push_allow(status, &mut out)?;
    push_content(body, &mut out)?;
    Ok(out)
}

fn bare_answer(alloc: Global, status: u16) -> Result<Vec<u8>, AllocError>
    requires { IsTrue (has_reason status) }
    ensures { IfOk result (λ bytes. bytes.items ≡ answer_of status None) }
{
    let mut out = Vec::new(alloc);
    push_status_line(status, &mut out)?;
    push_allow(status, &mut out)?;
    push_head_end(0, &mut out)?;
    Ok(out)
}

fn push(bytes: &[u8], out: &mut Vec<u8>) -> Result<(), AllocError>
    ensures { OnOk result (out.new.items ≡ out.old.items ++ bytes.now) }
{
    out.extend_from_slice(bytes)
}

/// A field whose value is one text.
#[tactic(auto, unfolding(crate::specs::OutBytes::line, crate::specs::OutBytes::field))]
fn push_field(name: &str, value: &str, out: &mut Vec<u8>) -> Result<(), AllocError>
    ensures { OnOk result (out.new.items ≡ out.old.items ++ field name.now value.now) }
{
    push(name.as_bytes(), out)?;
    push(b": ", out)?;
    push(value.as_bytes(), out)?;
    push(b"\r\n", out)
}

/// A field whose value is a number.
fn push_number_field(name: &str, number: usize, out: &mut Vec<u8>) -> Result<(), AllocError>
    ensures { OnOk result (out.new.items ≡ out.old.items ++ field name.now (decimal number)) }
{
    let mut buffer = Buffer::new();
    push_field(name, buffer.format(number), out)
}

#[tactic(auto, unfolding(crate::specs::OutBytes::type_field))]
fn push_type(out: &mut Vec<u8>) -> Result<(), AllocError>
    ensures { OnOk result (out.new.items ≡ out.old.items ++ type_field) }
{
    push_field("Content-Type", "text/xml; charset=utf-8", out)
}

#[tactic(auto, unfolding(crate::specs::OutBytes::line, crate::specs::OutBytes::head_end))]
fn push_head_end(count: usize, out: &mut Vec<u8>) -> Result<(), AllocError>
    ensures { OnOk result (out.new.items ≡ out.old.items ++ head_end count) }
{
    push_number_field("Content-Length", count, out)?;
    push_field("Connection", "close", out)?;
    push(b"\r\n", out)
}

fn push_content(body: &[u8], out: &mut Vec<u8>) -> Result<(), AllocError>
    ensures { OnOk result (out.new.items ≡ out.old.items ++ (head_end (length body.now) ++ body.now)) }
{
    push_head_end(body.len(), out)?;
    push(body, out)
}

fn push_envelope(action: &str, body: &[u8], out: &mut Vec<u8>) -> Result<(), AllocError>
    ensures { OnOk result (out.new.items ≡ out.old.items ++ (action_field action.now ++ head_end (length body.now) ++ body.now)) }
{
    push_action(action, out)?;
    push_content(body, out)
}

#[tactic(auto, unfolding(crate::specs::OutBytes::line, crate::specs::OutBytes::field, crate::specs::OutBytes::action_field))]
fn push_action(action: &str, out: &mut Vec<u8>) -> Result<(), AllocError>
    ensures { OnOk result (out.new.items ≡ out.old.items ++ action_field action.now) }
{
    push(b"SOAPAction", out)?;
    push(b": ", out)?;
    push_quoted(action, out)?;
    push(b"\r\n", out)
}

fn push_quoted(text: &str, out: &mut Vec<u8>) -> Result<(), AllocError>
    ensures { OnOk result (out.new.items ≡ out.old.items ++ (codes "\"" ++ text.now ++ codes "\"")) }
{
    push(b"\"", out)?;
    push(text.as_bytes(), out)?;
    push(b"\"", out)
}

#[tactic(auto, unfolding(crate::specs::OutBytes::line, crate::specs::OutBytes::request_line))]
fn push_request_line(path: &str, out: &mut Vec<u8>) -> Result<(), AllocError>
    ensures { OnOk result (out.new.items ≡ out.old.items ++ request_line path.now) }
{
    push(b"POST ", out)?;
    push(path.as_bytes(), out)?;
    push(b" HTTP/1.1", out)?;
    push(b"\r\n", out)
}

fn push_host(to: &PostTo, out: &mut Vec<u8>) -> Result<(), AllocError>
    ensures { OnOk result (out.new.items ≡ out.old.items ++ field (codes "Host") (authority to.now)) }
{
    if to.port == 80 {
        return push_field("Host", to.host.as_str(), out);
    }
    push_host_and_port(to.host.as_str(), to.port, out)
}

#[tactic(auto, unfolding(crate::specs::OutBytes::line, crate::specs::OutBytes::field))]
fn push_host_and_port(host: &str, port: u16, out: &mut Vec<u8>) -> Result<(), AllocError>
    ensures { OnOk result (out.new.items ≡ out.old.items ++ field (codes "Host") (host.now ++ codes ":" ++ decimal port)) }
{
    let mut buffer = Buffer::new();
    push(b"Host", out)?;
    push(b": ", out)?;
    push_authority(host, buffer.format(port), out)?;
    push(b"\r\n", out)
}

fn push_authority(host: &str, port: &str, out: &mut Vec<u8>) -> Result<(), AllocError>
    ensures { OnOk result (out.new.items ≡ out.old.items ++ (host.now ++ codes ":" ++ port.now)) }
{
    push(host.as_bytes(), out)?;
    push(b":", out)?;
    push(port.as_bytes(), out)
}

#[tactic(auto, unfolding(crate::specs::OutBytes::line))]
fn push_status_line(status: u16, out: &mut Vec<u8>) -> Result<(), AllocError>
    requires { IsTrue (has_reason status) }
    ensures { OnOk result (out.new.items ≡ out.old.items ++ status_line status) }
{
    let mut buffer = Buffer::new();
    push(b"HTTP/1.1 ", out)?;
    push(buffer.format(status).as_bytes(), out)?;
    push(b" ", out)?;
    push(reason(status).as_bytes(), out)?;
    push(b"\r\n", out)
}

fn push_allow(status: u16, out: &mut Vec<u8>) -> Result<(), AllocError>
    ensures { OnOk result (out.new.items ≡ out.old.items ++ allow_field status) }
{
    if status == 405 {
        return push_field("Allow", "POST", out);
    }
    Ok(())
}

/// The reason phrase of a status that is answered.
fn reason(status: u16) -> &'static str
    ensures { result.now ≡ reason_of status }
{
    match status {
        200 => "OK",
        202 => "Accepted",
        400 => "Bad Request",
        404 => "Not Found",
        405 => "Method Not Allowed",
        411 => "Length Required",
        413 => "Content Too Large",
        415 => "Unsupported Media Type",
        500 => "Internal Server Error",
        503 => "Service Unavailable",
        _ => "",
    }
}
