//! What a head says, in a few words for a person.

use httparse::Status;
use httparse::spans::{EMPTY_HEADER_SPAN, HeaderSpan, Span, parse_request};
use memchr::{memchr, memmem};
use std::alloc::AllocError;

/// The most fields of a head in which its action is looked for.
const FIELDS: usize = 64;

/// The most bytes of a method, a target or an action that are shown.
const SHOWN_BYTES: usize = 200;

/// The bytes between two places.
fn between(bytes: &[u8], start: usize, end: usize) -> &[u8] {
    if start <= end && end <= bytes.len() {
        &bytes[start..end]
    } else {
        b""
    }
}

/// The bytes of a span; none where there is none.
fn bytes_at(bytes: &[u8], span: Span) -> &[u8] {
    between(bytes, span.start, span.end)
}

/// Adds at most 200 bytes to a line, without quotes, and each that isn't visible ASCII as `?`.
fn push_visible(line: &mut String, bytes: &[u8]) -> Result<(), AllocError> {
    for byte in bytes.iter().take(SHOWN_BYTES) {
        if *byte == b'"' {
            continue;
        }
        let is_visible = *byte > 32 && *byte < 127;
        line.push(if is_visible { char::from(*byte) } else { '?' })?;
    }
    Ok(())
}

/// An action without the namespace before it.
fn name_of(action: &[u8]) -> &[u8] {
    let mut start = 0;
    for (at, byte) in action.iter().enumerate() {
        if *byte == b'/' {
            start = at.saturating_add(1);
        }
    }
    between(action, start, action.len())
}

/// The name of the message that the field SOAPAction tells (SOAP 1.1, section 6.1.1).
fn action_of<'b>(bytes: &'b [u8], fields: &[HeaderSpan]) -> &'b [u8] {
    for field in fields {
        if bytes_at(bytes, field.name).eq_ignore_ascii_case(b"SOAPAction") {
            return name_of(bytes_at(bytes, field.value));
        }
    }
    b""
}

/// The text of the first element of this name, whatever its prefix is; none where there isn't one, or it isn't whole.
fn text_of<'b>(bytes: &'b [u8], name: &[u8]) -> &'b [u8] {
    let Some(start) = memmem::find(bytes, name) else {
        return b"";
    };
    let behind = between(bytes, start, bytes.len());
    let Some(tag) = memchr(b'>', behind) else {
        return b"";
    };
    let text = between(behind, tag.saturating_add(1), behind.len());
    match memchr(b'<', text) {
        Some(end) => between(text, 0, end),
        None => b"",
    }
}

/// Adds a word behind a space, where there is one.
fn push_word(line: &mut String, word: &[u8]) -> Result<(), AllocError> {
    if word.is_empty() {
        return Ok(());
    }
    line.push(' ')?;
    push_visible(line, word)
}

/// Adds the method, the target and, where they are told, the message of a request and its id (WS-Addressing 1.0 Core, section
/// 3.1). What doesn't begin with a head of at most 64 fields is no request that is shown.
pub(crate) fn push_request(line: &mut String, bytes: &[u8]) -> Result<(), AllocError> {
    let mut fields = [EMPTY_HEADER_SPAN; FIELDS];
    let Ok(Status::Complete(head)) = parse_request(bytes, &mut fields) else {
        return line.push_str("no request");
    };
    push_visible(line, bytes_at(bytes, head.method))?;
    push_word(line, bytes_at(bytes, head.path))?;
    push_word(line, action_of(bytes, &fields))?;
    push_word(line, text_of(bytes, b"MessageID"))
}

/// The status of an answer, three digits behind its version. None of an interim one.
pub(crate) fn status_of(answer: &[u8]) -> Option<&[u8]> {
    let behind = answer.strip_prefix(b"HTTP/1.1 ")?;
    if behind.len() < 3 || behind[0] == b'1' {
        return None;
    }
    Some(&behind[..3])
}
