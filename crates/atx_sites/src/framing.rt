//! How far a request over HTTP has come, by its bytes alone (RFC 9112, sections 3 to 7).

use httparse::spans::{HeaderSpan, RequestSpans, parse_request};
use httparse::{Status, parse_chunk_size};

/// The most bytes of a head.
const HEAD_BYTES: usize = 8192;

/// The most bytes of content.
const CONTENT_BYTES: usize = 65536;

/// More fields than a head of 8,192 bytes can have: each takes three bytes at least.
pub(crate) const FIELDS: usize = 2731;

/// How far a request has come.
#[derive(Clone, Copy, Debug, PartialEq, Eq)]
pub(crate) enum Stage {
    /// Its head isn't whole.
    Head,
    /// It has so many bytes in all.
    Sized(usize),
    /// The line of a chunk begins at a place.
    Chunk(usize),
    /// A line of the trailers begins at a place.
    Trailer(usize),
    /// All of it is there; or what is there is refused, or answered before more comes.
    Whole,
    /// It is a web page's: its head has the field Origin (RFC 6454, section 7), which browsers send with each post.
    Foreign,
}

/// How far a request has come, and whether its client waits for the interim answer before it sends the body (RFC 9110,
/// section 10.1.1).
#[derive(Clone, Copy, Debug, PartialEq, Eq)]
pub(crate) struct Progress {
    pub(crate) stage: Stage,
    pub(crate) waits: bool,
}

/// The number that a value writes in decimal. None where it writes none, or one of more than nine digits.
fn number(value: &[u8]) -> Option<usize> {
    if value.is_empty() || value.len() > 9 {
        return None;
    }
    let mut number = 0usize;
    for digit in value {
        if !digit.is_ascii_digit() {
            return None;
        }
        number = number
            .saturating_mul(10)
            .saturating_add((*digit - b'0') as usize);
    }
    Some(number)
}

/// The bytes between two places.
fn between(bytes: &[u8], start: usize, end: usize) -> &[u8] {
    if start <= end && end <= bytes.len() {
        &bytes[start..end]
    } else {
        b""
    }
}

/// What the fields of a head say of the body.
#[derive(Clone, Copy)]
struct Said {
    length: Option<usize>,
    is_chunked: bool,
    waits: bool,
    is_refused: bool,
    is_foreign: bool,
}

/// What they say with one field more.
fn with_field(said: Said, name: &[u8], value: &[u8]) -> Said {
    let mut now = said;
    if name.eq_ignore_ascii_case(b"content-length") {
        let length = number(value);
        now.is_refused = said.is_refused
            || length.is_none()
            || said.length.is_some() && said.length != length;
        now.length = length;
    } else if name.eq_ignore_ascii_case(b"transfer-encoding") {
        now.is_refused = said.is_refused || !value.eq_ignore_ascii_case(b"chunked");
        now.is_chunked = true;
    } else if name.eq_ignore_ascii_case(b"expect") {
        now.waits = said.waits || value.eq_ignore_ascii_case(b"100-continue");
    } else if name.eq_ignore_ascii_case(b"origin") {
        now.is_foreign = true;
    }
    now
}

/// What the fields at these places say.
fn said_by(bytes: &[u8], places: &[HeaderSpan]) -> Said {
    let mut said = Said {
        length: None,
        is_chunked: false,
        waits: false,
        is_refused: false,
        is_foreign: false,
    };
    for place in places {
        let name = between(bytes, place.name.start, place.name.end);
        let value = between(bytes, place.value.start, place.value.end);
        said = with_field(said, name, value);
    }
    said
}

/// What comes behind a whole head that says this. One of a web page isn't read further. A request that is no post, or whose
/// body ends nowhere, is refused by its head.
fn behind_head(bytes: &[u8], head: &RequestSpans, said: Said) -> Stage {
    if said.is_foreign {
        return Stage::Foreign;
    }
    let is_post = between(bytes, head.method.start, head.method.end) == b"POST".as_slice();
    if !is_post || said.is_refused {
        return Stage::Whole;
    }
    match (said.length, said.is_chunked) {
        (None, true) => Stage::Chunk(head.len),
        (Some(length), false) if length <= CONTENT_BYTES => {
            Stage::Sized(head.len.saturating_add(length))
        }
        _ => Stage::Whole,
    }
}

fn next_of_head(bytes: &[u8], places: &mut [HeaderSpan]) -> Option<Progress> {
    let front = between(bytes, 0, bytes.len().min(HEAD_BYTES));
    match parse_request(front, places) {
        Ok(Status::Complete(head)) => {
            let count = head.headers.min(places.len());
            let said = said_by(front, &places[..count]);
            Some(Progress {
                stage: behind_head(front, &head, said),
                waits: said.waits && head.version == 1,
            })
        }
        Ok(Status::Partial) if bytes.len() < HEAD_BYTES => None,
        _ => Some(Progress {
            stage: Stage::Whole,
            waits: false,
        }),
    }
}

fn next_of_chunk(bytes: &[u8], at: usize) -> Option<Stage> {
    match parse_chunk_size(between(bytes, at, bytes.len())) {
        Ok(Status::Partial) => None,
        Ok(Status::Complete((line, size))) => {
            let from = at.saturating_add(line);
            Some(match usize::try_from(size) {
                Ok(0) => Stage::Trailer(from),
                Ok(size) if size <= CONTENT_BYTES => {
                    Stage::Chunk(from.saturating_add(size).saturating_add(2))
                }
                _ => Stage::Whole,
            })
        }
        Err(_) => Some(Stage::Whole),
    }
}

fn next_of_trailer(bytes: &[u8], at: usize) -> Option<Stage> {
    let rest = between(bytes, at, bytes.len());
    let end = rest.iter().position(|byte| *byte == b'\n')?;
    let line = between(rest, 0, end);
    if line.is_empty() || line == b"\r".as_slice() {
        return Some(Stage::Whole);
    }
    Some(Stage::Trailer(at.saturating_add(end).saturating_add(1)))
}

/// The stage behind one of the body, by the bytes that are there. None where more are wanted.
fn next_of_body(stage: Stage, bytes: &[u8]) -> Option<Stage> {
    match stage {
        Stage::Sized(count) if bytes.len() >= count => Some(Stage::Whole),
        Stage::Sized(_) => None,
        Stage::Chunk(at) => next_of_chunk(bytes, at),
        Stage::Trailer(at) => next_of_trailer(bytes, at),
        Stage::Head | Stage::Whole | Stage::Foreign => None,
    }
}

/// How far it has come behind that, by the bytes that are there. None where more are wanted.
fn next(progress: Progress, bytes: &[u8], places: &mut [HeaderSpan]) -> Option<Progress> {
    if let Stage::Head = progress.stage {
        return next_of_head(bytes, places);
    }
    match next_of_body(progress.stage, bytes) {
        Some(stage) => Some(Progress {
            stage,
            waits: progress.waits,
        }),
        None => None,
    }
}

/// How far a request has come that had come so far, now that these are its bytes. `places` is room for its fields.
pub(crate) fn come_to(progress: Progress, bytes: &[u8], places: &mut [HeaderSpan]) -> Progress {
    let mut progress = progress;
    for _ in 0..u32::MAX {
        match next(progress, bytes, places) {
            Some(later) => progress = later,
            None => return progress,
        }
    }
    progress
}
