//! A body in chunks (RFC 9112, section 7.1).

ghost use Rattle.std.specs.Prelude.{ℕ, List, ◌≡◌, ◌+◌, ◌<◌, ◌≤◌, Err, Ok, IfErr, IfOk, IfSome, OnOk, length, min, drop, take, true};
ghost use Rattle.http_post.specs.Connections.{Leaves, left};
ghost use Rattle.http_post.specs.Causes.{HasLinkCause};
ghost use Rattle.http_post.specs.RawBytes.{EndsBefore, IsFault, IsRaw, is_cut, seen};
ghost use Rattle.httparse.specs.Grammar.{ChunkLine};
ghost use Rattle.httparse.specs.Spans.{IsChunkLineAt};
ghost use Rattle.http_post.specs.Chunks.{Chunks, cut_at_end};
ghost use Rattle.http_post.specs.Lines.{IsChunkStep, IsLast, IsLineStep, IsNoLine};

use crate::content::read_content;
use crate::raw_bytes::{counted, counting, more};
use crate::refusal::HttpRefusal;
use crate::trailers::read_trailers;
use httparse::{InvalidChunkSize, Status, parse_chunk_size};
use site_model::site::Site;
use std::alloc::{AllocError, Global};

/// Reads on until so many bytes count, or the body breaks off before.
pub fn fill<S: Site>(site: &mut S, bytes: &mut Vec<u8>, upto: usize) -> Result<(), HttpRefusal>
    ensures kept { OnOk result ((raw : List ℕ) → IsRaw (left (S.told site.old)) bytes.old.items raw → IsRaw (left (S.told site.new)) bytes.new.items raw) }
    ensures full { OnOk result (upto ≤ min (length bytes.new.items) 131072) }
    ensures fault { IfErr result (λ e. IsFault e (λ r. (raw : List ℕ) → IsRaw (left (S.told site.old)) bytes.old.items raw → EndsBefore upto raw r)) }
    ensures cause { HasLinkCause ((S.told site.old).counts.receive) ((S.told site.new).counts.receive) result }
    ensures leaves { Leaves S.told site.old site.new }
{
    while counting(bytes.as_slice()) < upto {
        if let Err(refusal) = more(site, bytes) {
            return Err(refusal);
        }
    }
    Ok(())
}

/// A chunk line: how many bytes it has, and the size that it writes.
#[derive(Clone, Copy)]
struct Sized {
    len: usize,
    size: u64,
}

/// What the bytes from a place on are, as far as they count.
enum LineStep {
    Whole(Sized),
    More,
    Never,
}

/// Reads a chunk line at a place of what counts.
fn try_line(counted: &[u8], at: usize) -> LineStep
    requires { at ≤ length counted.now }
    ensures { IsLineStep (drop at counted.now) result }
{
    match parse_chunk_size(&counted[at..]) {
        Ok(Status::Complete((len, size))) => LineStep::Whole(Sized { len, size }),
        Ok(Status::Partial) => LineStep::More,
        Err(InvalidChunkSize) => LineStep::Never,
    }
}

/// Reads a chunk line at a place of what counts of the bytes.
fn try_counted(bytes: &[u8], at: usize) -> LineStep
    requires { at ≤ min (length bytes.now) 131072 }
    ensures { IsLineStep (drop at (take 131072 bytes.now)) result }
{
    try_line(counted(bytes), at)
}

/// The line where the body breaks off, if it is whole, or what is then answered. Where the machine failed, that.
fn last_line(bytes: &[u8], at: usize, refusal: HttpRefusal) -> Result<Sized, HttpRefusal>
    requires { at ≤ min (length bytes.now) 131072 }
    ensures line { IfOk result (λ line. (is_cut refusal ≡ true) × ((l : ChunkLine) × IsChunkLineAt (drop at (take 131072 bytes.now)) line.len line.size l)) }
    ensures fault { IfErr result (λ e. IsLast (drop at (take 131072 bytes.now)) refusal e) }
{
    if !is_cut(refusal) {
        return Err(refusal);
    }
    match try_counted(bytes, at) {
        LineStep::Whole(line) => Ok(line),
        LineStep::Never => Err(HttpRefusal::BadRequest),
        LineStep::More => Err(refusal),
    }
}

/// Whether the body broke off, and no machine failed.
fn is_cut(refusal: HttpRefusal) -> bool
    ensures { result ≡ is_cut refusal }
{
    !matches!(refusal, HttpRefusal::Link | HttpRefusal::NoMemory)
}

/// Whether bytes that came since the last try may have ended the line, or have doubled it: so a line that comes byte by
/// byte is read a few times only.
fn is_worth(counted: &[u8], at: usize, tried: usize) -> bool
    requires { at ≤ tried }
{
    if tried >= counted.len() {
        return tried == at;
    }
    counted[tried..].contains(&b'\n') || counted.len() - at >= tried - at + (tried - at)
}

/// Reads a chunk line at a place of what counts, reading on until it is whole.
fn read_line<S: Site>(site: &mut S, bytes: &mut Vec<u8>, at: usize) -> Result<Sized, HttpRefusal>
    requires { at ≤ min (length bytes.old.items) 131072 }
    ensures kept { OnOk result ((raw : List ℕ) → IsRaw (left (S.told site.old)) bytes.old.items raw → IsRaw (left (S.told site.new)) bytes.new.items raw) }
    ensures line { IfOk result (λ line. (raw : List ℕ) → IsRaw (left (S.told site.old)) bytes.old.items raw → (l : ChunkLine) × IsChunkLineAt (drop at (seen raw)) line.len line.size l) }
    ensures within { IfOk result (λ line. at + line.len ≤ min (length bytes.new.items) 131072) }
    ensures fault { IfErr result (λ e. IsFault e (λ r. (raw : List ℕ) → IsRaw (left (S.told site.old)) bytes.old.items raw → IsNoLine (drop at (seen raw)) (cut_at_end raw) r)) }
    ensures cause { HasLinkCause ((S.told site.old).counts.receive) ((S.told site.new).counts.receive) result }
    ensures leaves { Leaves S.told site.old site.new }
{
    let mut tried = at;
    loop {
        if is_worth(counted(bytes.as_slice()), at, tried) {
            match try_counted(bytes.as_slice(), at) {
                LineStep::Whole(line) => return Ok(line),
                LineStep::Never => return Err(HttpRefusal::BadRequest),
                LineStep::More => tried = counting(bytes.as_slice()),
            }
        }
        if let Err(refusal) = more(site, bytes) {
            return last_line(bytes.as_slice(), at, refusal);
        }
    }
}

/// The most bytes of content.
const MOST_CONTENT: u64 = 65536;

/// Reads one chunk at a place, and adds its data to the body. Says where the next chunk begins, or none where this was
/// the last one and the trailers ended.
fn read_chunk<S: Site>(
    site: &mut S,
    bytes: &mut Vec<u8>,
    at: usize,
    body: &mut Vec<u8>,
) -> Result<Option<usize>, HttpRefusal>
    requires at { at ≤ min (length bytes.old.items) 131072 }
    requires body { length body.old.items ≤ 65536 }
    ensures kept { OnOk result ((raw : List ℕ) → IsRaw (left (S.told site.old)) bytes.old.items raw → IsRaw (left (S.told site.new)) bytes.new.items raw) }
    ensures next { IfOk result (λ o. IfSome o (λ next. (at < next) × (next ≤ min (length bytes.new.items) 131072))) }
    ensures most { OnOk result (length body.new.items ≤ 65536) }
    ensures step { IfOk result (λ o. (raw : List ℕ) → IsRaw (left (S.told site.old)) bytes.old.items raw → IsChunkStep (cut_at_end raw) (seen raw) at body.old.items body.new.items o) }
    ensures fault { IfErr result (λ e. IsFault e (λ r. (raw : List ℕ) → IsRaw (left (S.told site.old)) bytes.old.items raw → Chunks (cut_at_end raw) (length body.old.items) (drop at (seen raw)) (Err r))) }
    ensures cause { HasLinkCause ((S.told site.old).counts.receive) ((S.told site.new).counts.receive) result }
    ensures leaves { Leaves S.told site.old site.new }
{
    let line = match read_line(site, bytes, at) {
        Ok(line) => line,
        Err(refusal) => return Err(refusal),
    };
    let from = at + line.len;
    if line.size == 0 {
        return match read_trailers(site, bytes, from) {
            Ok(()) => Ok(None),
            Err(refusal) => Err(refusal),
        };
    }
    if line.size > MOST_CONTENT - body.len() as u64 {
        return Err(HttpRefusal::ContentTooLarge);
    }
    let size = line.size as usize;
    match read_content(site, bytes, from, size) {
        Ok(()) => {}
        Err(refusal) => return Err(refusal),
    }
    match body.extend_from_slice(&bytes[from..from + size]) {
        Ok(()) => Ok(Some(from + size + 2)),
        Err(AllocError) => Err(HttpRefusal::NoMemory),
    }
}

/// The content of a body in chunks, of which these bytes came already.
pub fn read_chunks<S: Site>(
    alloc: Global,
    site: &mut S,
    bytes: &mut Vec<u8>,
) -> Result<Vec<u8>, HttpRefusal>
    ensures content { IfOk result (λ body. (raw : List ℕ) → IsRaw (left (S.told site.old)) bytes.old.items raw → Chunks (cut_at_end raw) 0 (seen raw) (Ok body.items)) }
    ensures fault { IfErr result (λ e. IsFault e (λ r. (raw : List ℕ) → IsRaw (left (S.told site.old)) bytes.old.items raw → Chunks (cut_at_end raw) 0 (seen raw) (Err r))) }
    ensures cause { HasLinkCause ((S.told site.old).counts.receive) ((S.told site.new).counts.receive) result }
    ensures leaves { Leaves S.told site.old site.new }
{
    let mut body = Vec::new(alloc);
    let mut at = 0;
    loop {
        let next = match read_chunk(site, bytes, at, &mut body) {
            Ok(next) => next,
            Err(refusal) => return Err(refusal),
        };
        match next {
            Some(place) => at = place,
            None => return Ok(body),
        }
    }
}
