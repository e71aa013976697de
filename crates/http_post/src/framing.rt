//! What the fields of a head say of the body (RFC 9110, sections 7.2, 8.4, 8.6 and 10.1.1; RFC 9112, section 6).

ghost use Rattle.std.specs.Prelude.{ℕ, List, ◌∷◌, ◌≡◌, codes, length, nat_eq, true, ◌↔◌, IsTrue};
ghost use Rattle.http_header.specs.HeaderMap.{get_all};
ghost use Rattle.std.specs.List.{list_all, list_any};
ghost use Rattle.http_post.specs.Heads.{agrees, expects_in, framed, framed_by, framing_in, is_decimal, is_none, is_word, lacks_host, sized};
ghost use Rattle.http_post.specs.FieldMaps.{values_under};

use crate::lengths::{agrees, is_decimal, number};
use crate::refusal::HttpRefusal;
use http_header::{HeaderMap, HeaderValue};

/// The most bytes of content.
const MOST_CONTENT: usize = 65536;

/// Where a body ends.
#[derive(Clone, Copy, Debug, PartialEq, Eq)]
pub enum Framing {
    /// Behind so many bytes, at most 65,536.
    Sized(usize),
    /// Behind its last chunk and the trailers.
    Chunked,
}

/// How the body of a request is framed, or the first refusal that its head draws.
pub fn read_framing(version: u8, method: &[u8], fields: &HeaderMap) -> Result<Framing, HttpRefusal>
    ensures { result ≡ framing_in version method.now (values_under fields.now) }
{
    if lacks_host(version, fields) {
        return Err(HttpRefusal::BadRequest);
    }
    if method != b"POST".as_slice() {
        return Err(HttpRefusal::MethodNotAllowed);
    }
    if !are_plain(fields) {
        return Err(HttpRefusal::UnsupportedMediaType);
    }
    framed(fields)
}

/// Whether the client waits for an interim answer before it sends the body.
pub fn expects(version: u8, fields: &HeaderMap) -> bool
    ensures { result ≡ expects_in version (values_under fields.now) }
{
    version == 1 && waits(fields)
}

fn lacks_host(version: u8, fields: &HeaderMap) -> bool
    ensures { result ≡ lacks_host version (values_under fields.now (codes "host")) }
{
    version == 1 && !has_one_host(fields)
}

fn has_one_host(fields: &HeaderMap) -> bool
    ensures { result ≡ nat_eq (length (values_under fields.now (codes "host"))) 1 }
{
    one_host(fields)
}

fn one_host(fields: &HeaderMap) -> bool
    ensures { IsTrue result ↔ (length (get_all fields.now (codes "host")) ≡ 1) }
{
    fields.get_all("host").into_iter().count() == 1
}

/// By the transfer codings, or else by the lengths.
fn framed(fields: &HeaderMap) -> Result<Framing, HttpRefusal>
    ensures { result ≡ framed (values_under fields.now (codes "transfer-encoding")) (values_under fields.now (codes "content-length")) }
{
    if has_no_transfer(fields) {
        return framed_by(fields);
    }
    if has_no_length(fields) && are_chunked(fields) {
        return Ok(Framing::Chunked);
    }
    Err(HttpRefusal::BadRequest)
}

fn has_no_transfer(fields: &HeaderMap) -> bool
    ensures { result ≡ is_none (values_under fields.now (codes "transfer-encoding")) }
{
    fields.get("transfer-encoding").is_none()
}

fn has_no_length(fields: &HeaderMap) -> bool
    ensures { result ≡ is_none (values_under fields.now (codes "content-length")) }
{
    fields.get("content-length").is_none()
}

/// By the lengths alone.
fn framed_by(fields: &HeaderMap) -> Result<Framing, HttpRefusal>
    ensures { result ≡ framed_by (values_under fields.now (codes "content-length")) }
{
    match fields.get("content-length") {
        None => Err(HttpRefusal::LengthRequired),
        Some(first) => framed_as(first.as_bytes(), fields),
    }
}

fn framed_as(first: &[u8], fields: &HeaderMap) -> Result<Framing, HttpRefusal>
    ensures { (others : List (List ℕ)) → values_under fields.now (codes "content-length") ≡ first.now ∷ others → result ≡ framed_by (first.now ∷ others) }
{
    if !is_decimal(first) || !all_agree(first, fields) {
        return Err(HttpRefusal::BadRequest);
    }
    sized(number(first))
}

fn sized(count: usize) -> Result<Framing, HttpRefusal>
    ensures { result ≡ sized count }
{
    if count <= MOST_CONTENT {
        return Ok(Framing::Sized(count));
    }
    Err(HttpRefusal::ContentTooLarge)
}

fn all_agree(first: &[u8], fields: &HeaderMap) -> bool
    requires { is_decimal first.now ≡ true }
    ensures { result ≡ list_all (agrees first.now) (values_under fields.now (codes "content-length")) }
{
    for value in fields.get_all("content-length") {
        if !agrees(first, value.as_bytes()) {
            return false;
        }
    }
    true
}

fn are_plain(fields: &HeaderMap) -> bool
    ensures { result ≡ list_all (is_word (codes "identity")) (values_under fields.now (codes "content-encoding")) }
{
    for value in fields.get_all("content-encoding") {
        if !is_word(b"identity", value) {
            return false;
        }
    }
    true
}

fn are_chunked(fields: &HeaderMap) -> bool
    ensures { result ≡ list_all (is_word (codes "chunked")) (values_under fields.now (codes "transfer-encoding")) }
{
    for value in fields.get_all("transfer-encoding") {
        if !is_word(b"chunked", value) {
            return false;
        }
    }
    true
}

fn waits(fields: &HeaderMap) -> bool
    ensures { result ≡ list_any (is_word (codes "100-continue")) (values_under fields.now (codes "expect")) }
{
    for value in fields.get_all("expect") {
        if is_word(b"100-continue", value) {
            return true;
        }
    }
    false
}

/// Whether a value is that word, in any case.
fn is_word(word: &[u8], value: &HeaderValue) -> bool
    ensures { result ≡ is_word word.now value.now.bytes }
{
    value.as_bytes().eq_ignore_ascii_case(word)
}
