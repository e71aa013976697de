//! What a head asks (RFC 9112, sections 3 and 6).

ghost use Rattle.std.specs.Prelude.{◌≡◌, IfErr, IfOk, IsUtf8, None, nat_eq, slice_index};
ghost use Rattle.url.specs.Parser.{parse_url};
ghost use Rattle.httparse.specs.Grammar.{RequestHead};
ghost use Rattle.httparse.specs.Spans.{IsRequestAt};
ghost use Rattle.http_post.specs.FieldMaps.{Draws, HasFields, SaysOf};
ghost use Rattle.http_post.specs.Heads.{expects, framing_of};
ghost use Rattle.http_post.specs.PartialHeads.{IsRead};
ghost use Rattle.http_post.specs.Requests.{path_in, path_of, without_query};

use crate::fields::keep_all;
use crate::framing::{Framing, expects, read_framing};
use crate::head::Head;
use crate::refusal::HttpRefusal;
use at_base::text::Text;
use http_header::HeaderMap;
use std::alloc::{AllocError, Global};
use url::{ParseError, Url};

/// What a head asks: the path, where the body ends, and whether the client waits for an interim answer.
pub struct Asking {
    pub path: Text,
    pub framing: Framing,
    pub waits: bool,
}

impl Drop for Asking {
    fn drop(self) {
        let Asking {
            path: _path,
            framing: _framing,
            waits: _waits,
        } = self;
    }
}

impl Asking {
    /// The path alone.
    pub fn into_path(self) -> Text
        ensures { result ≡ self.path }
    {
        let Asking {
            path,
            framing: _framing,
            waits: _waits,
        } = self;
        path
    }
}

/// The fields of a head.
#[tactic(auto, using(crate::proofs::HeadFields::keepable, crate::proofs::HeadFields::found))]
fn fields_of(alloc: Global, head: &Head) -> Result<HeaderMap, AllocError>
    requires { IsRead head.now.bytes.items head.now.places head.now.spans }
    ensures { IfOk result (λ m. HasFields head.now.bytes.items head.now.places head.now.spans m) }
{
    let places = head.places.as_slice();
    keep_all(alloc, head.bytes.as_slice(), &places[..head.spans.headers])
}

/// The path that a request target names.
fn path_of(alloc: Global, target: &str) -> Result<Text, AllocError>
    ensures { IfOk result (λ path. path ≡ path_of target.now) }
{
    if begins_with_slash(target) {
        return Text::copied(alloc, without_query(target));
    }
    path_in(alloc, target)
}

fn path_in(alloc: Global, target: &str) -> Result<Text, AllocError>
    ensures { IfOk result (λ path. path ≡ path_in target.now (parse_url None target.now)) }
{
    match Url::parse(alloc, target) {
        Ok(url) => Text::copied(alloc, url.path()),
        Err(ParseError::OutOfMemory | ParseError::Overflow) => Err(AllocError),
        Err(_) => Text::copied(alloc, without_query(target)),
    }
}

fn begins_with_slash(target: &str) -> bool
    ensures { result ≡ nat_eq (slice_index target.now 0) 47 }
{
    match target.as_bytes().first() {
        Some(byte) => *byte == b'/',
        None => false,
    }
}

fn without_query(path: &str) -> &str
    ensures { result.now ≡ without_query path.now }
{
    match path.split_once('?') {
        Some((before, _)) => before,
        None => path,
    }
}

fn target_path(alloc: Global, target: &[u8]) -> Result<Text, AllocError>
    requires { IsUtf8 target.now }
    ensures { IfOk result (λ path. path ≡ path_of target.now) }
{
    match std::str::from_utf8(target) {
        Ok(target) => path_of(alloc, target),
        Err(_) => unreachable!(),
    }
}

/// What a head asks, or the first refusal that it draws.
pub fn judge(alloc: Global, head: &Head) -> Result<Asking, HttpRefusal>
    requires { IsRead head.now.bytes.items head.now.places head.now.spans }
    ensures ok { IfOk result (λ a. SaysOf head.now.bytes.items head.now.places head.now.spans a.path a.framing a.waits) }
    ensures err { IfErr result (λ e. Draws head.now.bytes.items head.now.places head.now.spans e) }
{
    let Ok(fields) = fields_of(alloc, head) else {
        return Err(HttpRefusal::NoMemory);
    };
    let framing = head_framing(head, &fields)?;
    let waits = head_waits(head, &fields);
    match head_path(alloc, head) {
        Ok(path) => Ok(Asking {
            path,
            framing,
            waits,
        }),
        Err(_) => Err(HttpRefusal::NoMemory),
    }
}

fn head_framing(head: &Head, fields: &HeaderMap) -> Result<Framing, HttpRefusal>
    requires read { IsRead head.now.bytes.items head.now.places head.now.spans }
    requires fields { HasFields head.now.bytes.items head.now.places head.now.spans fields.now }
    ensures { (h : RequestHead) → IsRequestAt head.now.bytes.items head.now.places head.now.spans h → result ≡ framing_of h }
{
    let method = head.spans.method.of(head.bytes.as_slice());
    read_framing(head.spans.version, method, fields)
}

fn head_waits(head: &Head, fields: &HeaderMap) -> bool
    requires { HasFields head.now.bytes.items head.now.places head.now.spans fields.now }
    ensures { (h : RequestHead) → IsRequestAt head.now.bytes.items head.now.places head.now.spans h → result ≡ expects h }
{
    expects(head.spans.version, fields)
}

fn head_path(alloc: Global, head: &Head) -> Result<Text, AllocError>
    requires { IsRead head.now.bytes.items head.now.places head.now.spans }
    ensures { IfOk result (λ path. (h : RequestHead) → IsRequestAt head.now.bytes.items head.now.places head.now.spans h → path ≡ path_of h.target) }
{
    let target = head.spans.path.of(head.bytes.as_slice());
    target_path(alloc, target)
}
