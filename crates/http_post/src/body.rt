//! The body of a request (RFC 9112, section 6).

ghost use Rattle.std.specs.Prelude.{ℕ, List, ◌<◌, Err, IfErr, IfOk, Ok};
ghost use Rattle.http_post.specs.Connections.{Leaves, left};
ghost use Rattle.http_post.specs.declared.framing.Framing.TheVariants.{Chunked, Sized};
ghost use Rattle.http_post.specs.Causes.{HasLinkCause};
ghost use Rattle.http_post.specs.RawBytes.{IsFault, IsRaw};
ghost use Rattle.http_post.specs.Requests.{Body};

use crate::chunks::read_chunks;
use crate::framing::Framing;
use crate::raw_bytes::read_on;
use crate::refusal::HttpRefusal;
use site_model::site::Site;
use std::alloc::{AllocError, Global};

/// The body of a request, of which these bytes came with its head.
pub fn read_body<S: Site>(
    alloc: Global,
    site: &mut S,
    bytes: &mut Vec<u8>,
    framing: Framing,
) -> Result<Vec<u8>, HttpRefusal>
    ensures content { IfOk result (λ body. (raw : List ℕ) → IsRaw (left (S.told site.old)) bytes.old.items raw → Body framing raw (Ok body.items)) }
    ensures fault { IfErr result (λ e. IsFault e (λ r. (raw : List ℕ) → IsRaw (left (S.told site.old)) bytes.old.items raw → Body framing raw (Err r))) }
    ensures cause { HasLinkCause ((S.told site.old).counts.receive) ((S.told site.new).counts.receive) result }
    ensures leaves { Leaves S.told site.old site.new }
{
    match framing {
        Framing::Sized(count) => sized_body(alloc, site, bytes, count),
        Framing::Chunked => chunked_body(alloc, site, bytes),
    }
}

fn chunked_body<S: Site>(
    alloc: Global,
    site: &mut S,
    bytes: &mut Vec<u8>,
) -> Result<Vec<u8>, HttpRefusal>
    ensures content { IfOk result (λ body. (raw : List ℕ) → IsRaw (left (S.told site.old)) bytes.old.items raw → Body Chunked raw (Ok body.items)) }
    ensures fault { IfErr result (λ e. IsFault e (λ r. (raw : List ℕ) → IsRaw (left (S.told site.old)) bytes.old.items raw → Body Chunked raw (Err r))) }
    ensures cause { HasLinkCause ((S.told site.old).counts.receive) ((S.told site.new).counts.receive) result }
    ensures leaves { Leaves S.told site.old site.new }
{
    match read_chunks(alloc, site, bytes) {
        Ok(body) => Ok(body),
        Err(refusal) => Err(refusal),
    }
}

fn sized_body<S: Site>(
    alloc: Global,
    site: &mut S,
    bytes: &mut Vec<u8>,
    count: usize,
) -> Result<Vec<u8>, HttpRefusal>
    ensures content { IfOk result (λ body. (raw : List ℕ) → IsRaw (left (S.told site.old)) bytes.old.items raw → Body (Sized count) raw (Ok body.items)) }
    ensures fault { IfErr result (λ e. IsFault e (λ r. (raw : List ℕ) → IsRaw (left (S.told site.old)) bytes.old.items raw → Body (Sized count) raw (Err r))) }
    ensures cause { HasLinkCause ((S.told site.old).counts.receive) ((S.told site.new).counts.receive) result }
    ensures leaves { Leaves S.told site.old site.new }
{
    while bytes.len() < count {
        match read_on(site, bytes, count - bytes.len()) {
            Ok(0) => return Err(HttpRefusal::BadRequest),
            Ok(_) => {}
            Err(refusal) => return Err(refusal),
        }
    }
    match Vec::from_slice(alloc, &bytes[..count]) {
        Ok(body) => Ok(body),
        Err(AllocError) => Err(HttpRefusal::NoMemory),
    }
}
