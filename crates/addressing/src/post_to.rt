//! Where a post to an endpoint goes.

ghost use Rattle.std.specs.Prelude.{◌≡◌, IfOk, is_some};
ghost use Rattle.addressing.specs.PostAddresses.{post_to_of, postable};

use at_base::epr::Epr;
use at_base::text::Text;
use std::alloc::{AllocError, Global};
use url::{ParseError, Url};

/// Where a post goes: a host, a port, and a path with its query.
#[derive(Debug, PartialEq, Eq, Drop)]
pub struct PostTo {
    pub host: Text,
    pub port: u16,
    pub path: Text,
}

/// Where a post to an endpoint goes, or none where its address is no URL or not an http one.
pub fn post_to(alloc: Global, epr: &Epr) -> Result<Option<PostTo>, AllocError>
    ensures { IfOk result (λ to. to ≡ post_to_of epr.now.address) }
{
    match Url::parse(alloc, epr.address.as_str()) {
        Ok(url) => parts_of(alloc, &url),
        Err(ParseError::OutOfMemory | ParseError::Overflow) => Err(AllocError),
        Err(_) => Ok(None),
    }
}

fn parts_of(alloc: Global, url: &Url) -> Result<Option<PostTo>, AllocError>
    ensures { IfOk result (λ to. to ≡ postable url.now) }
{
    if url.scheme() != "http" {
        return Ok(None);
    }
    let host = Text::copied(alloc, url.host_str().unwrap_or(""))?;
    let port = url.port().unwrap_or(80);
    let mut path = Text::copied(alloc, url.path())?;
    if let Some(query) = url.query() {
        path.push_str("?")?;
        path.push_str(query)?;
    }
    Ok(Some(PostTo { host, port, path }))
}

/// Whether something can be posted to an address: whether it is an http URL.
pub fn is_postable(alloc: Global, address: &str) -> Result<bool, AllocError>
    ensures { IfOk result (λ is. is ≡ is_some (post_to_of address.now)) }
{
    match Url::parse(alloc, address) {
        Ok(url) => Ok(is_http(&url)),
        Err(ParseError::OutOfMemory | ParseError::Overflow) => Err(AllocError),
        Err(_) => Ok(false),
    }
}

fn is_http(url: &Url) -> bool
    ensures { result ≡ is_some (postable url.now) }
{
    url.scheme() == "http"
}
