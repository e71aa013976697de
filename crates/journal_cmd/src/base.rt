//! The base of a node whose journal is given to an audit.

ghost use Rattle.std.specs.Prelude.{◌≡◌, IfOk};
ghost use Rattle.schedules.specs.InitiatorLines.{is_base, is_plain_http};
ghost use Rattle.journal_cmd.specs.Bases.{ends_in_slash, is_journal_base};

use at_base::limits::MOST_BASE;
use std::alloc::{AllocError, Global};
use url::{ParseError, Url};

/// Whether a path may stand behind the URL.
fn is_plain_http(url: &Url) -> bool
    ensures { result ≡ is_plain_http url.now }
{
    url.scheme() == "http" && url.path() == "/" && url.query().is_none() && url.fragment().is_none()
}

/// Whether the word is the base URL of a node, with or without a slash at its end.
fn is_base(alloc: Global, word: &str) -> Result<bool, AllocError>
    ensures { IfOk result (λ is. is ≡ is_base word.now) }
{
    if word.len() > MOST_BASE {
        return Ok(false);
    }
    match Url::parse(alloc, word) {
        Ok(url) => Ok(is_plain_http(&url)),
        Err(ParseError::OutOfMemory | ParseError::Overflow) => Err(AllocError),
        Err(_) => Ok(false),
    }
}

fn ends_in_slash(base: &[u8]) -> bool
    ensures { result ≡ ends_in_slash base.now }
{
    if base.is_empty() {
        return false;
    }
    base[base.len() - 1] == b'/'
}

/// Whether an audit takes the word as the base of a node: an http URL behind which a path may stand, of at most 1,024 bytes,
/// without a slash at its end.
pub fn is_journal_base(alloc: Global, word: &str) -> Result<bool, AllocError>
    ensures { IfOk result (λ is. is ≡ is_journal_base word.now) }
{
    let is_base = is_base(alloc, word)?;
    Ok(is_base && !ends_in_slash(word.as_bytes()))
}
