//! Room for where the fields of a head stand.

ghost use Rattle.std.specs.Prelude.{◌≡◌, length};
ghost use Rattle.http_post.specs.PartialHeads.{IsStep};

use httparse::Status;
use httparse::spans::{EMPTY_HEADER_SPAN, HeaderSpan, RequestSpans, parse_request};
use std::alloc::{AllocError, Global};
use std::marker::Model;

/// More fields than a head of 8,192 bytes can have: each takes three bytes at least.
const ROOM: usize = 2731;

/// Where the fields of a head stand.
#[derive(Drop)]
pub struct Places {
    items: Vec<HeaderSpan>,
}

impl Model for Places {
    ghost use Rattle.std.specs.Prelude.{List, length, ◌≡◌};
    ghost use Rattle.httparse.specs.declared.spans.HeaderSpan.{HeaderSpan};

    ghost Value = { List HeaderSpan };

    ghost view = { λ p. p.items.items };

    ghost invariant = { λ p. length p.items.items ≡ 2731 };
}

/// What the bytes that came so far are.
pub enum Step {
    /// They begin with a whole head.
    Whole(RequestSpans),
    /// More bytes are wanted.
    More,
    /// No head begins with them, whatever follows.
    Never,
}

impl Places {
    /// Room for the fields of any head.
    pub fn new(alloc: Global) -> Result<Places, AllocError> {
        Ok(Places {
            items: vec![in alloc; EMPTY_HEADER_SPAN; ROOM]?,
        })
    }

    /// The places of the fields.
    pub fn as_slice(&self) -> &[HeaderSpan]
        ensures { result.now ≡ self.now }
    {
        self.items.as_slice()
    }

    /// Reads a head at the beginning of the bytes.
    pub fn try_head(&mut self, bytes: &[u8]) -> Step
        ensures { IsStep bytes.now self.new result }
    {
        try_bytes(bytes, self.items.as_mut_slice())
    }
}

#[tactic(auto, using(crate::proofs::Overflow::too_long))]
fn try_bytes(bytes: &[u8], places: &mut [HeaderSpan]) -> Step
    requires { length places.old ≡ 2731 }
    ensures step { IsStep bytes.now places.new result }
    ensures same_length { length places.new ≡ 2731 }
{
    match parse_request(bytes, places) {
        Ok(Status::Complete(spans)) => Step::Whole(spans),
        Ok(Status::Partial) => Step::More,
        Err(_) => Step::Never,
    }
}
